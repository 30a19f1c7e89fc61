//! Where an input is split into texts.

ghost use Rattle.std.specs.Prelude.{◌≡◌, ◌≢◌, ℕ, ◌+◌, ◌<◌, ◌≤◌, ◌++◌, ◌↔◌, IsTrue, List, length, take, MatchOption};
ghost use Rattle.pathsum.specs.Splits.{EndsLine, Marks, AreLines, Separates, SplitsAt, NoSplit, IsParted, Lacks};

use super::commands::Command;

// A text, and what stands behind the separator that ends it.
#[derive(Clone, Copy)]
struct Split<'a> {
    text: &'a [u8],
    rest: &'a [u8],
    // Where the rest begins.
    start: u32,
}

/// The two texts of an input, and the bytes of a derivation behind them.
#[derive(Clone, Copy)]
pub struct Pieces<'a> {
    /// Text A.
    pub first: &'a [u8],
    /// Text B.
    pub second: &'a [u8],
    /// Where text B begins.
    pub start: u32,
    /// The bytes of a derivation; none where the command takes none.
    pub document: &'a [u8],
}

// What stands behind a piece.
fn after<'a>(text: &'a [u8], piece: &[u8]) -> Option<&'a [u8]>
    ensures { MatchOption result ((rest : List ℕ) → text.now ≢ piece.now ++ rest) (λ rest. text.now ≡ piece.now ++ rest.now) }
{
    text.strip_prefix(piece)
}

// What stands behind the end of a line, where the line ends here.
fn behind_end(bytes: &[u8]) -> Option<&[u8]>
    ensures { MatchOption result ((rest : List ℕ) → EndsLine bytes.now rest → ⊥) (λ rest. EndsLine bytes.now rest.now) }
{
    if bytes.is_empty() {
        Some(bytes)
    } else {
        after(bytes, b"\n")
    }
}

// What stands behind a separator at the front.
fn behind_mark(bytes: &[u8]) -> Option<&[u8]>
    ensures { MatchOption result ((rest : List ℕ) → Marks bytes.now rest → ⊥) (λ rest. Marks bytes.now rest.now) }
{
    match after(bytes, b"====") {
        None => None,
        Some(line) => match after(line, b"\r") {
            None => behind_end(line),
            Some(line) => behind_end(line),
        },
    }
}

// Whether a line begins at a place.
fn begins_line(bytes: &[u8], at: usize) -> bool
    requires { at ≤ length bytes.now }
    ensures { IsTrue result ↔ AreLines (take at bytes.now) }
{
    at == 0 || bytes[at - 1] == b'\n'
}

// What stands behind a separator at a place.
fn behind(bytes: &[u8], at: usize) -> Option<&[u8]>
    requires { at ≤ length bytes.now }
    ensures { MatchOption result ((text rest : List ℕ) → Separates bytes.now text rest → length text ≢ at) (λ rest. Separates bytes.now (take at bytes.now) rest.now) }
{
    if begins_line(bytes, at) {
        behind_mark(&bytes[at..])
    } else {
        None
    }
}

// The text before the first separator, and what stands behind that.
fn first_split(bytes: &[u8]) -> Option<Split<'_>>
    requires { length bytes.now ≤ 16777216 }
    ensures { MatchOption result (NoSplit bytes.now) (λ s. SplitsAt bytes.now s.text.now s.rest.now s.start) }
{
    for at in 0..bytes.len() {
        match behind(bytes, at) {
            None => {}
            Some(rest) => {
                return Some(Split {
                    text: &bytes[..at],
                    rest,
                    start: (bytes.len() - rest.len()) as u32,
                });
            }
        }
    }
    None
}

// The pieces of an input with one separator.
fn in_two(bytes: &[u8]) -> Option<Pieces<'_>>
    requires { length bytes.now ≤ 16777216 }
    ensures { MatchOption result (Lacks Command.Same bytes.now) (λ p. IsParted Command.Same bytes.now p.first.now p.second.now p.start p.document.now) }
{
    match first_split(bytes) {
        None => None,
        Some(split) => Some(Pieces {
            first: split.text,
            second: split.rest,
            start: split.start,
            document: b"",
        }),
    }
}

// The pieces of an input with two separators.
fn in_three(bytes: &[u8]) -> Option<Pieces<'_>>
    requires { length bytes.now ≤ 16777216 }
    ensures { MatchOption result (Lacks Command.Replay bytes.now) (λ p. IsParted Command.Replay bytes.now p.first.now p.second.now p.start p.document.now) }
{
    match first_split(bytes) {
        None => None,
        Some(first) => match first_split(first.rest) {
            None => None,
            Some(second) => Some(Pieces {
                first: first.text,
                second: second.text,
                start: first.start,
                document: second.rest,
            }),
        },
    }
}

/// The pieces of a command's input; none where a separator is missing.
pub fn parted(command: Command, bytes: &[u8]) -> Option<Pieces<'_>>
    requires { length bytes.now ≤ 16777216 }
    ensures { MatchOption result (Lacks command bytes.now) (λ p. IsParted command bytes.now p.first.now p.second.now p.start p.document.now) }
{
    match command {
        Command::Same => in_two(bytes),
        Command::SamePhase => in_two(bytes),
        Command::SameLocal => in_two(bytes),
        Command::Prove => in_two(bytes),
        Command::Replay => in_three(bytes),
    }
}
