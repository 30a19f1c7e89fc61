//! What a line without its LF spells.

ghost use Rattle.std.specs.Prelude.{◌≡◌, true, false, Bool, MatchOption};
ghost use Rattle.ps_steps.specs.Pieces.{SpellsBelow, SpellsNone};
ghost use Rattle.ps_steps.specs.Steps.{is_end};
ghost use Rattle.ps_steps.specs.Spelled.{is_word, Spells, NoWord, NoLeaf, SpellsStep, NoStep, NoLine, StandsThere, NoneStands, IsPair, NoPair, is_any_head};

use super::lines::Line;
use super::pieces::{after, number, split};
use ps_rules::Step;

/// The head, or a line that is one word or two.
fn word(piece: &[u8]) -> Option<Line>
    ensures { MatchOption result (NoWord piece.now) (λ l. Spells piece.now l) }
{
    if piece == b"pathsum 1".as_slice() {
        Some(Line::Head(1))
    } else if piece == b"id a".as_slice() {
        Some(Line::Id { b: false })
    } else if piece == b"id b".as_slice() {
        Some(Line::Id { b: true })
    } else if piece == b"join".as_slice() {
        Some(Line::Join)
    } else if piece == b"overlap".as_slice() {
        Some(Line::Overlap)
    } else if piece == b"end".as_slice() {
        Some(Line::End)
    } else {
        None
    }
}

/// The place of a prim.
fn prim(digits: &[u8]) -> Option<u32>
    ensures { MatchOption result (SpellsNone 4294967296 digits.now) (λ v. SpellsBelow 4294967296 digits.now v) }
{
    let value = number(digits, 4_294_967_296)?;
    Some(value as u32)
}

/// The number of a path variable.
fn variable(digits: &[u8]) -> Option<u16>
    ensures { MatchOption result (SpellsNone 65536 digits.now) (λ v. SpellsBelow 65536 digits.now v) }
{
    let value = number(digits, 65_536)?;
    Some(value as u16)
}

fn leaf(piece: &[u8]) -> Option<Line>
    ensures { MatchOption result (NoLeaf piece.now) (λ l. Spells piece.now l) }
{
    match after(piece, b"leaf a ") {
        Some(digits) => {
            let prim = prim(digits)?;
            Some(Line::Leaf { b: false, prim })
        }
        None => {
            let digits = after(piece, b"leaf b ")?;
            let prim = prim(digits)?;
            Some(Line::Leaf { b: true, prim })
        }
    }
}

/// Two path variables.
fn pair(digits: &[u8]) -> Option<(u16, u16)>
    ensures { MatchOption result (NoPair digits.now) (λ p. IsPair digits.now p.0 p.1) }
{
    let parts = split(digits, b' ')?;
    let first = variable(parts.piece)?;
    let second = variable(parts.rest)?;
    Some((first, second))
}

fn step(piece: &[u8]) -> Option<Step>
    ensures { MatchOption result (NoStep piece.now) (λ s. SpellsStep piece.now s) }
{
    match after(piece, b"elim ") {
        Some(digits) => {
            let y0 = variable(digits)?;
            Some(Step::Elim { y0 })
        }
        None => match after(piece, b"omega ") {
            Some(digits) => {
                let y0 = variable(digits)?;
                Some(Step::Omega { y0 })
            }
            None => {
                let digits = after(piece, b"hh ")?;
                let (y0, y1) = pair(digits)?;
                Some(Step::Hh { y0, y1 })
            }
        },
    }
}

fn line(piece: &[u8]) -> Option<Line>
    ensures { MatchOption result (NoLine piece.now) (λ l. Spells piece.now l) }
{
    match word(piece) {
        Some(line) => Some(line),
        None => match leaf(piece) {
            Some(line) => Some(line),
            None => {
                let step = step(piece)?;
                Some(Line::Rewrite(step))
            }
        },
    }
}

fn is_head(line: &Line) -> bool
    ensures { result ≡ is_any_head line.now }
{
    match line {
        Line::Head(_) => true,
        _ => false,
    }
}

pub fn is_end(line: &Line) -> bool
    ensures { result ≡ is_end line.now }
{
    match line {
        Line::End => true,
        _ => false,
    }
}

/// The line, where it may stand there: the head first, and no other head.
pub fn standing(piece: &[u8], first: bool) -> Option<Line>
    ensures { MatchOption result (NoneStands first piece.now) (λ l. StandsThere first piece.now l) }
{
    let line = line(piece)?;
    if is_head(&line) == first {
        Some(line)
    } else {
        None
    }
}
