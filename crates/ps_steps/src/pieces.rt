//! Pieces of a text, and numbers.

ghost use Rattle.std.specs.Prelude.{◌≡◌, ◌≢◌, ℕ, ◌++◌, ◌≤◌, List, true, MatchOption};
ghost use Rattle.ps_steps.specs.Pieces.{lacks, Splits, SpellsBelow, SpellsNone, IsNext, IsNoNext};

/// The piece before a mark, and what stands behind the mark.
#[derive(Clone, Copy)]
pub struct Parts<'a> {
    pub piece: &'a [u8],
    pub rest: &'a [u8],
}

/// What stands behind a piece.
pub fn after<'a>(text: &'a [u8], piece: &[u8]) -> Option<&'a [u8]>
    ensures { MatchOption result ((rest : List ℕ) → text.now ≢ piece.now ++ rest) (λ rest. text.now ≡ piece.now ++ rest.now) }
{
    text.strip_prefix(piece)
}

/// The text before and behind the first mark.
pub fn split(text: &[u8], mark: u8) -> Option<Parts<'_>>
    ensures { MatchOption result (lacks mark text.now ≡ true) (λ s. Splits mark text.now s.piece.now s.rest.now) }
{
    for (i, b) in text.iter().enumerate() {
        if *b == mark {
            return Some(Parts {
                piece: &text[..i],
                rest: &text[i + 1..],
            });
        }
    }
    None
}

/// The number behind one more digit, if it is below the bound and no zero leads it.
fn appended(seen: u64, place: usize, digit: u8, bound: u64) -> Option<u64>
    requires bounded { bound ≤ 4294967296 }
    requires small { seen ≤ 4294967296 }
    ensures { MatchOption result (IsNoNext seen place digit bound) (λ v. IsNext seen place digit bound v) }
{
    if digit < b'0' || digit > b'9' || (seen == 0 && place > 0) {
        return None;
    }
    let value = 10 * seen + u64::from(digit - b'0');
    if value < bound { Some(value) } else { None }
}

/// The number below the bound that a text is.
pub fn number(text: &[u8], bound: u64) -> Option<u64>
    requires { bound ≤ 4294967296 }
    ensures { MatchOption result (SpellsNone bound text.now) (λ v. SpellsBelow bound text.now v) }
{
    let mut value = 0;
    for (i, b) in text.iter().enumerate() {
        value = appended(value, i, *b, bound)?;
    }
    if text.is_empty() { None } else { Some(value) }
}
