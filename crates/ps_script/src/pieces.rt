//! Words and numbers.

ghost use Rattle.std.specs.Prelude.{◌≡◌, ◌==◌, ℕ, [], ◌∷◌, position, MatchOption};
ghost use Rattle.ps_script.specs.Words.{words, digits_value, SpellsNumber, NoNumber};

use itoa::Buffer;

/// The first word of the bytes, and the words behind it.
#[derive(Clone, Copy)]
pub struct Words<'a> {
    pub first: &'a [u8],
    pub rest: &'a [u8],
}

/// Where a byte stands first.
pub fn find(bytes: &[u8], mark: u8) -> Option<usize>
    ensures { result ≡ position (λ b. b == mark) bytes.now }
{
    bytes.iter().position(|b| *b == mark)
}

/// The first of several words. None where there is one alone.
pub fn cut(bytes: &[u8]) -> Option<Words<'_>>
    ensures { let all = words bytes.now in MatchOption result (all ≡ bytes.now ∷ []) (λ w. all ≡ w.first.now ∷ words w.rest.now) }
{
    let at = find(bytes, b' ')?;
    Some(Words {
        first: &bytes[..at],
        rest: &bytes[at + 1..],
    })
}

// The bytes as digits, modulo 2^32, whatever they are.
fn digits_value(bytes: &[u8]) -> u32
    ensures { result ≡ digits_value 0 bytes.now }
{
    let mut value: u32 = 0;
    for b in bytes {
        let digit = u32::from(b.wrapping_sub(b'0'));
        value = value.wrapping_mul(10).wrapping_add(digit);
    }
    value
}

/// The number below 2^32 that the bytes are. There is one spelling of each, so what they come to is written again.
pub fn number(bytes: &[u8]) -> Option<u32>
    ensures { MatchOption result (NoNumber bytes.now) (λ v. SpellsNumber bytes.now v) }
{
    let value = digits_value(bytes);
    let mut buffer = Buffer::new();
    if buffer.format(value).as_bytes() == bytes {
        Some(value)
    } else {
        None
    }
}
