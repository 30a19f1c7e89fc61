//! Classes of bytes, and runs of bytes of one class.

ghost use Rattle.std.specs.Prelude.{◌≡◌, ◌≤◌, length};
ghost use Rattle.qasm_lex.specs.Tokens.{is_in, is_digit_byte, is_letter_byte, is_word_byte, is_white_byte, is_sign_byte, is_tail_byte, is_exponent_byte, is_plus_minus_byte, WholeRun};

use crate::types::Class;

/// Whether a byte is one of `0` to `9`.
pub fn is_digit(b: u8) -> bool
    ensures { result ≡ is_digit_byte b }
{
    b >= b'0' && b <= b'9'
}

/// Whether a byte is one of `A` to `Z` and `a` to `z`.
pub fn is_letter(b: u8) -> bool
    ensures { result ≡ is_letter_byte b }
{
    (b >= b'A' && b <= b'Z') || (b >= b'a' && b <= b'z')
}

/// Whether a byte may stand in a word behind its first: a letter, a digit or `_`.
pub fn is_word(b: u8) -> bool
    ensures { result ≡ is_word_byte b }
{
    is_letter(b) || is_digit(b) || b == b'_'
}

/// Whether a byte may not follow a number: a letter, a digit, `_` or `.`.
pub fn is_tail(b: u8) -> bool
    ensures { result ≡ is_tail_byte b }
{
    is_word(b) || b == b'.'
}

/// Whether a byte begins an exponent: `e` or `E`.
pub fn is_exponent(b: u8) -> bool
    ensures { result ≡ is_exponent_byte b }
{
    b == b'e' || b == b'E'
}

/// Whether a byte is the sign of an exponent.
pub fn is_plus_minus(b: u8) -> bool
    ensures { result ≡ is_plus_minus_byte b }
{
    b == b'+' || b == b'-'
}

/// Whether a byte is white space: space, tab, CR or LF.
pub fn is_white(b: u8) -> bool
    ensures { result ≡ is_white_byte b }
{
    b == b' ' || b == b'\t' || b == b'\r' || b == b'\n'
}

/// Whether a byte alone is a sign.
pub fn is_sign(b: u8) -> bool
    ensures { result ≡ is_sign_byte b }
{
    b == b';'
        || b == b','
        || b == b'('
        || b == b')'
        || b == b'['
        || b == b']'
        || b == b'{'
        || b == b'}'
        || b == b'+'
        || b == b'-'
        || b == b'*'
        || b == b'/'
        || b == b'^'
}

/// Whether a byte is of a class.
#[tactic(auto, unfolding(crate::specs::Tokens::is_in))]
pub fn belongs(class: Class, b: u8) -> bool
    ensures { result ≡ is_in class b }
{
    match class {
        Class::Word => is_word(b),
        Class::Digit => is_digit(b),
        Class::Text => !(b == b'"' || b == b'\n'),
        Class::Comment => !(b == b'\n'),
    }
}

/// Where the run of bytes of a class ends that begins at a place.
pub fn run_end(class: Class, bytes: &[u8], from: usize) -> usize
    requires { from ≤ length bytes.now }
    ensures { WholeRun class bytes.now from result }
{
    let mut to = from;
    while to < bytes.len() && belongs(class, bytes[to]) {
        to += 1;
    }
    to
}
