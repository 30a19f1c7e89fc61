//! Cutting a text into tokens.

ghost use Rattle.std.specs.Prelude.{◌≡◌, ℕ, ◌+◌, ◌<◌, ◌≤◌, ◌⊎◌, true, false, length, IfOk, IfErr, MatchResult};
ghost use Rattle.qasm_lex.specs.Tokens.{byte, is_digit_byte, is_letter_byte, is_white_byte, IsLongest, NoGap, Reads, IsOnly, Told};
ghost use Rattle.qasm_lex.specs.Ends.{MantissaEnd, ExponentEnd, LongestOrNone, Stands, Advances};

use crate::runs::{
    is_digit, is_exponent, is_letter, is_plus_minus, is_sign, is_tail, is_white, run_end,
};
use crate::types::{Class, Kind, LexFault, Piece, Token};
use std::alloc::Global;

/// The byte at a place, and 0 past the end.
fn byte_at(bytes: &[u8], at: usize) -> u8
    ensures value { result ≡ byte bytes.now at }
    ensures inside { 0 < result → at < length bytes.now }
{
    if at < bytes.len() { bytes[at] } else { 0 }
}

/// Where the digits and the point of a number end.
fn mantissa_end(bytes: &[u8], at: usize) -> usize
    requires inside { at < length bytes.now }
    requires begins { (is_digit_byte (byte bytes.now at) ≡ true) ⊎ ((byte bytes.now at ≡ 46) × (is_digit_byte (byte bytes.now (at + 1)) ≡ true)) }
    ensures { MantissaEnd bytes.now at result }
{
    let digits = run_end(Class::Digit, bytes, at);
    if digits == at {
        return run_end(Class::Digit, bytes, at + 1);
    }
    if byte_at(bytes, digits) == b'.' {
        return run_end(Class::Digit, bytes, digits + 1);
    }
    digits
}

/// Where the exponent of a number ends, or its digits where it has none.
fn exponent_end(bytes: &[u8], at: usize) -> usize
    requires { at ≤ length bytes.now }
    ensures { ExponentEnd bytes.now at result }
{
    if !is_exponent(byte_at(bytes, at)) {
        return at;
    }
    let next = byte_at(bytes, at + 1);
    if is_plus_minus(next) {
        if is_digit(byte_at(bytes, at + 2)) {
            return run_end(Class::Digit, bytes, at + 2);
        }
        return at;
    }
    if is_digit(next) {
        run_end(Class::Digit, bytes, at + 1)
    } else {
        at
    }
}

/// The end of the text that begins at a quote.
fn text_end(bytes: &[u8], at: usize) -> Option<usize>
    requires inside { at < length bytes.now }
    requires quote { byte bytes.now at ≡ 34 }
    ensures { LongestOrNone bytes.now Kind.Text at result }
{
    let to = run_end(Class::Text, bytes, at + 1);
    if byte_at(bytes, to) == b'"' {
        Some(to + 1)
    } else {
        None
    }
}

/// The end of the number that begins at a digit, or at a point before a digit.
fn number_end(bytes: &[u8], at: usize) -> usize
    requires inside { at < length bytes.now }
    requires begins { (is_digit_byte (byte bytes.now at) ≡ true) ⊎ ((byte bytes.now at ≡ 46) × (is_digit_byte (byte bytes.now (at + 1)) ≡ true)) }
    ensures longest { IsLongest bytes.now Kind.Number at result }
    ensures within { (at < result) × (result ≤ length bytes.now) }
{
    exponent_end(bytes, mantissa_end(bytes, at))
}

/// The end of the sign at a place.
fn sign_end(bytes: &[u8], at: usize) -> Option<usize>
    requires inside { at < length bytes.now }
    requires letter { is_letter_byte (byte bytes.now at) ≡ false }
    requires digit { is_digit_byte (byte bytes.now at) ≡ false }
    requires point { byte bytes.now at ≡ 46 → is_digit_byte (byte bytes.now (at + 1)) ≡ false }
    requires quote { byte bytes.now at ≡ 34 → ⊥ }
    ensures { LongestOrNone bytes.now Kind.Sign at result }
{
    let first = bytes[at];
    let next = byte_at(bytes, at + 1);
    if first == b'-' && next == b'>' {
        return Some(at + 2);
    }
    if first == b'=' && next == b'=' {
        return Some(at + 2);
    }
    if is_sign(first) { Some(at + 1) } else { None }
}

/// The token of a place that a gap doesn't begin at, or its fault.
fn token_at(bytes: &[u8], at: usize) -> Piece
    requires inside { at < length bytes.now }
    requires small { length bytes.now ≤ 16777216 }
    requires gap { NoGap bytes.now at }
    ensures stands { Stands bytes.now at result }
    ensures goes_on { Advances bytes.now at result }
{
    let first = bytes[at];
    if is_letter(first) {
        return Piece::Token(Kind::Word, run_end(Class::Word, bytes, at + 1));
    }
    if is_digit(first) || (first == b'.' && is_digit(byte_at(bytes, at + 1))) {
        let to = number_end(bytes, at);
        if is_tail(byte_at(bytes, to)) {
            return Piece::Bad(LexFault::BadNumber(at as u32));
        }
        return Piece::Token(Kind::Number, to);
    }
    if first == b'"' {
        return match text_end(bytes, at) {
            Some(to) => Piece::Token(Kind::Text, to),
            None => Piece::Bad(LexFault::OpenString(at as u32)),
        };
    }
    match sign_end(bytes, at) {
        Some(to) => Piece::Token(Kind::Sign, to),
        None => Piece::Bad(LexFault::BadByte(at as u32)),
    }
}

/// What stands at a place.
fn piece_at(bytes: &[u8], at: usize) -> Piece
    requires inside { at < length bytes.now }
    requires small { length bytes.now ≤ 16777216 }
    ensures stands { Stands bytes.now at result }
    ensures goes_on { Advances bytes.now at result }
{
    let first = bytes[at];
    if is_white(first) {
        return Piece::Gap(at + 1);
    }
    if first == b'/' && byte_at(bytes, at + 1) == b'/' {
        return Piece::Gap(run_end(Class::Comment, bytes, at + 2));
    }
    token_at(bytes, at)
}

/// The tokens of a text, or the fault at which the cutting ends.
fn cut(alloc: Global, bytes: &[u8]) -> Result<Vec<Token>, LexFault>
    requires { length bytes.now ≤ 16777216 }
    ensures read { IfOk result (λ v. Reads bytes.now 0 (Ok v.items)) }
    ensures fault { IfErr result (λ e. Told e (λ f. Reads bytes.now 0 (Err f))) }
{
    let mut out = Vec::new(alloc);
    let mut at = 0;
    while at < bytes.len() {
        match piece_at(bytes, at) {
            Piece::Gap(to) => at = to,
            Piece::Token(kind, to) => {
                out.push(Token {
                    kind,
                    from: at as u32,
                    to: to as u32,
                })?;
                at = to;
            }
            Piece::Bad(fault) => return Err(fault),
        }
    }
    Ok(out)
}

/// The tokens of a text, in order, or its first fault.
///
/// The text has at most 16,777,216 bytes. At each place stands the longest token that begins
/// there; white space and comments between tokens give none. `LexFault` says what each fault is;
/// the one that is told is the first in the text. `Memory` can come in place of any answer.
pub fn tokens(alloc: Global, bytes: &[u8]) -> Result<Vec<Token>, LexFault>
    requires { length bytes.now ≤ 16777216 }
    // The bytes are cut into these tokens and gaps, or this is their first fault.
    ensures read { IfOk result (λ v. Reads bytes.now 0 (Ok v.items)) }
    ensures fault { IfErr result (λ e. Told e (λ f. Reads bytes.now 0 (Err f))) }
    // No other tokens and no other fault are those of the bytes.
    ensures only { MatchResult result (λ v. IsOnly bytes.now (Ok v.items)) (λ e. Told e (λ f. IsOnly bytes.now (Err f))) }
{
    cut(alloc, bytes)
}
