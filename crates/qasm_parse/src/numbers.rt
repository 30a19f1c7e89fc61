//! The numbers that tokens spell.

ghost use Rattle.std.specs.Prelude.{◌≡◌, ◌≢◌, ℕ, ◌+◌, ◌-◌, ◌*◌, ◌^◌, ◌<◌, ◌≤◌, ℤ, pos, ◌+ℤ◌, ◌-ℤ◌, true, false, length, filter, get_or, min, drop, nat_eq};
ghost use Rattle.std.specs.List.{position_or_len};
ghost use Rattle.qasm_lex.specs.Tokens.{is_digit_byte, is_exponent_byte};
ghost use Rattle.qasm_parse.specs.Numbers.{IsNumeral, decimal as spelled, held as hold, with_sign, is_point, places as places_of, is_significant};

/// 10^18, which stands for more.
const MANY: u64 = 1_000_000_000_000_000_000;

/// A number with one more digit, or as it is at another byte.
fn with_digit(n: u64, b: u8) -> u64
    requires { n ≤ 1000000000000000000 }
    ensures digit { is_digit_byte b ≡ true → result ≡ min (n * 10 + (b - 48)) 1000000000000000000 }
    ensures other { is_digit_byte b ≡ false → result ≡ n }
    ensures small { result ≤ 1000000000000000000 }
{
    if b < b'0' || b > b'9' {
        return n;
    }
    (n * 10 + (b - b'0') as u64).min(MANY)
}

/// The number that the digits among bytes spell, or 10^18 where it is larger.
fn decimal(bytes: &[u8]) -> u64
    ensures { result ≡ min (spelled bytes.now) 1000000000000000000 }
{
    let mut n = 0;
    for b in bytes {
        n = with_digit(n, *b);
    }
    n
}

/// The place behind the last digit that is not 0.
fn significant(bytes: &[u8]) -> usize
    ensures within { result ≤ length bytes.now }
    ensures rest { (k : ℕ) → result ≤ k → k < length bytes.now → is_significant (get_or bytes.now k 0) ≡ false }
    ensures last { 0 < result → is_significant (get_or bytes.now (result - 1) 0) ≡ true }
{
    let mut end = bytes.len();
    while end > 0 {
        if bytes[end - 1] >= b'1' && bytes[end - 1] <= b'9' {
            return end;
        }
        end -= 1;
    }
    0
}

/// How many digits there are.
fn count(bytes: &[u8]) -> usize
    ensures value { result ≡ length (filter is_digit_byte bytes.now) }
    ensures few { result ≤ length bytes.now }
{
    bytes.iter().filter(|b| **b >= b'0' && **b <= b'9').count()
}

/// The place of the first e or E, or the length.
fn exponent_at(text: &[u8]) -> usize
    ensures { result ≡ position_or_len is_exponent_byte text.now }
{
    for at in 0..text.len() {
        if text[at] == b'e' || text[at] == b'E' {
            return at;
        }
    }
    text.len()
}

/// The place of the first point, or the length.
fn point_at(mantissa: &[u8]) -> usize
    ensures { result ≡ position_or_len is_point mantissa.now }
{
    for at in 0..mantissa.len() {
        if mantissa[at] == b'.' {
            return at;
        }
    }
    mantissa.len()
}

/// How many bytes stand behind the point.
fn places(mantissa: &[u8]) -> usize
    ensures { result ≡ length (drop (position_or_len is_point mantissa.now + 1) mantissa.now) }
{
    behind(mantissa, point_at(mantissa)).len()
}

/// -n, or n.
fn signed(negative: bool, n: u64) -> i64
    requires { n ≤ 1000000000000000000 }
    ensures { result ≡ with_sign negative n }
{
    if negative { -(n as i64) } else { n as i64 }
}

/// A power of ten and its shift, held between -10^9 and 10^9.
fn held(negative: bool, size: u64, zeros: u32, places: u32) -> i32
    requires { size ≤ 1000000000000000000 }
    ensures { result ≡ hold (with_sign negative size +ℤ pos zeros -ℤ pos places) }
{
    let power = signed(negative, size) + zeros as i64 - places as i64;
    power.clamp(-1_000_000_000, 1_000_000_000) as i32
}

/// Whether bytes begin with a minus.
fn is_negative(bytes: &[u8]) -> bool
    ensures { result ≡ nat_eq (get_or bytes.now 0 0) 45 }
{
    match bytes.first() {
        Some(b) => *b == b'-',
        None => false,
    }
}

/// The bytes behind a place.
fn behind(text: &[u8], at: usize) -> &[u8]
    ensures { result.now ≡ drop (at + 1) text.now }
{
    if at < text.len() {
        &text[at + 1..]
    } else {
        &text[text.len()..]
    }
}

/// The digits of a number without the point and without zeros at the end, and its power of ten.
///
/// Told are 10^18 for more digits, and the nearer of -10^9 and 10^9 for a power beyond them.
pub fn numeral(text: &[u8]) -> (u64, i32)
    requires { length text.now < 4294967296 }
    ensures { IsNumeral text.now result.0 result.1 }
{
    let split = exponent_at(text);
    let mantissa = &text[..split];
    let end = significant(mantissa);
    let digits = decimal(&mantissa[..end]);
    if digits == 0 {
        return (0, 0);
    }
    let zeros = count(&mantissa[end..]);
    let exponent = behind(text, split);
    let size = decimal(exponent);
    let after_point = places(mantissa);
    let ten = held(
        is_negative(exponent),
        size,
        zeros as u32,
        after_point as u32,
    );
    (digits, ten)
}
