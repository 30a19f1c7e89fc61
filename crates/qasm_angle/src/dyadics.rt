//! Sums, products and quotients of dyadic numbers.

ghost use Rattle.std.specs.Prelude.{◌≡◌, ◌≢◌, ◌+◌, ◌*◌, ◌%◌, ◌^◌, ◌<◌, ◌≤◌, pos, ◌*ℤ◌, neg_ℤ, nat_abs};
ghost use Rattle.qasm_angle.specs.Lowest.{IsReduced};
ghost use Rattle.qasm_angle.specs.Fractions.{Exactly, signed, below_zero, SumIs, ProductIs, QuotientIs};

use crate::types::{AngleFault, Dyadic};

/// 2^62, which numerators stay below.
pub const TOP: u128 = 0x4000_0000_0000_0000;

/// A fraction in lowest terms.
fn reduce(top: u128, shift: u32) -> (u128, u32)
    ensures { IsReduced top shift result.0 result.1 }
{
    let mut m = top;
    let mut s = shift;
    while s > 0 && m % 2 == 0 {
        m /= 2;
        s -= 1;
    }
    (m, s)
}

/// The odd part of a number, and the power of two that it is multiplied by.
pub fn odd_part(number: u128) -> (u128, u32)
    requires some { 0 < number }
    requires small { number < 2 ^ 62 }
    ensures product { number ≡ result.0 * 2 ^ result.1 }
    ensures odd { result.0 % 2 ≡ 1 }
    ensures few { result.1 < 62 }
{
    let mut odd = number;
    let mut twos = 0;
    while odd % 2 == 0 {
        odd /= 2;
        twos += 1;
    }
    (odd, twos)
}

/// 2^k.
pub fn two_to(k: u32) -> u128
    requires { k < 128 }
    ensures { result ≡ 2 ^ k }
{
    1u128 << k
}

/// The magnitude of a numerator.
pub fn magnitude(d: &Dyadic) -> u128
    ensures value { result ≡ nat_abs d.now.num }
    ensures small { result < 2 ^ 62 }
{
    d.num.unsigned_abs() as u128
}

/// The dyadic number top / 2^shift, negated where `negative` is true.
pub fn fraction(negative: bool, top: u128, shift: u32) -> Result<Dyadic, AngleFault>
    ensures { Exactly (signed negative top) shift result }
{
    let (m, s) = reduce(top, shift);
    if m >= TOP || s > 62 {
        return Err(AngleFault::AngleRange);
    }
    let num = m as i64;
    if negative {
        Ok(Dyadic {
            num: -num,
            shift: s,
        })
    } else {
        Ok(Dyadic { num, shift: s })
    }
}

/// Whether a numerator is below 0.
pub fn is_negative(d: &Dyadic) -> bool
    ensures { result ≡ below_zero d.now.num }
{
    d.num < 0
}

/// 2^k.
fn power(k: u32) -> i128
    requires { k ≤ 62 }
    ensures value { result ≡ pos (2 ^ k) }
    ensures small { nat_abs result < 2 ^ 63 }
{
    1i128 << k
}

/// n·2^k.
fn scaled(n: i64, k: u32) -> i128
    requires few { k ≤ 62 }
    requires small { nat_abs n < 2 ^ 62 }
    ensures value { result ≡ n *ℤ pos (2 ^ k) }
    ensures bound { nat_abs result < 2 ^ 125 }
{
    n as i128 * power(k)
}

/// The sum.
pub fn sum(a: &Dyadic, b: &Dyadic) -> Result<Dyadic, AngleFault>
    ensures { SumIs a.now b.now result }
{
    let total = scaled(a.num, b.shift) + scaled(b.num, a.shift);
    fraction(total < 0, total.unsigned_abs(), a.shift + b.shift)
}

/// The product.
pub fn product(a: &Dyadic, b: &Dyadic) -> Result<Dyadic, AngleFault>
    ensures { ProductIs a.now b.now result }
{
    fraction(
        is_negative(a) != is_negative(b),
        magnitude(a) * magnitude(b),
        a.shift + b.shift,
    )
}

/// The quotient.
pub fn quotient(a: &Dyadic, b: &Dyadic) -> Result<Dyadic, AngleFault>
    requires { b.now.num ≢ pos 0 }
    ensures { QuotientIs a.now b.now result }
{
    let (odd, twos) = odd_part(magnitude(b));
    let top = magnitude(a);
    if top % odd != 0 {
        return Err(AngleFault::NotDyadic);
    }
    fraction(
        is_negative(a) != is_negative(b),
        top / odd * two_to(b.shift),
        a.shift + twos,
    )
}
