//! Powers of dyadic numbers.

ghost use Rattle.std.specs.Prelude.{◌≡◌, ◌≢◌, ◌+◌, ◌*◌, ◌%◌, ◌^◌, ◌<◌, ◌≤◌, ◌&&◌, nat_eq, pos, IfSome, IfNone};
ghost use Rattle.qasm_angle.specs.Fractions.{Exactly, to_power, PowerIs, InverseIs};

use crate::dyadics::{TOP, fraction, is_negative, magnitude, odd_part, two_to};
use crate::types::{AngleFault, Dyadic};

/// base^exponent, where it is below 2^62.
fn small_power(base: u128, exponent: u32) -> Option<u128>
    requires some { 0 < base }
    requires small { base < 2 ^ 62 }
    ensures value { IfSome result (λ m. (m ≡ base ^ exponent) × (m < 2 ^ 62)) }
    ensures large { IfNone result (2 ^ 62 ≤ base ^ exponent) }
{
    let mut power = 1;
    for step in 0..exponent {
        power *= base;
        if power >= TOP {
            return None;
        }
    }
    Some(power)
}

/// Whether a power is negative.
fn is_power_negative(negative: bool, exponent: u32) -> bool
    ensures { result ≡ (negative && nat_eq (exponent % 2) 1) }
{
    negative && exponent % 2 == 1
}

/// base^exponent.
pub fn raised(base: &Dyadic, exponent: u32) -> Result<Dyadic, AngleFault>
    requires { exponent ≤ 64 }
    ensures { PowerIs base.now exponent result }
{
    let top = magnitude(base);
    if top == 0 {
        return zero_raised(exponent);
    }
    let (odd, twos) = odd_part(top);
    if twos * exponent >= 62 {
        return Err(AngleFault::AngleRange);
    }
    match small_power(odd, exponent) {
        Some(power) => fraction(
            is_power_negative(is_negative(base), exponent),
            power * two_to(twos * exponent),
            base.shift * exponent,
        ),
        None => Err(AngleFault::AngleRange),
    }
}

/// 0^exponent; 0^0 is 1.
fn zero_raised(exponent: u32) -> Result<Dyadic, AngleFault>
    ensures { Exactly (to_power (pos 0) exponent) 0 result }
{
    if exponent == 0 {
        return fraction(false, 1, 0);
    }
    fraction(false, 0, 0)
}

/// 1 / base^exponent.
pub fn inverse(base: &Dyadic, exponent: u32) -> Result<Dyadic, AngleFault>
    requires some { base.now.num ≢ pos 0 }
    requires positive { 0 < exponent }
    requires few { exponent ≤ 64 }
    ensures { InverseIs base.now exponent result }
{
    let (odd, twos) = odd_part(magnitude(base));
    if odd != 1 {
        return Err(AngleFault::NotDyadic);
    }
    if base.shift * exponent >= 62 {
        return Err(AngleFault::AngleRange);
    }
    fraction(
        is_power_negative(is_negative(base), exponent),
        two_to(base.shift * exponent),
        twos * exponent,
    )
}
