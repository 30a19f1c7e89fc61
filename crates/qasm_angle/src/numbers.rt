//! The values of decimal numbers.

ghost use Rattle.std.specs.Prelude.{◌≡◌, ◌+◌, ◌*◌, ◌%◌, ◌^◌, ◌<◌, ◌≤◌, pos};
ghost use Rattle.qasm_angle.specs.Fractions.{Exactly, NumberIs, DecimalIs};

use crate::dyadics::fraction;
use crate::types::{AngleFault, Dyadic};

/// 10^18, which the digits of a number stay below.
const MANY: u64 = 1_000_000_000_000_000_000;

/// digits·10^ten.
pub fn number(digits: u64, ten: i32) -> Result<Dyadic, AngleFault>
    ensures { NumberIs digits ten result }
{
    if digits >= MANY {
        return Err(AngleFault::AngleRange);
    }
    let size = ten.unsigned_abs();
    if ten < 0 {
        return decimal(digits, size);
    }
    if size > 18 {
        return Err(AngleFault::AngleRange);
    }
    whole(digits, size)
}

/// digits·10^zeros.
fn whole(digits: u64, zeros: u32) -> Result<Dyadic, AngleFault>
    requires small { digits < 1000000000000000000 }
    requires few { zeros ≤ 18 }
    ensures { Exactly (pos (digits * 10 ^ zeros)) 0 result }
{
    fraction(false, digits as u128 * 10u128.pow(zeros), 0)
}

/// digits / 10^places.
fn decimal(digits: u64, places: u32) -> Result<Dyadic, AngleFault>
    requires small { digits < 1000000000000000000 }
    requires some { 0 < places }
    ensures { DecimalIs digits places result }
{
    if digits == 0 {
        return fraction(false, 0, 0);
    }
    if places > 25 {
        return Err(AngleFault::NotDyadic);
    }
    let fives = 5u64.pow(places);
    if digits % fives != 0 {
        return Err(AngleFault::NotDyadic);
    }
    fraction(false, (digits / fives) as u128, places)
}
