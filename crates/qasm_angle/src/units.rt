//! Angles of pairs.

ghost use Rattle.std.specs.Prelude.{◌≡◌, ◌<◌, ◌^◌};
ghost use Rattle.qasm_angle.specs.Angles.{IsAngle};

use crate::dyadics::{is_negative, magnitude, two_to};
use crate::types::{AngleFault, Pair};
use ps_ring::Angle;

/// The angle that a pair is: its units are s·2^30, modulo 2^32.
///
/// `NotDyadic` comes where r is not 0, and otherwise `AngleRange` where s·2^30 is not whole.
pub fn angle(pair: Pair) -> Result<Angle, AngleFault>
    ensures { IsAngle pair result }
{
    if pair.r.num != 0 {
        return Err(AngleFault::NotDyadic);
    }
    if pair.s.shift > 30 {
        return Err(AngleFault::AngleRange);
    }
    let units = magnitude(&pair.s) * two_to(30 - pair.s.shift) % 4294967296;
    if is_negative(&pair.s) {
        Ok(Angle::of(((4294967296 - units) % 4294967296) as u32))
    } else {
        Ok(Angle::of(units as u32))
    }
}
