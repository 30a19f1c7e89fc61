ghost use Rattle.std.specs.Prelude.{◌≡◌, ℕ, ◌*◌, ◌%◌};

use super::phase::Phase;
use std::marker::Model;

/// An angle in units of pi / 2^30, modulo 4 pi: a whole number modulo 2^32.
#[derive(Clone, Copy, Debug, PartialEq, Eq)]
pub struct Angle {
    units: u32,
}

impl Model for Angle {
    ghost use Rattle.std.specs.Prelude.{ℕ, ◌<◌, ◌^◌};

    ghost Value = { ℕ };

    ghost view = { λ a. a.units };

    ghost invariant = { λ a. a.units < 2 ^ 32 };

    ghost inverse = { λ n. record { units = n } };
}

impl Angle {
    /// The angle of so many pi / 2^30.
    pub fn of(units: u32) -> Angle
        ensures { result ≡ units }
    {
        Angle { units }
    }

    /// How many pi / 2^30, from 0 to 2^32 - 1.
    pub fn units(self) -> u32
        ensures { result ≡ self }
    {
        self.units
    }

    /// Half the angle as a phase. An angle's unit is twice a phase's, so the units are the same.
    pub fn half(self) -> Phase
        ensures { result ≡ self }
    {
        Phase::of(self.units)
    }

    /// The angle as a phase: twice its units, modulo a turn.
    pub fn whole(self) -> Phase
        ensures { result ≡ (2 * self) % 4294967296 }
    {
        Phase::of(self.units.wrapping_mul(2))
    }
}
