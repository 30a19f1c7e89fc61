ghost use Rattle.std.specs.Prelude.{◌≡◌, ℕ, ◌+◌, ◌-◌, ◌*◌, ◌%◌, ◌^◌, ◌≤◌};

use std::marker::Model;

/// A part of a turn, in units of 2^-32 of a turn: a whole number modulo 2^32.
#[derive(Clone, Copy, Debug, PartialEq, Eq)]
pub struct Phase {
    units: u32,
}

impl Model for Phase {
    ghost use Rattle.std.specs.Prelude.{ℕ, ◌<◌, ◌^◌};

    ghost Value = { ℕ };

    ghost view = { λ p. p.units };

    ghost invariant = { λ p. p.units < 2 ^ 32 };

    ghost inverse = { λ n. record { units = n } };
}

impl Phase {
    /// The phase of so many 2^-32 of a turn.
    pub fn of(units: u32) -> Phase
        ensures { result ≡ units }
    {
        Phase { units }
    }

    /// How many 2^-32 of a turn, from 0 to 2^32 - 1.
    pub fn units(self) -> u32
        ensures { result ≡ self }
    {
        self.units
    }

    /// Both together, modulo a turn.
    pub fn add(self, other: Phase) -> Phase
        ensures { result ≡ (self + other) % 4294967296 }
    {
        Phase::of(self.units.wrapping_add(other.units))
    }

    /// The phase that gives a whole turn with this one.
    pub fn neg(self) -> Phase
        ensures { result ≡ (4294967296 - self) % 4294967296 }
    {
        Phase::of(self.units.wrapping_neg())
    }

    /// Twice the phase, modulo a turn.
    pub fn double(self) -> Phase
        ensures { result ≡ (2 * self) % 4294967296 }
    {
        Phase::of(self.units.wrapping_mul(2))
    }

    /// The greatest `v`, at most 32, such that 2^v divides the units; 32 for no turn at all.
    pub fn power(self) -> u32
        ensures at_most { result ≤ 32 }
        ensures divides { self % 2 ^ result ≡ 0 }
        ensures greatest { (v : ℕ) → v ≤ 32 → self % 2 ^ v ≡ 0 → v ≤ result }
    {
        self.units.trailing_zeros()
    }
}
