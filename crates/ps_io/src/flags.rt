//! Flags by which seats are asked to stop.
ghost use Rattle.std.specs.Prelude.{◌≡◌, ◌<◌, ◌≤◌, IsTrue};
ghost use Rattle.ps_io.specs.Counts.{Rose};
ghost use Rattle.ps_io.specs.Hints.{counted};

use crate::stop::Stop;
use std::marker::Model;
use std::sync::atomic::{AtomicU64, Ordering};

/// A flag for each of 64 seats, which threads share by reference. A flag is a hint: nothing is promised about when
/// it is seen.
#[derive(Drop)]
pub struct Flags {
    bits: AtomicU64,
}

impl Flags {
    /// All flags are clear.
    pub fn new() -> Flags {
        Flags {
            bits: AtomicU64::new(0),
        }
    }

    /// Sets the flag of a seat, whose number is below 64.
    pub fn set(&self, seat: u32)
        requires { seat < 64 }
    {
        self.bits.fetch_or(1 << seat, Ordering::SeqCst);
    }

    /// Clears the flag of a seat, whose number is below 64.
    pub fn clear(&self, seat: u32)
        requires { seat < 64 }
    {
        self.bits.fetch_and(!(1 << seat), Ordering::SeqCst);
    }

    /// The flag of a seat, whose number is below 64, for a computation to ask.
    pub fn hint(&self, seat: u32) -> Hint<'_>
        requires { seat < 64 }
        ensures { result ≡ record { seat = seat; yeses = 0 } }
    {
        Hint {
            flags: self,
            seat,
            yeses: 0,
        }
    }
}

/// Asks to stop while the flag of one seat is set.
#[derive(Drop)]
pub struct Hint<'a> {
    flags: &'a Flags,
    seat: u32,
    yeses: u64,
}

impl<'a> Model for Hint<'a> {
    ghost use Rattle.std.specs.Prelude.{◌<◌};
    ghost use Rattle.ps_io.specs.Hints.{HintState};

    ghost Value = { HintState };

    ghost view = { λ h. record { seat = h.seat; yeses = h.yeses } };

    ghost invariant = { λ h. h.seat < 64 };
}

impl<'a> Stop for Hint<'a> {
    ghost yeses = { λ h. h.yeses };

    /// Whether the flag is set now.
    fn asked(&mut self) -> bool
        ensures yes { IsTrue result → Rose self.old.yeses self.new.yeses }
        ensures never_falls { self.old.yeses ≤ self.new.yeses }
        ensures counted { self.new ≡ record self.old { yeses = counted result self.old.yeses } }
    {
        let set = self.flags.bits.load(Ordering::SeqCst) & (1 << self.seat) != 0;
        if set {
            self.yeses = self.yeses.saturating_add(1);
        }
        set
    }
}
