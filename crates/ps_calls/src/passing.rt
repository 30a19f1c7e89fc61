//! A computation that passes a gate.
ghost use Rattle.std.specs.Prelude.{◌≡◌, ◌≤◌, IsTrue, false};
ghost use Rattle.ps_io.specs.Counts.{Rose};

use ps_io::{Gate, Point, Stop};

/// Passes the gate for the seat at each question whether to stop, and never stops.
#[derive(Drop)]
pub struct Passing<'a, G> {
    pub gate: &'a G,
    pub seat: u32,
}

impl<'a, G: Gate> Stop for Passing<'a, G> {
    ghost yeses = { λ _. 0 };

    fn asked(&mut self) -> bool
        ensures never { result ≡ false }
        ensures yes { IsTrue result → Rose 0 0 }
        ensures never_falls { 0 ≤ 0 }
    {
        self.gate.pass(self.seat, Point::Filling);
        false
    }
}
