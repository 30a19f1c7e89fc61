//! A computation that passes a gate, and asks a hint whether to stop.
ghost use Rattle.std.specs.Prelude.{◌≡◌, ◌≤◌, IsTrue};
ghost use Rattle.ps_io.specs.Counts.{Rose};

use ps_io::{Gate, Point, Stop};

/// Passes the gate for the seat at each question whether to stop, and then asks the hint.
#[derive(Drop)]
pub struct Asking<'a, S, G> {
    pub hint: &'a mut S,
    pub gate: &'a G,
    pub seat: u32,
}

impl<'a, S: Stop, G: Gate> Stop for Asking<'a, S, G> {
    ghost yeses = { λ a. S.yeses a.hint.now };

    fn asked(&mut self) -> bool {
        self.gate.pass(self.seat, Point::Filling);
        self.hint.asked()
    }
}
