//! A session: a seat with the desk that it is at.
ghost use Rattle.std.specs.Prelude.{◌≡◌};
ghost use Rattle.ps_desk.specs.Seats.{IsSeatOf};

use crate::held::Held;
use ps_calls::Turns;
use ps_desk::{Desk, Full, Seat};
use ps_journal::{Cmd, Reply};
use std::sync::Wait;

/// Takes turns at a desk under the number of its seat. Each waits until its ticket is served.
#[derive(Drop)]
pub struct Session<'a, R: Wait> {
    pub rt: &'a R,
    pub desk: &'a Desk<Held>,
    pub seat: Seat<Held>,
    pub ghost at: { IsSeatOf desk.now seat },
}

impl<'a, R: Wait> Session<'a, R> {
    /// A session on this seat, which is one of the desk.
    pub fn new(rt: &'a R, desk: &'a Desk<Held>, seat: Seat<Held>) -> Session<'a, R>
        requires { IsSeatOf desk.now seat }
        ensures { result.seat ≡ seat }
    {
        Session { rt, desk, seat }
    }

    /// The seat, after its last turn.
    pub fn finish(self) -> Seat<Held>
        ensures { result ≡ self.entry.seat }
    {
        let Session {
            rt: _,
            desk: _,
            seat,
        } = self;
        seat
    }
}

impl<'a, R: Wait> Turns for Session<'a, R> {
    ghost use Rattle.ps_threads.specs.Seated.{seat_view};

    ghost view = { λ s. seat_view s.seat };

    fn number(&self) -> u32 {
        self.seat.number()
    }

    fn turn(&mut self, cmd: Cmd) -> Result<Reply, Full> {
        self.desk.turn(self.rt, &mut self.seat, cmd)
    }
}
