//! The commands of one session.
ghost use Rattle.std.specs.Prelude.{◌≡◌};
ghost use Rattle.ps_desk.specs.Seats.{IsSeatOf};
ghost use Rattle.ps_threads.specs.Seated.{IsFresh};
ghost use Rattle.ps_threads.specs.Served.{IsServedBy};

use crate::held::Held;
use crate::parts::{Finished, Job};
use crate::seated::Session;
use crate::tidings::Tidings;
use ps_calls::{Turns, command};
use ps_desk::Desk;
use ps_io::{Gate, Point};
use ps_sessions::Ending;
use std::alloc::Global;
use std::sync::Wait;

/// Does the commands of the session in order, up to one of which a turn is refused. The gate is passed before each
/// command and behind each answer, and where `command` passes it.
pub fn serve<G: Gate, R: Wait>(
    rt: &R,
    alloc: Global,
    desk: &Desk<Held>,
    tidings: &Tidings,
    gate: &G,
    job: Job,
) -> Finished
    requires { IsSeatOf desk.now job.seat × IsFresh job.seat }
    // The entries of the seat match the commands that were answered: all of them, or those before one of which a
    // ticket was refused. Nothing else of the seat changes.
    ensures { IsServedBy job.commands.items job.seat result.seat result.ending }
{
    let Job { seat, commands } = job;
    let mut session = Session::new(rt, desk, seat);
    let number = session.number();
    for asked in commands {
        gate.pass(number, Point::Starting);
        match command(alloc, &mut session, asked, gate) {
            Ok(reply) => tidings.tell(rt, &reply),
            Err(full) => {
                return Finished {
                    seat: session.finish(),
                    ending: Ending::Full {
                        ticket: full.ticket,
                    },
                };
            }
        }
        gate.pass(number, Point::Answered);
    }
    Finished {
        seat: session.finish(),
        ending: Ending::Done,
    }
}
