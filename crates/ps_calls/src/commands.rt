//! One command of a session.
ghost use Rattle.std.specs.Prelude.{◌≡◌, IfOk, IfErr};
ghost use Rattle.ps_calls.specs.Calls.{Grows, Done, Cut};

use crate::questions::{Question, ask, sum};
use crate::takers::Turns;
use ps_desk::Full;
use ps_io::Gate;
use ps_journal::{Cmd, Reply};
use ps_reach::Mode;
use ps_script::Command;
use std::alloc::Global;

/// Does one command, and answers the reply of its one session entry. It passes `Pinned` and `Filling` at the gate.
///
/// `Full` comes exactly where a ticket is refused afterwards; then no session entry was added, and fewer entries than
/// the command may take: one, or 3 + 2 · m for a question that pinned versions of which m segments were missing.
pub fn command<T: Turns, G: Gate>(
    alloc: Global,
    turns: &mut T,
    command: Command,
    gate: &G,
) -> Result<Reply, Full>
    // Nothing else of the seat changes; where nobody else takes turns, all new entries are of this number.
    ensures grows { Grows (T.view turns.old) (T.view turns.new) }
    // One session entry is new, the last of the seat: it answers the command, with this reply.
    ensures done { IfOk result (λ reply. Done command reply (T.view turns.old) (T.view turns.new)) }
    // No session entry is new, and a ticket is refused.
    ensures cut { IfErr result (λ f. Cut command f.ticket (T.view turns.old) (T.view turns.new)) }
{
    match command {
        Command::Open { name, text } => turns.turn(Cmd::Open { name, text }),
        Command::Splice {
            place,
            from,
            to,
            block,
        } => turns.turn(Cmd::Splice {
            name: place.name,
            base: place.version,
            from,
            to,
            block,
        }),
        Command::Retire { place } => turns.turn(Cmd::Retire {
            name: place.name,
            version: place.version,
        }),
        Command::Show { place } => turns.turn(Cmd::Read { place }),
        Command::Sum { place } => sum(alloc, turns, place, gate),
        Command::Ask { first, second } => {
            let question = Question {
                first,
                second,
                mode: Mode::Exact,
                proof: false,
            };
            ask(alloc, turns, question, gate)
        }
        Command::AskPhase { first, second } => {
            let question = Question {
                first,
                second,
                mode: Mode::Phase,
                proof: false,
            };
            ask(alloc, turns, question, gate)
        }
        Command::Prove { first, second } => {
            let question = Question {
                first,
                second,
                mode: Mode::Exact,
                proof: true,
            };
            ask(alloc, turns, question, gate)
        }
    }
}
