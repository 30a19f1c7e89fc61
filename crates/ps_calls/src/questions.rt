//! Questions about versions, which a seat pins while it asks.
ghost use Rattle.std.specs.Prelude.{◌≡◌, IfOk, IfErr};
ghost use Rattle.ps_script.specs.declared.command.Command.{Command};
ghost use Rattle.ps_calls.specs.Calls.{Grows, Done, Cut};
ghost use Rattle.ps_calls.specs.Comparing.{Compared, HaveOneWidth, Concludes, Sums};
ghost use Rattle.ps_calls.specs.Settling.{AskedDone, AskedCut};

use crate::settling::{Settling, settle};
use crate::takers::Turns;
use ps_desk::Full;
use ps_io::{Gate, Point};
use ps_journal::{Cmd, Outcome, Reply, Shared};
use ps_normal::compare;
use ps_reach::{Mode, Record};
use ps_script::Place;
use std::alloc::Global;
use std::sync::Arc;

/// Two versions, what they are compared for, and whether a proof is asked for.
#[derive(Clone, Copy, Debug)]
pub struct Question {
    pub first: Place,
    pub second: Place,
    pub mode: Mode,
    pub proof: bool,
}

/// What comparing the two records comes to, or want of memory.
fn compared(
    alloc: Global,
    first: &Shared<Record>,
    second: &Shared<Record>,
    question: &Question,
) -> Outcome
    requires { first.now.n ≡ second.now.n }
    ensures { Compared question.now.mode question.now.proof first.now second.now result }
{
    let Ok(judged) = compare(alloc, first.as_arc(), second.as_arc(), question.mode) else {
        return Outcome::Starved;
    };
    let Ok(judged) = Arc::new(alloc, judged) else {
        return Outcome::Starved;
    };
    Outcome::Judged {
        judged,
        proof: question.proof,
    }
}

/// How a question about two versions ends after that.
fn concluded(alloc: Global, end: Settling, question: &Question) -> Outcome
    requires { HaveOneWidth end }
    ensures { Concludes question.now.mode question.now.proof end result }
{
    match end {
        Settling::Settled { first, second } => match second {
            Some(second) => compared(alloc, &first, &second, question),
            None => Outcome::Starved,
        },
        Settling::Crowded => Outcome::Crowded,
        Settling::Starved => Outcome::Starved,
    }
}

/// How a question about a sum ends after that.
fn summed(end: Settling) -> Outcome
    ensures { Sums end result }
{
    match end {
        Settling::Settled { .. } => Outcome::Done,
        Settling::Crowded => Outcome::Crowded,
        Settling::Starved => Outcome::Starved,
    }
}

/// Whether the two versions are one map.
pub fn ask<T: Turns, G: Gate>(
    alloc: Global,
    turns: &mut T,
    question: Question,
    gate: &G,
) -> Result<Reply, Full>
    ensures grows { Grows (T.view turns.old) (T.view turns.new) }
    ensures done { IfOk result (λ reply. AskedDone question reply (T.view turns.old) (T.view turns.new)) }
    ensures cut { IfErr result (λ f. AskedCut question f.ticket (T.view turns.old) (T.view turns.new)) }
{
    let seat = turns.number();
    let pin = Cmd::Pin {
        first: question.first,
        second: Some(question.second),
    };
    let reply = match turns.turn(pin) {
        Ok(reply) => reply,
        Err(full) => return Err(full),
    };
    match reply {
        Reply::Pinned => {}
        refused => return Ok(refused),
    }
    gate.pass(seat, Point::Pinned);
    let end = match settle(alloc, turns, gate) {
        Ok(end) => end,
        Err(full) => return Err(full),
    };
    let outcome = concluded(alloc, end, &question);
    turns.turn(Cmd::Answer { outcome })
}

/// The sum that the version comes to.
pub fn sum<T: Turns, G: Gate>(
    alloc: Global,
    turns: &mut T,
    place: Place,
    gate: &G,
) -> Result<Reply, Full>
    ensures grows { Grows (T.view turns.old) (T.view turns.new) }
    ensures done { IfOk result (λ reply. Done (Command.Sum place) reply (T.view turns.old) (T.view turns.new)) }
    ensures cut { IfErr result (λ f. Cut (Command.Sum place) f.ticket (T.view turns.old) (T.view turns.new)) }
{
    let seat = turns.number();
    let pin = Cmd::Pin {
        first: place,
        second: None,
    };
    let reply = match turns.turn(pin) {
        Ok(reply) => reply,
        Err(full) => return Err(full),
    };
    match reply {
        Reply::Pinned => {}
        refused => return Ok(refused),
    }
    gate.pass(seat, Point::Pinned);
    let end = match settle(alloc, turns, gate) {
        Ok(end) => end,
        Err(full) => return Err(full),
    };
    let outcome = summed(end);
    turns.turn(Cmd::Sum { outcome })
}
