//! Filling what is missing of the versions that a seat has pinned.
ghost use Rattle.std.specs.Prelude.{◌≡◌, ℕ, ◌≤◌, ◌<◌, length, IfOk, IfErr, OnOk};
ghost use Rattle.ps_normal.specs.Fillings.{CanFill, IsRecordFor};
ghost use Rattle.ps_calls.specs.Calls.{Grows};
ghost use Rattle.ps_calls.specs.Settling.{Asking, IsAsking, IsFilling, RoundOf};
ghost use Rattle.ps_calls.specs.Settling.{FillingEnds, FillingCut, AskingEnds, AskingCut, AllEnd, AllCut};

use crate::passing::Passing;
use crate::takers::Turns;
use ps_desk::Full;
use ps_io::Gate;
use ps_journal::{Cmd, Reply, Shared};
use ps_normal::{Filled, fill};
use ps_reach::{Record, Task};
use std::alloc::{AllocError, Global};
use std::sync::Arc;

/// How the filling of pinned versions ends.
#[derive(Drop)]
pub enum Settling {
    /// Nothing is missing, and the versions come to these records.
    Settled {
        first: Shared<Record>,
        second: Option<Shared<Record>>,
    },
    /// Memory was wanting.
    Starved,
    /// There was no room for a record.
    Crowded,
}

/// The record of a task, which is filled past the gate.
fn filled<G: Gate>(
    alloc: Global,
    seat: u32,
    task: &Task,
    gate: &G,
) -> Result<Arc<Record>, AllocError>
    requires width { (1 ≤ task.now.n) × (task.now.n ≤ 64) }
    requires work { CanFill task.now.n task.now.work }
    ensures { IfOk result (λ r. IsRecordFor task.now.n task.now.work r.value) }
{
    let mut stop = Passing { gate, seat };
    match fill(alloc, task, &mut stop)? {
        Filled::Done(done) => Ok(Arc::new(alloc, done)?),
        Filled::Stopped => unreachable!(),
    }
}

/// How the filling ends where a publish was answered so. `None` where the segment has its record.
fn end_of(reply: &Reply) -> Option<Settling>
    ensures { RoundOf reply.now result }
{
    match reply {
        Reply::Published => None,
        Reply::Already(_) => None,
        Reply::NoRoom(_) => Some(Settling::Crowded),
        _ => Some(Settling::Starved),
    }
}

/// Fills the task that the seat was given, and publishes its record. `None` where there may be more.
fn fill_one<T: Turns, G: Gate>(
    alloc: Global,
    turns: &mut T,
    task: &Task,
    gate: &G,
) -> Result<Option<Settling>, Full>
    requires { (at : Asking) × (n : ℕ) × IsFilling at n task.now (T.view turns.old) }
    ensures grows { Grows (T.view turns.old) (T.view turns.new) }
    ensures ends { IfOk result (λ end. FillingEnds task.now (T.view turns.old) (T.view turns.new) end) }
    ensures below { length (T.view turns.old).seen ≤ 262144 → length (T.view turns.new).seen ≤ 262144 }
    ensures cut { IfErr result (λ f. FillingCut task.now (T.view turns.old) (T.view turns.new) f.ticket) }
{
    let seat = turns.number();
    let Ok(filled) = filled(alloc, seat, task, gate) else {
        return Ok(Some(Settling::Starved));
    };
    match turns.turn(Cmd::Publish { kept: Some(filled) }) {
        Ok(reply) => Ok(end_of(&reply)),
        Err(full) => Err(full),
    }
}

/// Asks for a task, and fills it where one is given. `None` where there may be more.
fn take_round<T: Turns, G: Gate>(
    alloc: Global,
    turns: &mut T,
    gate: &G,
) -> Result<Option<Settling>, Full>
    requires { (at : Asking) × (n : ℕ) × IsAsking at n (T.view turns.old) }
    ensures grows { Grows (T.view turns.old) (T.view turns.new) }
    ensures ends { IfOk result (λ end. AskingEnds (T.view turns.old) (T.view turns.new) end) }
    ensures longer { OnOk result (length (T.view turns.old).seen < length (T.view turns.new).seen) }
    ensures below { OnOk result (length (T.view turns.new).seen ≤ 262144) }
    ensures cut { IfErr result (λ f. AskingCut (T.view turns.old) (T.view turns.new) f.ticket) }
{
    // The laws of a turn ask for a number below 64.
    let seat = turns.number();
    let reply = match turns.turn(Cmd::Next { pinned: true }) {
        Ok(reply) => reply,
        Err(full) => return Err(full),
    };
    match reply {
        Reply::Task(task) => fill_one(alloc, turns, task.get(), gate),
        Reply::Settled { first, second } => Ok(Some(Settling::Settled { first, second })),
        _ => Ok(Some(Settling::Starved)),
    }
}

/// Fills what is missing of the versions that the seat has pinned.
pub fn settle<T: Turns, G: Gate>(alloc: Global, turns: &mut T, gate: &G) -> Result<Settling, Full>
    requires { (at : Asking) × IsAsking at 0 (T.view turns.old) }
    ensures grows { Grows (T.view turns.old) (T.view turns.new) }
    ensures ends { IfOk result (λ end. AllEnd (T.view turns.old) (T.view turns.new) end) }
    ensures cut { IfErr result (λ f. AllCut (T.view turns.old) (T.view turns.new) f.ticket) }
{
    'rounds: loop {
        match take_round(alloc, turns, gate) {
            Ok(None) => {}
            Ok(Some(end)) => return Ok(end),
            Err(full) => return Err(full),
        }
    }
}
