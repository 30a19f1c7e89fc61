//! One step of a worker.
ghost use Rattle.ps_normal.specs.Fillings.{IsRecordFor};
ghost use Rattle.ps_calls.specs.Calls.{Grows};
ghost use Rattle.ps_worker.specs.Steps.{IsGiven, Begins, Does, Tells};

use crate::answers::Work1;
use crate::filling::filled;
use ps_calls::Turns;
use ps_io::{Gate, NeverStop, Stop};
use ps_journal::{Cmd, Reply};
use ps_reach::{Record, Task};
use std::alloc::{AllocError, Global};
use std::sync::Arc;

/// Asks for a segment of any version that is kept, fills it, and publishes its record. Where the hint asks to stop, it
/// asks whether its claim stands, and then fills the segment to its end. It passes `Filling` at the gate.
///
/// At most three entries, each a `Next` or a `Publish`. The answer is that of the last of them, but for `Full`, which
/// comes exactly where a ticket is refused, and `Memory`, which may come at any time.
pub fn work_step<T: Turns, S: Stop, G: Gate>(
    alloc: Global,
    turns: &mut T,
    hint: &mut S,
    gate: &G,
) -> Work1
    ensures grows { Grows (T.view turns.old) (T.view turns.new) }
    ensures begins { Begins result (T.view turns.old) (T.view turns.new) }
    ensures does { Does 3 result (T.view turns.old) (T.view turns.new) }
{
    // The laws of a turn ask for a number below 64.
    let seat = turns.number();
    let reply = match turns.turn(Cmd::Next { pinned: false }) {
        Ok(reply) => reply,
        Err(_full) => return Work1::Full,
    };
    match reply {
        Reply::Task(task) => work_on(alloc, turns, task.get(), hint, gate),
        other => answer_of(&other),
    }
}

// Fills the task that the seat was given, and publishes its record, or asks whether its claim stands.
fn work_on<T: Turns, S: Stop, G: Gate>(
    alloc: Global,
    turns: &mut T,
    task: &Task,
    hint: &mut S,
    gate: &G,
) -> Work1
    requires { IsGiven task.now (T.view turns.old) }
    ensures grows { Grows (T.view turns.old) (T.view turns.new) }
    ensures does { Does 2 result (T.view turns.old) (T.view turns.new) }
{
    let seat = turns.number();
    match filled(alloc, seat, task, hint, gate) {
        Ok(Some(kept)) => publish(turns, task, kept),
        Ok(None) => confirm(alloc, turns, task, gate),
        Err(AllocError) => Work1::Memory,
    }
}

// Asks whether the claim stands, and fills its segment to the end if so.
fn confirm<T: Turns, G: Gate>(alloc: Global, turns: &mut T, task: &Task, gate: &G) -> Work1
    requires { IsGiven task.now (T.view turns.old) }
    ensures grows { Grows (T.view turns.old) (T.view turns.new) }
    ensures does { Does 2 result (T.view turns.old) (T.view turns.new) }
{
    let reply = match turns.turn(Cmd::Publish { kept: None }) {
        Ok(reply) => reply,
        Err(_full) => return Work1::Full,
    };
    let Reply::Stands = reply else {
        return answer_of(&reply);
    };
    finish(alloc, turns, task, gate)
}

// Fills the task to its end, and publishes its record.
fn finish<T: Turns, G: Gate>(alloc: Global, turns: &mut T, task: &Task, gate: &G) -> Work1
    requires { IsGiven task.now (T.view turns.old) }
    ensures grows { Grows (T.view turns.old) (T.view turns.new) }
    ensures does { Does 1 result (T.view turns.old) (T.view turns.new) }
{
    let seat = turns.number();
    let mut never = NeverStop;
    match filled(alloc, seat, task, &mut never, gate) {
        Ok(Some(kept)) => publish(turns, task, kept),
        Ok(None) => Work1::Memory,
        Err(AllocError) => Work1::Memory,
    }
}

// Publishes the record of the task.
fn publish<T: Turns>(turns: &mut T, task: &Task, kept: Arc<Record>) -> Work1
    requires given { IsGiven task.now (T.view turns.old) }
    requires filled { IsRecordFor task.now.n task.now.work kept.value }
    ensures grows { Grows (T.view turns.old) (T.view turns.new) }
    ensures does { Does 1 result (T.view turns.old) (T.view turns.new) }
{
    match turns.turn(Cmd::Publish { kept: Some(kept) }) {
        Ok(reply) => answer_of(&reply),
        Err(_full) => Work1::Full,
    }
}

// The answer that a reply is.
fn answer_of(reply: &Reply) -> Work1
    ensures { Tells result reply.now }
{
    match reply {
        Reply::Published => Work1::Worked,
        Reply::Already(entry) => Work1::Already(*entry),
        Reply::Dropped(entry) => Work1::Dropped(*entry),
        Reply::NoRoom(total) => Work1::NoRoom(*total),
        Reply::Idle => Work1::Idle,
        _ => Work1::Memory,
    }
}
