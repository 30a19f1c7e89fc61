//! The run of a script, with its sessions beside each other.
ghost use Rattle.std.specs.Prelude.{◌≡◌, ◌≤◌, IfOk, IfErr};
ghost use Rattle.ps_threads.specs.Runs.{IsRunOf};

use crate::beside::beside;
use crate::dealing::{SESSIONS, deal};
use crate::held::Held;
use crate::seats::{seat_all, seat_more, take_back};
use crate::tidings::Tidings;
use ps_book::Book;
use ps_desk::Desk;
use ps_io::Gate;
use ps_script::Script;
use ps_sessions::{Ending, Journal};
use std::alloc::{AllocError, Global};
use std::sync::Wait;
use std::thread::Threads;

/// How many seats a desk has: one for each session, for the calling thread, and for up to 16 workers.
const SEATS: u32 = 33;

/// The run of a script: all turns that were taken, and how it ended.
#[derive(Drop)]
pub struct Run {
    pub journal: Journal,
    /// `Full` where a command of some session is not answered, with a ticket that was refused.
    pub ending: Ending,
}

/// Does the commands of the script, those of each session on a thread of its own, all at one desk. The seat of session s
/// has the number s + 1. A session whose thread can't be started is run by the calling thread.
///
/// `AllocError` is want of memory before the first turn.
pub fn run_sessions<G: Gate + Sync, R: Threads + Wait + Sync>(
    rt: &R,
    alloc: Global,
    script: Script,
    gate: &G,
) -> Result<Run, AllocError>
    ensures { IfOk result (λ r. IsRunOf script.lines 0 r) }
{
    run_beside(rt, alloc, script, 0, gate)
}

/// The same, beside up to 16 workers, whose seats have the numbers from 17 on. They fill segments that nobody has asked
/// for yet, until the sessions have ended. A worker whose thread can't be started does nothing.
pub fn run_beside<G: Gate + Sync, R: Threads + Wait + Sync>(
    rt: &R,
    alloc: Global,
    script: Script,
    workers: u32,
    gate: &G,
) -> Result<Run, AllocError>
    requires few { workers ≤ 16 }
    ensures { IfOk result (λ r. IsRunOf script.lines workers r) }
{
    let dealt = deal(alloc, script.lines.into_vec())?;
    let jobs = Vec::with_capacity(alloc, SESSIONS as usize)?;
    let idle = Vec::with_capacity(alloc, workers as usize)?;
    let done = Vec::with_capacity(alloc, (SESSIONS + workers) as usize)?;
    let book = Box::new(alloc, Book::new(alloc)?)?;
    let Ok((desk, mut first)) = Desk::new(alloc, Held { book }, SEATS) else {
        return Err(AllocError);
    };
    let jobs = seat_all(&desk, &mut first, dealt, jobs);
    let idle = seat_more(&desk, &mut first, workers, idle);
    let tidings = Tidings::new();
    let done = beside(rt, alloc, &desk, &tidings, gate, idle, jobs, done);
    let ending = take_back(&desk, &mut first, done);
    let Ok(held) = desk.close(first) else {
        unreachable!()
    };
    Ok(Run {
        journal: Journal::from_vec(Box::into_inner(held.book).into_journal()),
        ending,
    })
}
