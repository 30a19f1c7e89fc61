//! Workers beside the sessions, each on a thread of its own.
ghost use Rattle.std.specs.Prelude.{◌≡◌, ℕ, ◌+◌, ◌<◌, ◌≤◌, List, [], vec_len, vec_capacity};
ghost use Rattle.std.specs.Thread.{IsSync};
ghost use Rattle.ps_desk.specs.Seats.{IsSeatOf};
ghost use Rattle.ps_threads.specs.Seated.{IsFresh};
ghost use Rattle.ps_threads.specs.Served.{JobsAt, AreServed};
ghost use Rattle.ps_threads.specs.Worked.{IsWorkedBy, SeatsAt, AreWorked};

use crate::crew::sessions;
use crate::held::Held;
use crate::parts::{Finished, Job};
use crate::seated::Session;
use crate::tidings::Tidings;
use ps_desk::{Desk, Seat};
use ps_io::Gate;
use ps_sessions::Ending;
use ps_worker::{Listener, work};
use std::alloc::Global;
use std::sync::Wait;
use std::thread::{Threads, join};

/// A worker at its seat, until it leaves.
pub fn work_at<G: Gate, R: Wait>(
    rt: &R,
    alloc: Global,
    desk: &Desk<Held>,
    tidings: &Tidings,
    gate: &G,
    seat: Seat<Held>,
) -> Finished
    requires { IsSeatOf desk.now seat × IsFresh seat }
    ensures { IsWorkedBy seat result.seat × (result.ending ≡ Ending.Done) }
{
    let mut session = Session::new(rt, desk, seat);
    let mut listener = Listener::new(rt, &tidings.bell);
    work(alloc, &mut session, &tidings.flags, &mut listener, gate);
    Finished {
        seat: session.finish(),
        ending: Ending::Done,
    }
}

/// Has a worker at each idle seat, on a thread of its own, and runs the jobs beside them (`sessions`). Where these have
/// ended it closes the bell and sets all flags, and the workers leave. One whose thread can't be started is called behind
/// the others, and finds the bell closed.
#[cycle(workers)]
pub fn beside<G: Gate + Sync, R: Threads + Wait + Sync>(
    rt: &R,
    alloc: Global,
    desk: &Desk<Held>,
    tidings: &Tidings,
    gate: &G,
    idle: Vec<Seat<Held>>,
    jobs: Vec<Job>,
    done: Vec<Finished>,
) -> Vec<Finished>
    requires idle { SeatsAt desk.now idle.items }
    requires jobs { JobsAt desk.now jobs.items }
    requires none { vec_len done ≡ 0 }
    requires room { vec_len jobs + vec_len idle ≤ vec_capacity done }
    ensures room { vec_capacity result ≡ vec_capacity done }
    ensures len { vec_len result ≡ vec_len jobs + vec_len idle }
    ensures sessions { AreServed jobs.items result.items }
    ensures workers { AreWorked (vec_len jobs) idle.items result.items }
{
    let mut idle = idle;
    let Some(seat) = idle.pop() else {
        let done = sessions(rt, alloc, desk, tidings, gate, jobs, done);
        tidings.dismiss(rt);
        return done;
    };
    let (finished, mut done) = join(
        rt,
        || -> Finished
            requires { IsSeatOf desk.now seat × IsFresh seat }
            ensures { IsWorkedBy seat result.seat × (result.ending ≡ Ending.Done) }
        { work_at(rt, alloc, desk, tidings, gate, seat) },
        || -> Vec<Finished>
            requires { IsSync R.row × IsSync G.row × SeatsAt desk.now idle.items × JobsAt desk.now jobs.items × (vec_len done ≡ 0) × (vec_len jobs + vec_len idle ≤ vec_capacity done) }
            ensures { (vec_capacity result ≡ vec_capacity done) × (vec_len result ≡ vec_len jobs + vec_len idle) × AreServed jobs.items result.items × AreWorked (vec_len jobs) idle.items result.items }
        { beside(rt, alloc, desk, tidings, gate, idle, jobs, done) },
    );
    done.push_reserved(finished);
    done
}
