//! The threads, one for each session that has commands.
ghost use Rattle.std.specs.Prelude.{◌≡◌, ℕ, ◌+◌, ◌<◌, ◌≤◌, List, [], vec_len, vec_capacity};
ghost use Rattle.std.specs.Thread.{IsSync};
ghost use Rattle.ps_desk.specs.Seats.{IsSeatOf};
ghost use Rattle.ps_threads.specs.Seated.{IsFresh};
ghost use Rattle.ps_threads.specs.Served.{IsServedBy, JobsAt, AreServed};

use crate::held::Held;
use crate::parts::{Finished, Job};
use crate::serving::serve;
use crate::tidings::Tidings;
use ps_desk::Desk;
use ps_io::Gate;
use std::alloc::Global;
use std::sync::Wait;
use std::thread::{Threads, join};

/// Runs each job on a thread of its own. One whose thread can't be started is run by the calling thread, and one
/// without commands needs none.
#[cycle(sessions)]
pub fn sessions<G: Gate + Sync, R: Threads + Wait + Sync>(
    rt: &R,
    alloc: Global,
    desk: &Desk<Held>,
    tidings: &Tidings,
    gate: &G,
    jobs: Vec<Job>,
    done: Vec<Finished>,
) -> Vec<Finished>
    requires jobs { JobsAt desk.now jobs.items }
    requires none { vec_len done ≡ 0 }
    requires room { vec_len jobs ≤ vec_capacity done }
    ensures room { vec_capacity result ≡ vec_capacity done }
    ensures len { vec_len result ≡ vec_len jobs }
    ensures each { AreServed jobs.items result.items }
{
    let mut jobs = jobs;
    let Some(job) = jobs.pop() else {
        return done;
    };
    if job.commands.is_empty() {
        let mut done = sessions(rt, alloc, desk, tidings, gate, jobs, done);
        done.push_reserved(serve(rt, alloc, desk, tidings, gate, job));
        return done;
    }
    let (finished, mut done) = join(
        rt,
        || -> Finished
            requires { IsSeatOf desk.now job.seat × IsFresh job.seat }
            ensures { IsServedBy job.commands.items job.seat result.seat result.ending }
        { serve(rt, alloc, desk, tidings, gate, job) },
        || -> Vec<Finished>
            requires { IsSync R.row × IsSync G.row × JobsAt desk.now jobs.items × (vec_len done ≡ 0) × (vec_len jobs ≤ vec_capacity done) }
            ensures { (vec_capacity result ≡ vec_capacity done) × (vec_len result ≡ vec_len jobs) × AreServed jobs.items result.items }
        { sessions(rt, alloc, desk, tidings, gate, jobs, done) },
    );
    done.push_reserved(finished);
    done
}
