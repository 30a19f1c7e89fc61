//! Seats for all sessions, and all seats back.
ghost use Rattle.std.specs.Prelude.{◌≡◌, ℕ, ◌+◌, ◌<◌, ◌≤◌, List, [], length, vec_len, vec_capacity};
ghost use Rattle.ps_script.specs.declared.script.Line.{Line};
ghost use Rattle.ps_desk.specs.Seats.{IsSeatOf, desk_of, view_of};
ghost use Rattle.ps_threads.specs.Served.{AreDealt, AreJobs, AreBack, first_full};
ghost use Rattle.ps_threads.specs.Worked.{AreIdle};
ghost use Rattle.ps_threads.specs.Lent.{AllServe, Lends, Came};

use crate::held::Held;
use crate::parts::{Finished, Job};
use ps_desk::{Desk, Seat};
use ps_script::Command;
use ps_sessions::Ending;

/// Splits off a seat for each session, with the numbers from 1 on.
pub fn seat_all(
    desk: &Desk<Held>,
    first: &mut Seat<Held>,
    dealt: Vec<Vec<Command>>,
    jobs: Vec<Job>,
) -> Vec<Job>
    requires desk { IsSeatOf desk.now first.old }
    requires new { Lends (view_of first.old) 1 }
    requires spare { ((view_of first.old).next ≡ 1) × (vec_len dealt < (view_of first.old).end) }
    requires none { jobs.items ≡ [] }
    requires room { vec_len dealt ≤ vec_capacity jobs }
    ensures desk { desk_of first.new ≡ desk_of first.old }
    ensures ended { (view_of first.new).ended ≡ (view_of first.old).ended }
    ensures lends { Lends (view_of first.new) (vec_len dealt + 1) }
    ensures next { (view_of first.new).next ≡ vec_len dealt + 1 }
    ensures end { (view_of first.new).end ≡ (view_of first.old).end }
    ensures len { vec_len result ≡ vec_len dealt }
    ensures jobs { (lines : List Line) → AreDealt lines dealt.items → AreJobs lines (desk_of first.old) result.items }
{
    let mut jobs = jobs;
    for commands in dealt {
        let Ok(seat) = desk.split(first) else {
            unreachable!()
        };
        jobs.push_reserved(Job { seat, commands });
    }
    jobs
}

/// Splits off so many seats, with the numbers that come next.
pub fn seat_more(
    desk: &Desk<Held>,
    first: &mut Seat<Held>,
    count: u32,
    seats: Vec<Seat<Held>>,
) -> Vec<Seat<Held>>
    requires desk { IsSeatOf desk.now first.old }
    requires lends { Lends (view_of first.old) (view_of first.old).next }
    requires spare { (view_of first.old).next + count ≤ (view_of first.old).end }
    requires none { seats.items ≡ [] }
    requires room { count ≤ vec_capacity seats }
    ensures desk { desk_of first.new ≡ desk_of first.old }
    ensures ended { (view_of first.new).ended ≡ (view_of first.old).ended }
    ensures lends { Lends (view_of first.new) ((view_of first.old).next + count) }
    ensures len { vec_len result ≡ count }
    ensures seats { AreIdle (desk_of first.old) (view_of first.old).next result.items }
{
    let mut seats = seats;
    for _ in 0..count {
        let Ok(seat) = desk.split(first) else {
            unreachable!()
        };
        seats.push_reserved(seat);
    }
    seats
}

/// The first of two endings that is no `Done`.
fn earlier(one: Ending, other: Ending) -> Ending
    ensures { result ≡ first_full one other }
{
    match one {
        Ending::Done => other,
        Ending::Full { .. } => one,
    }
}

/// Takes all seats back, and tells how the sessions ended: `Full` where one of them did.
pub fn take_back(desk: &Desk<Held>, first: &mut Seat<Held>, done: Vec<Finished>) -> Ending
    requires desk { IsSeatOf desk.now first.old }
    requires lends { Lends (view_of first.old) (vec_len done + 1) × ((view_of first.old).ended ≡ []) }
    requires done { AreBack (desk_of first.old) done.items }
    ensures desk { desk_of first.new ≡ desk_of first.old }
    ensures lends { Lends (view_of first.new) 1 }
    ensures len { length (view_of first.new).ended ≡ vec_len done }
    ensures came { (lines : List Line) → AllServe lines done.items → Came lines (vec_len done) result (view_of first.new).ended }
{
    let mut done = done;
    let mut ending = Ending::Done;
    while let Some(finished) = done.pop() {
        desk.join(first, finished.seat);
        ending = earlier(ending, finished.ending);
    }
    ending
}
