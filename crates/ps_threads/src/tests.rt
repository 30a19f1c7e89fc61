//! Sessions beside each other: as they come, and held so that one comes before the other.

mod schedule;

use crate::{Run, run_sessions};
use ps_io::{OpenGate, Point};
use ps_journal::{Entry, Reply};
use ps_reach::Verdict;
use ps_script::read;
use ps_sessions::Ending;
use schedule::{Hold, Passage, Schedule};
use std::test::Fail;

// Session 0 opens a circuit and makes its second version; session 1 does so too.
const SPLICES: &[u8] =
    b"0 open g\nOPENQASM 2.0;\nqreg q[1];\n.\n0 splice g 1 0 0\nU(0,0,pi) q[0];\n.\n1 splice g 1 0 0\nU(pi,0,pi) q[0];\n.\n";

// Session 0 asks whether two versions are one map, which they are; session 1 makes a later one, which is not, and gives up the
// one that is asked about.
const QUESTION: &[u8] =
    b"0 open a\nOPENQASM 2.0;\nqreg q[1];\nU(pi/2,0,pi) q[0];\nU(pi/2,0,pi) q[0];\n.\n0 open b\nOPENQASM 2.0;\nqreg q[1];\n.\n0 ask a 1 b 1\n1 splice a 1 2 2\nU(pi,0,pi) q[0];\n.\n1 retire a 1\n";

fn passage(seat: u32, point: Point, times: u64) -> Passage {
    Passage { seat, point, times }
}

#[test]
fn runs_sessions_on_threads(rt: HostRuntime) -> Result<(), Fail> {
    let alloc = rt.alloc();
    let bytes =
        b"0 open g\nOPENQASM 2.0;\nqreg q[1];\n.\n0 splice g 1 0 0\nU(0,0,0) q[0];\n.\n0 retire g 1\n15 show h 1\n";
    let Ok(script) = read(alloc, bytes.as_slice()) else {
        panic!(rt; "a script")
    };
    let run = run_sessions(&rt, alloc, script, &OpenGate)?;
    assert_eq!(rt; run.ending, Ending::Done);
    assert_eq!(rt; run.journal.as_slice().len(), 4);
    Ok(())
}

// Whether the entry commits version 2 for the seat.
fn commits(entry: &Entry, seat: u32) -> bool {
    entry.seat == seat && matches!(entry.reply, Reply::Committed { version: 2, .. })
}

// Whether the entry tells the seat that version 2 came before.
fn is_stale(entry: &Entry, seat: u32) -> bool {
    entry.seat == seat && matches!(entry.reply, Reply::Stale(2))
}

// Whether the second entry commits for one seat, and the third and last is stale for the other.
fn commits_before(run: &Run, first: u32, second: u32) -> bool {
    match run.journal.as_slice() {
        [_, committed, stale] => commits(committed, first) && is_stale(stale, second),
        _ => false,
    }
}

// Session 1 starts once session 0 has its second answer.
#[test]
fn the_first_session_splices_first(rt: HostRuntime) -> Result<(), Fail> {
    let late = Hold {
        at: passage(2, Point::Starting, 1),
        until: passage(1, Point::Answered, 2),
    };
    let gate = Schedule::new([late, late]);
    let Ok(script) = read(rt.alloc(), SPLICES) else {
        panic!(rt; "a script")
    };
    let run = run_sessions(&rt, rt.alloc(), script, &gate)?;
    assert!(rt; !gate.gave_up());
    assert!(rt; commits_before(&run, 1, 2));
    Ok(())
}

// Session 1 starts once the circuit is open, and session 0 splices once session 1 has its answer.
#[test]
fn the_second_session_splices_first(rt: HostRuntime) -> Result<(), Fail> {
    let opened = Hold {
        at: passage(2, Point::Starting, 1),
        until: passage(1, Point::Answered, 1),
    };
    let late = Hold {
        at: passage(1, Point::Starting, 2),
        until: passage(2, Point::Answered, 1),
    };
    let gate = Schedule::new([opened, late]);
    let Ok(script) = read(rt.alloc(), SPLICES) else {
        panic!(rt; "a script")
    };
    let run = run_sessions(&rt, rt.alloc(), script, &gate)?;
    assert!(rt; !gate.gave_up());
    assert!(rt; commits_before(&run, 2, 1));
    Ok(())
}

// Both splice once both are about to.
#[test]
fn one_of_two_splices_is_committed(rt: HostRuntime) -> Result<(), Fail> {
    let opened = Hold {
        at: passage(2, Point::Starting, 1),
        until: passage(1, Point::Starting, 2),
    };
    let both = Hold {
        at: passage(1, Point::Starting, 2),
        until: passage(2, Point::Starting, 1),
    };
    let gate = Schedule::new([opened, both]);
    let Ok(script) = read(rt.alloc(), SPLICES) else {
        panic!(rt; "a script")
    };
    let run = run_sessions(&rt, rt.alloc(), script, &gate)?;
    assert!(rt; !gate.gave_up());
    assert!(rt; commits_before(&run, 1, 2) || commits_before(&run, 2, 1));
    Ok(())
}

// Whether a seat's answer is a yes.
fn is_yes(entry: &Entry, seat: u32) -> bool {
    match &entry.reply {
        Reply::Answered { judged, .. } => entry.seat == seat
            && matches!(judged.get().verdict, Verdict::Yes),
        _ => false,
    }
}

// Whether the versions are pinned by seat 1, then seat 2 commits a version and gives the first one up, and only then something is
// computed, and the last entry answers seat 1 with a yes.
fn answers_for_pinned(run: &Run) -> bool {
    match run.journal.as_slice() {
        [_, _, pinned, committed, retired, .., answered] => {
            pinned.seat == 1
                && matches!(pinned.reply, Reply::Pinned)
                && commits(committed, 2)
                && retired.seat == 2
                && matches!(retired.reply, Reply::Retired { .. })
                && is_yes(answered, 1)
        }
        _ => false,
    }
}

// Session 1 starts once session 0 has pinned, and session 0 goes on once session 1 has both answers.
#[test]
fn an_answer_is_that_of_the_pinned_versions(rt: HostRuntime) -> Result<(), Fail> {
    let pinned = Hold {
        at: passage(2, Point::Starting, 1),
        until: passage(1, Point::Pinned, 1),
    };
    let answered = Hold {
        at: passage(1, Point::Pinned, 1),
        until: passage(2, Point::Answered, 2),
    };
    let gate = Schedule::new([pinned, answered]);
    let Ok(script) = read(rt.alloc(), QUESTION) else {
        panic!(rt; "a script")
    };
    let run = run_sessions(&rt, rt.alloc(), script, &gate)?;
    assert!(rt; !gate.gave_up());
    assert_eq!(rt; run.ending, Ending::Done);
    assert!(rt; answers_for_pinned(&run));
    Ok(())
}
