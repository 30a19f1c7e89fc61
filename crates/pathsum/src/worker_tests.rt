//! A script beside workers, of which one is held inside its computation.

use super::run;
use ps_desk::Entry;
use ps_io::{Gate, MemorySink, MemorySource, NeverStop, OpenGate, Point, Stop};
use ps_journal::{Cmd, Reply};
use std::alloc::{AllocError, Global};
use std::sync::Wait;
use std::sync::atomic::{AtomicU64, Ordering};
use std::test::Fail;
use std::thread::Threads;

// Holds session 0 behind its first reply until a worker computes, and that worker until the session has three replies.
#[derive(Drop)]
struct Holding {
    answered: AtomicU64,
    filling: AtomicU64,
    late: AtomicU64,
}

impl Holding {
    fn new() -> Holding {
        Holding {
            answered: AtomicU64::new(0),
            filling: AtomicU64::new(0),
            late: AtomicU64::new(0),
        }
    }

    // Waits until the count is so high; notes where it does not come to that.
    fn await_count(&self, counter: &AtomicU64, wanted: u64) {
        for _ in 0..1_000_000_000 {
            if counter.load(Ordering::SeqCst) >= wanted {
                return;
            }
        }
        self.late.fetch_add(1, Ordering::SeqCst);
    }
}

impl Gate for Holding {
    fn pass(&self, seat: u32, point: Point) {
        if point == Point::Answered && self.answered.fetch_add(1, Ordering::SeqCst) == 0 {
            self.await_count(&self.filling, 1);
        }
        if seat == 17
            && point == Point::Filling
            && self.filling.fetch_add(1, Ordering::SeqCst) == 0
        {
            self.await_count(&self.answered, 3);
        }
    }
}

// Whether the worker hands in nothing, as its version was dropped.
fn hands_in_nothing(entry: &Entry<Cmd, Reply>) -> bool {
    entry.seat == 17
        && matches!(entry.cmd, Cmd::Publish { kept: None })
        && matches!(entry.reply, Reply::Dropped(_))
}

#[test]
fn drops_what_is_retired_meanwhile(rt: HostRuntime) -> Result<(), Fail> {
    let alloc = rt.alloc();
    let words = vec![in alloc;
        String::from_str(alloc, "run")?,
        String::from_str(alloc, "1")?,
    ]?;
    let script =
        b"0 open a\nOPENQASM 2.0;\ninclude \"qelib1.inc\";\nqreg q[1];\nh q[0];\nh q[0];\n.\n0 splice a 1 2 2\nx q[0];\n.\n0 retire a 1\n";
    let mut source = MemorySource::new(script.to_vec(alloc)?, 11, Vec::new(alloc));
    let mut sink = MemorySink::new(vec![in alloc; 0; 512]?, Vec::new(alloc));
    let gate = Holding::new();
    let ended = run(&rt, alloc, &words, &mut source, &mut sink, &gate);
    assert_eq!(rt; ended.status, 0);
    assert_eq!(rt; gate.late.load(Ordering::SeqCst), 0);
    assert!(rt;
        sink.held() == b"0 opened 1 missing 1\n0 committed 2 missing 1\n0 retired\n".as_slice()
    );
    let mut dropped = 0u32;
    let mut worked = 0u32;
    for entry in ended.journal.as_slice() {
        if entry.seat == 17 {
            worked = worked.saturating_add(1);
        }
        if hands_in_nothing(entry) {
            dropped = dropped.saturating_add(1);
        }
    }
    assert_eq!(rt; dropped, 1);
    assert!(rt; worked <= 12);
    Ok(())
}

// A script that a hundred times puts an item into a circuit, and retires the version before.
fn storm(alloc: Global) -> Result<Vec<u8>, AllocError> {
    let mut script = b"0 open a\nOPENQASM 2.0;\ninclude \"qelib1.inc\";\nqreg q[1];\n.\n".to_vec(
        alloc,
    )?;
    for version in 1..101 {
        let lines = format!(in alloc;
            "0 splice a {version} 0 0\nh q[0];\n.\n0 retire a {version}\n"
        )?;
        script.extend_from_slice(lines.as_bytes())?;
    }
    script.extend_from_slice(b"0 ask a 101 a 101\n")?;
    Ok(script)
}

#[test]
fn keeps_to_the_script_while_versions_come_and_go(rt: HostRuntime) -> Result<(), Fail> {
    let alloc = rt.alloc();
    let words = vec![in alloc;
        String::from_str(alloc, "run")?,
        String::from_str(alloc, "2")?,
    ]?;
    let mut source = MemorySource::new(storm(alloc)?, 4096, Vec::new(alloc));
    let mut sink = MemorySink::new(vec![in alloc; 0; 16384]?, Vec::new(alloc));
    let ended = run(&rt, alloc, &words, &mut source, &mut sink, &OpenGate);
    assert_eq!(rt; ended.status, 0);
    assert!(rt; sink.held().ends_with(b"0 retired\n0 yes\n".as_slice()));
    let mut replies = 0u32;
    for entry in ended.journal.as_slice() {
        if entry.seat == 1
            && matches!(entry.reply, Reply::Committed { .. } | Reply::Retired { .. })
        {
            replies = replies.saturating_add(1);
        }
    }
    assert_eq!(rt; replies, 200);
    Ok(())
}
