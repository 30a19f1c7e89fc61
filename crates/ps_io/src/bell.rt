//! A bell that threads wait for.
use std::sync::{Condvar, Mutex, Wait};

// What the bell's lock holds.
#[derive(Drop)]
struct Rung {
    count: u64,
    closed: bool,
}

/// A counter of rings, which threads share by reference and wait for. Nothing is promised about what a call finds
/// behind the lock, nor that it returns.
#[derive(Drop)]
pub struct Bell {
    rung: Mutex<Rung>,
    changed: Condvar,
}

impl Bell {
    /// A bell that was never rung, and is open.
    pub fn new() -> Bell {
        Bell {
            rung: Mutex::new(Rung {
                count: 0,
                closed: false,
            }),
            changed: Condvar::new(),
        }
    }

    /// How often it was rung. The count stands still at 2^64 - 1.
    pub fn seen<R: Wait>(&self, rt: &R) -> u64 {
        self.rung.lock(rt).count
    }

    /// Rings, and wakes all who wait.
    pub fn ring<R: Wait>(&self, rt: &R) {
        let mut rung = self.rung.lock(rt);
        rung.count = rung.count.saturating_add(1);
        self.changed.notify_all();
    }

    /// Waits until the bell is closed, which is true, or was rung more than `count` times, which is false.
    pub fn wait_past<R: Wait>(&self, rt: &R, count: u64) -> bool {
        let rung = self.changed.wait_while(
            rt,
            self.rung.lock(rt),
            |rung| rung.count <= count && !rung.closed,
        );
        rung.closed
    }

    /// Closes the bell for good, and wakes all who wait.
    pub fn close<R: Wait>(&self, rt: &R) {
        let mut rung = self.rung.lock(rt);
        rung.closed = true;
        self.changed.notify_all();
    }

    /// Whether it is closed.
    pub fn closed<R: Wait>(&self, rt: &R) -> bool {
        self.rung.lock(rt).closed
    }
}
