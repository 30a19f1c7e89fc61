//! A gate that holds two sessions at one another's points.
ghost use Rattle.std.specs.Prelude.{◌≡◌};

use ps_io::{Gate, Point};
use std::sync::atomic::{AtomicBool, AtomicU64, Ordering};

// How often a gate that holds somebody looks before it gives up.
const LOOKS: u64 = 1_000_000_000;

/// What is done at a point, counted from 1.
#[derive(Clone, Copy)]
pub struct Passage {
    pub seat: u32,
    pub point: Point,
    pub times: u64,
}

/// Who passes the one waits there until the other came about.
#[derive(Clone, Copy)]
pub struct Hold {
    pub at: Passage,
    pub until: Passage,
}

// How often one seat passed each point.
#[derive(Drop)]
struct Passed {
    starting: AtomicU64,
    pinned: AtomicU64,
    filling: AtomicU64,
    answered: AtomicU64,
}

impl Passed {
    fn new() -> Passed {
        Passed {
            starting: AtomicU64::new(0),
            pinned: AtomicU64::new(0),
            filling: AtomicU64::new(0),
            answered: AtomicU64::new(0),
        }
    }

    fn at(&self, point: Point) -> &AtomicU64 {
        match point {
            Point::Starting => &self.starting,
            Point::Pinned => &self.pinned,
            Point::Filling => &self.filling,
            Point::Answered => &self.answered,
        }
    }
}

/// A gate that holds the seats 1 and 2, those of the sessions 0 and 1, as it is told.
#[derive(Drop)]
pub struct Schedule {
    holds: [Hold; 2],
    first: Passed,
    second: Passed,
    gave_up: AtomicBool,
}

impl Schedule {
    /// Nobody has passed.
    pub fn new(holds: [Hold; 2]) -> Schedule {
        Schedule {
            holds,
            first: Passed::new(),
            second: Passed::new(),
            gave_up: AtomicBool::new(false),
        }
    }

    /// Whether somebody was held in vain.
    pub fn gave_up(&self) -> bool {
        self.gave_up.load(Ordering::SeqCst)
    }

    // How often the seat passed the point.
    fn passed(&self, seat: u32, point: Point) -> &AtomicU64 {
        match seat {
            1 => self.first.at(point),
            _ => self.second.at(point),
        }
    }

    // Looks until it came about, and says whether it did.
    fn came(&self, until: Passage) -> bool {
        let passed = self.passed(until.seat, until.point);
        for _ in 0..LOOKS {
            if passed.load(Ordering::SeqCst) >= until.times {
                return true;
            }
        }
        false
    }
}

impl Gate for Schedule {
    fn pass(&self, seat: u32, point: Point) {
        let before = self.passed(seat, point).fetch_add(1, Ordering::SeqCst);
        let times = before.saturating_add(1);
        for hold in &self.holds {
            let at = hold.at;
            if at.seat == seat && at.point == point && at.times == times && !self.came(hold.until) {
                self.gave_up.store(true, Ordering::SeqCst);
            }
        }
    }
}
