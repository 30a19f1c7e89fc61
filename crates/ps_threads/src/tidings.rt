//! What threads tell one another beside the desk.
use ps_io::{Bell, Flags};
use ps_journal::Reply;
use std::sync::Wait;

/// How many flags there are.
const SEATS: u32 = 64;

/// A flag for each seat, which is set where what it computes is no longer asked for, and a bell that is rung where
/// there is more to compute. Both are hints.
#[derive(Drop)]
pub struct Tidings {
    pub flags: Flags,
    pub bell: Bell,
}

impl Tidings {
    /// No flag is set, and the bell was never rung.
    pub fn new() -> Tidings {
        Tidings {
            flags: Flags::new(),
            bell: Bell::new(),
        }
    }

    /// Rings after a new version, and sets the flags of the seats that compute for a retired one.
    pub fn tell<R: Wait>(&self, rt: &R, reply: &Reply) {
        match reply {
            Reply::Opened { .. } | Reply::Committed { .. } => self.bell.ring(rt),
            Reply::Retired { claims } => self.call_off(*claims),
            _ => {}
        }
    }

    /// Closes the bell, and sets all flags.
    pub fn dismiss<R: Wait>(&self, rt: &R) {
        self.bell.close(rt);
        for seat in 0..SEATS {
            self.flags.set(seat);
        }
    }

    // Sets the flags of the seats whose bits are set.
    fn call_off(&self, claims: u64) {
        for seat in 0..SEATS {
            if claims >> seat & 1 == 1 {
                self.flags.set(seat);
            }
        }
    }
}
