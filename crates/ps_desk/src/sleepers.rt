//! Where seats sleep until their turn comes near.

use std::array::from_fn;
use std::sync::Wait;
use std::thread::Parker;

// How many seats a desk has at most. So many tickets in a row are held at most, each by another seat.
const PLACES: u64 = 64;

/// A place to sleep at for each of 64 tickets in a row.
#[derive(Drop)]
pub struct Sleepers {
    places: [Parker; 64],
}

impl Sleepers {
    /// Nobody sleeps, and nobody was woken.
    pub fn new() -> Sleepers {
        Sleepers {
            places: from_fn(|_| Parker::new()),
        }
    }

    /// Sleeps until the ticket is woken, or not at all where it was woken before. It may also return for no reason.
    pub fn park<R: Wait>(&self, rt: &R, ticket: u64) {
        self.places[(ticket % PLACES) as usize].park(rt);
    }

    /// Wakes the seat with the ticket, now or when it lies down.
    pub fn wake(&self, ticket: u64) {
        self.places[(ticket % PLACES) as usize].unpark();
    }
}
