//! Which segments the seats are computing.
ghost use Rattle.std.specs.Prelude.{◌≡◌, length, replicate, None};
ghost use Rattle.ps_journal.specs.Retiring.{claims_on};
ghost use Rattle.ps_book.specs.Seats.{is_on};

use ps_journal::Claim;
use ps_script::Place;

/// The claim of each of 64 seats, where it has one.
#[derive(Clone, Copy)]
pub struct Claims {
    pub(crate) seats: [Option<Claim>; 64],
}

impl Claims {
    /// No seat has a claim.
    pub(crate) fn new() -> Claims
        ensures { result.seats ≡ replicate 64 None }
    {
        Claims { seats: [None; 64] }
    }

    /// The seats with a claim on a version: bit s is seat s.
    pub(crate) fn on(&self, place: &Place) -> u64
        requires { length self.now.seats ≡ 64 }
        ensures { result ≡ claims_on place.now self.now.seats }
    {
        let mut bits = 0;
        for i in 0..64 {
            let bit = u64::from(is_on(&self.seats[63 - i], place));
            bits = bits * 2 + bit;
        }
        bits
    }
}

/// Whether a claim is on a version.
fn is_on(claim: &Option<Claim>, place: &Place) -> bool
    ensures { result ≡ is_on place.now claim.now }
{
    match claim {
        None => false,
        Some(claim) => claim.place == *place,
    }
}
