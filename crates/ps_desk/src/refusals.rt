//! What a seat is refused.

/// A turn was refused because its ticket is 262,144 or more. The seat gets no other ticket.
#[derive(Clone, Copy, Debug, PartialEq, Eq, Drop)]
pub struct Full {
    pub ticket: u64,
}

/// The seat has no spare number.
#[derive(Clone, Copy, Debug, PartialEq, Eq, Drop)]
pub struct NoSeat;
