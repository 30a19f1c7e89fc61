//! The answers of a worker's steps, and why a worker leaves.
ghost use Rattle.std.specs.Prelude.{◌≡◌};
ghost use Rattle.ps_worker.specs.Shifts.{rests};

/// How a step of a worker ends.
#[derive(Clone, Copy, Debug, PartialEq, Eq, Drop)]
pub enum Work1 {
    /// A record was published.
    Worked,
    /// The segment had a record, published by this entry.
    Already(u32),
    /// The version of the segment isn't kept any more; this entry ended it.
    Dropped(u32),
    /// Nothing is to be computed.
    Idle,
    /// There was no room for a record; with it the kept terms would be so many.
    NoRoom(u64),
    /// A ticket was refused.
    Full,
    /// Memory was wanting.
    Memory,
}

impl Work1 {
    /// Whether there is nothing to do behind such a step until the bell is rung.
    pub fn rests(self) -> bool
        ensures { result ≡ rests self }
    {
        match self {
            Work1::Worked => false,
            Work1::Already(_) => false,
            Work1::Dropped(_) => false,
            Work1::Idle => true,
            Work1::NoRoom(_) => true,
            Work1::Full => false,
            Work1::Memory => true,
        }
    }
}

/// Why a worker leaves.
#[derive(Clone, Copy, Debug, PartialEq, Eq, Drop)]
pub enum Leaving {
    /// The bell was found closed.
    Closed,
    /// A ticket was refused.
    Full,
    /// It took as many steps as it may.
    Spent,
}
