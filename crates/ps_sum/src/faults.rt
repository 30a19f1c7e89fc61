use std::alloc::AllocError;

/// What a limit is put on.
#[derive(Clone, Copy, Debug, PartialEq, Eq)]
pub enum What {
    /// The terms that one substitution makes, before any are added.
    Terms,
    /// The variables that are named at once.
    Variables,
}

/// A limit that was passed, and with how many; told as 10^12 where there are more.
#[derive(Clone, Copy, Debug, PartialEq, Eq)]
pub struct Passed {
    pub what: What,
    pub count: u64,
}

/// Why two sums were not put together.
#[derive(Clone, Copy, Debug, PartialEq, Eq)]
pub enum JoinFault {
    /// A limit was passed.
    Passed(Passed),
    /// Memory was wanting.
    Memory,
}

impl From<AllocError> for JoinFault {
    ghost use Rattle.std.specs.Prelude.{◌≡◌};
    ghost use Rattle.ps_sum.specs.declared.faults.JoinFault.TheVariants.{Memory};

    ghost from_gives = { λ e f. f ≡ Memory };

    fn from(_error: AllocError) -> JoinFault {
        JoinFault::Memory
    }
}
