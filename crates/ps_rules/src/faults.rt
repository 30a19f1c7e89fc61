use ps_sum::{Passed, PathSum};
use std::alloc::AllocError;

/// Why a step was not taken.
#[derive(Clone, Copy, Debug, PartialEq, Eq)]
pub enum ApplyFault {
    /// The step does not apply.
    NotARedex,
    /// The step makes more terms than the limit.
    Passed(Passed),
    /// Memory was wanting.
    Memory,
}

impl From<AllocError> for ApplyFault {
    ghost use Rattle.std.specs.Prelude.{◌≡◌};
    ghost use Rattle.ps_rules.specs.declared.faults.ApplyFault.TheVariants.{Memory};

    ghost from_gives = { λ e f. f ≡ Memory };

    fn from(_error: AllocError) -> ApplyFault {
        ApplyFault::Memory
    }
}

/// Why a step was not taken on a sum that was handed over; but for want of memory the sum is handed
/// back as it was.
#[derive(Drop)]
pub enum Refused {
    /// The step does not apply.
    NotARedex(PathSum),
    /// The step makes more terms than the limit.
    Passed { passed: Passed, sum: PathSum },
    /// Memory was wanting.
    Memory,
}
