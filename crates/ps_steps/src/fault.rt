//! Why a text is no derivation.

ghost use Rattle.std.specs.Prelude.{◌≡◌};

use std::alloc::{AllocError, AllocFailed};
use thiserror::Error;

/// Why bytes are not the text of a derivation, with the number of the line, counted from 1.
#[derive(Clone, Copy, Debug, PartialEq, Eq, Error)]
pub enum StepFault {
    /// The line is of no form, or may not stand there: the first line is `pathsum 1` and no other is,
    /// and nothing stands behind `end`.
    #[error("line {0} is of no form")]
    Form(u32),
    /// The text ends before the line `end`: the number of its lines and one.
    #[error("no end before line {0}")]
    Cut(u32),
    /// Memory was wanting.
    #[error("out of memory")]
    Memory,
}

impl From<AllocError> for StepFault {
    ghost use Rattle.ps_steps.specs.declared.fault.StepFault.TheVariants.{Memory};

    ghost from_gives = { λ _ e. e ≡ Memory };

    fn from(_error: AllocError) -> Self {
        StepFault::Memory
    }
}

impl<T: Drop> From<AllocFailed<T>> for StepFault {
    ghost use Rattle.ps_steps.specs.declared.fault.StepFault.TheVariants.{Memory};

    ghost from_gives = { λ _ e. e ≡ Memory };

    fn from(_error: AllocFailed<T>) -> Self {
        StepFault::Memory
    }
}
