//! Why bytes are no script.

ghost use Rattle.std.specs.Prelude.{◌≡◌};

use std::alloc::{AllocError, AllocFailed};
use thiserror::Error;

/// The first line of the bytes that is wrong, counted from 1.
#[derive(Clone, Copy, Debug, PartialEq, Eq, Error)]
pub enum ScriptFault {
    /// The line is of no form.
    #[error("line {0} is of no form")]
    Form(u32),
    /// The line is right but for the number of its session, which is above 15.
    #[error("no such session at line {0}")]
    Session(u32),
    /// The line is right, and the line `.` behind its block is missing.
    #[error("no end of the block of line {0}")]
    Block(u32),
    /// Memory was wanting.
    #[error("out of memory")]
    Memory,
}

impl From<AllocError> for ScriptFault {
    ghost use Rattle.ps_script.specs.declared.fault.ScriptFault.TheVariants.{Memory};

    ghost from_gives = { λ _ e. e ≡ Memory };

    fn from(_error: AllocError) -> Self {
        ScriptFault::Memory
    }
}

impl<T: Drop> From<AllocFailed<T>> for ScriptFault {
    ghost use Rattle.ps_script.specs.declared.fault.ScriptFault.TheVariants.{Memory};

    ghost from_gives = { λ _ e. e ≡ Memory };

    fn from(_error: AllocFailed<T>) -> Self {
        ScriptFault::Memory
    }
}
