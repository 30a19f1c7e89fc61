//! The faults of the grammar.

ghost use Rattle.std.specs.Prelude.{◌≡◌};

use std::alloc::{AllocError, AllocFailed};
use thiserror::Error;

/// The first fault of a text that is no program, at the token where the reading cannot go on.
#[derive(Clone, Copy, Debug, PartialEq, Eq, Error)]
pub enum ParseFault {
    /// The text does not begin with `OPENQASM`, a version and `;`.
    #[error("no version at byte {0}")]
    Version(u32),
    /// Anything else.
    #[error("wrong syntax at byte {0}")]
    Syntax(u32),
    /// A statement begins with `measure`, `reset` or `if`.
    #[error("not unitary at byte {0}")]
    NotUnitary(u32),
    /// A text other than `"qelib1.inc"` is included.
    #[error("unknown library at byte {0}")]
    Include(u32),
    /// A statement begins with `opaque`.
    #[error("opaque at byte {0}")]
    Opaque(u32),
    /// More than 128 parentheses, function calls, unary minuses and `^` are open at once.
    #[error("too deep at byte {0}")]
    Deep(u32),
    /// Memory was wanting.
    #[error("out of memory")]
    Memory,
}

impl From<AllocError> for ParseFault {
    ghost use Rattle.qasm_parse.specs.declared.fault.ParseFault.TheVariants.{Memory};

    ghost from_gives = { λ _ e. e ≡ Memory };

    fn from(_error: AllocError) -> Self {
        ParseFault::Memory
    }
}

impl<T: Drop> From<AllocFailed<T>> for ParseFault {
    ghost use Rattle.qasm_parse.specs.declared.fault.ParseFault.TheVariants.{Memory};

    ghost from_gives = { λ _ e. e ≡ Memory };

    fn from(_error: AllocFailed<T>) -> Self {
        ParseFault::Memory
    }
}
