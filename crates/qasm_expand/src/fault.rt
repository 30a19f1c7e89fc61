//! Why a text or a block is refused.

ghost use Rattle.std.specs.Prelude.{◌≡◌};

use std::alloc::{AllocError, AllocFailed};
use thiserror::Error;

/// The names of the faults of texts.
#[derive(Clone, Copy, Debug, PartialEq, Eq)]
pub enum FaultName {
    /// A byte that begins no token.
    BadByte,
    /// A number that goes on wrongly.
    BadNumber,
    /// A text token without its end on the line.
    OpenString,
    /// The text does not begin with `OPENQASM 2.0;`.
    Version,
    /// A token that the grammar does not allow there.
    Syntax,
    /// `measure`, `reset` or `if`.
    NotUnitary,
    /// A file other than `"qelib1.inc"`.
    Include,
    /// `opaque`.
    Opaque,
    /// More than 128 constructs are open at once in an expression.
    Deep,
    /// A value that is no dyadic multiple of pi.
    NotDyadic,
    /// A value out of bounds, or finer than the unit of angles.
    AngleRange,
    /// An identifier in an expression that is no formal parameter.
    NoParameter,
    /// A function in an expression.
    Function,
    /// A division by zero.
    ByZero,
    /// A gate, a register or a formal argument that is not there.
    Unknown,
    /// A gate with another number of parameters or arguments.
    Arity,
    /// A name that is declared or defined already.
    Redeclared,
    /// A size that is 0 or too large, or an index that is not below the size.
    Range,
    /// One qubit twice in an application.
    RepeatedQubit,
    /// Whole registers of different sizes in an application.
    Sizes,
    /// More than 64 qubits, more than 4,096 primitive gates of an application, or more than 65,536 items.
    TooMany,
    /// No qubit is declared.
    NoQubits,
}

/// The first fault of a text or a block, with its offset in bytes; or want of memory.
#[derive(Clone, Copy, Debug, PartialEq, Eq, Error)]
pub enum ReadFault {
    /// What is wrong, and where.
    #[error("a fault at byte {offset}")]
    Fault { name: FaultName, offset: u32 },
    /// Memory was wanting.
    #[error("out of memory")]
    Memory,
}

impl From<AllocError> for ReadFault {
    ghost use Rattle.qasm_expand.specs.declared.fault.ReadFault.TheVariants.{Memory};

    ghost from_gives = { λ _ e. e ≡ Memory };

    fn from(_error: AllocError) -> Self {
        ReadFault::Memory
    }
}

impl<T: Drop> From<AllocFailed<T>> for ReadFault {
    ghost use Rattle.qasm_expand.specs.declared.fault.ReadFault.TheVariants.{Memory};

    ghost from_gives = { λ _ e. e ≡ Memory };

    fn from(_error: AllocFailed<T>) -> Self {
        ReadFault::Memory
    }
}
