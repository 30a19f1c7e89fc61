//! Dyadic numbers, pairs, operations and faults.

ghost use Rattle.std.specs.Prelude.{◌≡◌, ◌<◌, ◌≤◌, ◌^◌, nat_abs};
ghost use Rattle.qasm_angle.specs.Lowest.{IsLowest};

use std::alloc::{AllocError, AllocFailed};
use thiserror::Error;

/// The fraction num / 2^shift, in lowest terms.
#[derive(Clone, Copy, Debug, PartialEq, Eq)]
pub struct Dyadic {
    /// Its numerator, above -2^62 and below 2^62.
    pub num: i64,
    /// The power of two below the stroke, at most 62; 0 where the numerator is even.
    pub shift: u32,
    pub ghost small: { nat_abs num < 2 ^ 62 },
    pub ghost few: { shift ≤ 62 },
    pub ghost lowest: { IsLowest (nat_abs num) shift },
}

/// The number r + s·pi.
#[derive(Clone, Copy, Debug, PartialEq, Eq)]
pub struct Pair {
    /// The part without pi.
    pub r: Dyadic,
    /// How often pi is taken.
    pub s: Dyadic,
}

/// An operation of an expression in postfix order: it stands behind its operands.
#[derive(Clone, Copy, Debug, PartialEq, Eq)]
pub enum Op {
    /// The number digits·10^ten. 10^18 digits or more stand for a number that is too large.
    Number { digits: u64, ten: i32 },
    /// The number pi.
    Pi,
    /// A parameter, by its place in the list of parameters.
    Id(u32),
    /// The operand with the other sign.
    Neg,
    /// The sum of two operands.
    Add,
    /// The first operand less the second.
    Sub,
    /// The product of two operands.
    Mul,
    /// The first operand divided by the second.
    Div,
    /// The first operand to the power of the second.
    Pow,
    /// A function with its operand. No function has a value here.
    Func,
}

/// Why an expression has no value, or a value is no angle.
#[derive(Clone, Copy, Debug, PartialEq, Eq, Error)]
pub enum AngleFault {
    /// The exact value is no pair of dyadic fractions, or the operation has none.
    #[error("not a dyadic multiple of pi")]
    NotDyadic,
    /// The exact value is a pair of dyadic fractions, of which one is out of bounds.
    #[error("out of range")]
    AngleRange,
    /// An identifier is no formal parameter.
    #[error("no parameter")]
    NoParameter,
    /// A function was called.
    #[error("a function")]
    Function,
    /// A division by zero, or zero to a negative power.
    #[error("division by zero")]
    ByZero,
    /// Memory was wanting.
    #[error("out of memory")]
    Memory,
}

impl From<AllocError> for AngleFault {
    ghost use Rattle.qasm_angle.specs.declared.types.AngleFault.TheVariants.{Memory};

    ghost from_gives = { λ _ e. e ≡ Memory };

    fn from(_error: AllocError) -> Self {
        AngleFault::Memory
    }
}

impl<T: Drop> From<AllocFailed<T>> for AngleFault {
    ghost use Rattle.qasm_angle.specs.declared.types.AngleFault.TheVariants.{Memory};

    ghost from_gives = { λ _ e. e ≡ Memory };

    fn from(_error: AllocFailed<T>) -> Self {
        AngleFault::Memory
    }
}
