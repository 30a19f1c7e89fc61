//! Tokens, their kinds and the faults of cutting.

ghost use Rattle.std.specs.Prelude.{◌≡◌};

use std::alloc::{AllocError, AllocFailed};
use thiserror::Error;

/// What a token is.
#[derive(Clone, Copy, Debug, PartialEq, Eq)]
pub enum Kind {
    /// A letter, then letters, digits and `_`.
    Word,
    /// A number without a sign.
    Number,
    /// Bytes of one line between two `"`, which belong to the token.
    Text,
    /// One or two bytes of punctuation.
    Sign,
}

/// A token: its kind, and the bytes `from..to` of the text that spell it.
#[derive(Clone, Copy, Debug, PartialEq, Eq)]
pub struct Token {
    /// What it is.
    pub kind: Kind,
    /// The offset of its first byte.
    pub from: u32,
    /// The offset behind its last byte; always above `from`.
    pub to: u32,
}

/// The first fault of a text that cannot be cut into tokens, with its offset in bytes.
#[derive(Clone, Copy, Debug, PartialEq, Eq, Error)]
pub enum LexFault {
    /// A byte that begins no token.
    #[error("byte {0} begins no token")]
    BadByte(u32),
    /// A number that a letter, a digit, `_` or `.` follows at once, as in `3q`, or whose exponent
    /// has no digit, as in `1e`. The offset is that of the number.
    #[error("the number at byte {0} does not end")]
    BadNumber(u32),
    /// A `"` without its end on the line.
    #[error("the text at byte {0} does not end on its line")]
    OpenString(u32),
    /// Memory was wanting.
    #[error("out of memory")]
    Memory,
}

impl From<AllocError> for LexFault {
    ghost use Rattle.qasm_lex.specs.declared.types.LexFault.TheVariants.{Memory};

    ghost from_gives = { λ _ e. e ≡ Memory };

    fn from(_error: AllocError) -> Self {
        LexFault::Memory
    }
}

impl<T: Drop> From<AllocFailed<T>> for LexFault {
    ghost use Rattle.qasm_lex.specs.declared.types.LexFault.TheVariants.{Memory};

    ghost from_gives = { λ _ e. e ≡ Memory };

    fn from(_error: AllocFailed<T>) -> Self {
        LexFault::Memory
    }
}

/// What stands at a place of a text.
#[derive(Clone, Copy, Debug, PartialEq, Eq)]
pub enum Piece {
    /// White space or a comment up to a place.
    Gap(usize),
    /// A token up to a place.
    Token(Kind, usize),
    /// Neither.
    Bad(LexFault),
}

/// A class of bytes.
#[derive(Clone, Copy, Debug, PartialEq, Eq)]
pub enum Class {
    /// Letters, digits and `_`.
    Word,
    /// Digits.
    Digit,
    /// All bytes but `"` and LF.
    Text,
    /// All bytes but LF.
    Comment,
}
