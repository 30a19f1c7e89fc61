//! Derivations that two circuits are one map: their lines, written as text and read from text.
//!
//! A line is a word and what belongs to it, with single spaces between, and LF behind it:
//!
//! - `pathsum 1`: the first line and no other;
//! - `leaf a I`, `leaf b I`: the sum of prim I, below 2^32, of that side;
//! - `id a`, `id b`: the identity of that side;
//! - `join`: the last two sums, one after the other;
//! - `elim Y`, `hh Y Z`, `omega Y`: a step of rewriting the last sum, at path variables below 2^16;
//! - `overlap`: the overlap of the two sums that are left;
//! - `end`: the last line and no other.
//!
//! A number is spelled with decimal digits, without a sign and without a leading zero but for `0`.
#![tactic(auto)]

pub mod derivation;
pub mod fault;
pub mod lines;
mod pieces;
mod reading;
mod spelling;
mod writing;

pub use derivation::Derivation;
pub use fault::StepFault;
pub use lines::{Line, Lines};
pub use reading::read;
pub use writing::text;

#[cfg(test)]
mod tests;
