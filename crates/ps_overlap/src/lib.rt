//! The overlap of two path sums, and the inputs at which a closed sum shows that it is not 1, or no phase.
#![tactic(auto)]

mod looking;
mod moving;
pub mod overlaps;
mod pairing;
pub mod points;
pub mod searching;

pub use overlaps::overlap;
pub use points::{constant_phase, first_point, least_point, turning_point};
pub use searching::vanishing;

#[cfg(test)]
mod tests;
