//! Path sums: Boolean polynomials as whole numbers, substitution, how many terms it makes, and the
//! sums themselves.
#![tactic(auto)]

pub mod counts;
pub mod faults;
pub mod lifting;
pub mod making;
mod multiplying;
pub mod outputs;
mod renaming;
pub mod sizes;
pub mod substituting;
pub mod sums;
mod tables;
mod tabling;
mod texts;

pub use counts::{raw_bool, raw_phase, raw_term};
pub use faults::{JoinFault, Passed, What};
pub use lifting::lift;
pub use making::first_variables;
pub use outputs::Outputs;
pub use substituting::subst_phase;
pub use sums::PathSum;

#[cfg(test)]
mod tests;
