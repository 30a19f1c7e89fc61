//! Whether two circuits are one linear map where some of their inputs are fixed, and what small sums come to
//! by counting.
#![tactic(auto)]

mod balancing;
mod ending;
mod evidences;
pub mod finding;
pub mod giving;
mod halving;
pub mod pattern;
mod phases;
mod reducing;
pub mod restricting;
mod searching;
mod spelling;
pub mod tallying;

pub use giving::given;
pub use pattern::Pattern;
pub use restricting::restrict;
pub use tallying::tally;

#[cfg(test)]
mod tests;
