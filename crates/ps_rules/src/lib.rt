//! The three rewrite steps of path sums: which step comes first, and the sum after a step.
#![tactic(auto)]

pub mod among;
pub mod applying;
mod checking;
mod choosing;
mod dividing;
pub mod faults;
pub mod finding;
mod looking;
mod measuring;
mod parts;
mod planning;
mod settling;
mod sights;
mod spoiling;
pub mod steps;
mod taking;

pub use among::{are_spoken, find_among};
pub use applying::{advance, apply, rewrite};
pub use faults::{ApplyFault, Refused};
pub use finding::find;
pub use steps::{Move, Step};

#[cfg(test)]
mod tests;
