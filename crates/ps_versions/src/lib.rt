//! Circuits by name, with their versions, pins and the records of their segments.
#![tactic(auto)]

pub mod choices;
pub mod data;
pub mod kept;
pub mod lives;
pub mod opening;
pub mod questions;
pub mod splicing;
pub mod versions;
pub(crate) mod walks;

pub use choices::Weights;
pub use data::{About, Ready, State};
pub use kept::Kept;
pub use versions::Versions;

#[cfg(test)]
mod tests;
