//! The lines that replies are told in.
#![tactic(auto)]

pub mod items;
pub mod lines;
pub mod names;
pub mod replies;
pub mod verdicts;

pub use lines::{line, text};
pub use names::fault_name;
pub use replies::words;

#[cfg(test)]
mod tests;
