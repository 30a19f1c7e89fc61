//! Circuits of Clifford gates: their sums are quadratic, and stay so.
#![tactic(auto)]

mod circuits;
pub mod laws;

pub use circuits::clifford;

#[cfg(test)]
mod tests;
