//! Generated blocks: lists of gate applications that are drawn from a seed, and the lists that undo them.
#![tactic(auto)]

pub mod applications;
pub mod blocks;
pub mod draws;
pub mod lines;

pub use blocks::{circuit, mirror};

#[cfg(test)]
mod tests;
