//! What the tables of the service stand for in its model.
#![tactic(auto)]

pub mod filed;

pub use filed::{Filed, is_passed};
