//! One command of a session, over anything that takes turns.
#![tactic(auto)]

pub mod commands;
mod passing;
mod questions;
mod settling;
pub mod takers;

pub use commands::command;
pub use takers::Turns;
