//! The sessions of a script on one thread: their commands are done in the order of the script, by turns at one book.
#![tactic(auto)]

pub mod runs;
pub mod seats;
pub mod sessions;

pub use runs::{Ending, Journal, Response, Responses, Run};
pub use seats::Alone;
pub use sessions::run_alone;

#[cfg(test)]
mod tests;
