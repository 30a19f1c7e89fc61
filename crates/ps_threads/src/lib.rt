//! The sessions of a script on threads of their own, beside workers, which take their turns at one desk.
#![tactic(auto)]

pub mod beside;
pub mod crew;
pub mod dealing;
pub mod held;
pub mod parts;
pub mod runs;
pub mod seated;
pub mod seats;
pub mod serving;
pub mod tidings;

pub use runs::{Run, run_beside, run_sessions};
pub use seated::Session;

#[cfg(test)]
mod tests;
