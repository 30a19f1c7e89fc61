//! What the service is asked and what it answers, and which histories of it are legal.
#![tactic(auto)]

pub mod commands;
pub mod replies;
pub mod seats;
pub mod shared;

pub use commands::{Cmd, Outcome};
pub use replies::{Entry, Reply};
pub use seats::{Claim, Pin};
pub use shared::Shared;
