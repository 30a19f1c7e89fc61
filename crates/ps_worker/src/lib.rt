//! Work beside the sessions: segments that nobody has asked for yet are computed.
#![tactic(auto)]

pub mod answers;
mod asking;
mod filling;
pub mod listening;
pub mod shifts;
pub mod steps;

pub use answers::{Leaving, Work1};
pub use listening::Listener;
pub use shifts::work;
pub use steps::work_step;
