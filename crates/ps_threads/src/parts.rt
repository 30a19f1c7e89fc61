//! What is handed to a thread, and what it gives back.
use crate::held::Held;
use ps_desk::Seat;
use ps_script::Command;
use ps_sessions::Ending;

/// A session that is to be run: its seat, and its commands in order.
#[derive(Drop)]
pub struct Job {
    pub seat: Seat<Held>,
    pub commands: Vec<Command>,
}

/// A seat that took its last turn, and how its session ended.
#[derive(Drop)]
pub struct Finished {
    pub seat: Seat<Held>,
    pub ending: Ending,
}
