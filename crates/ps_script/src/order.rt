//! Command lines without their session and block.

use crate::name::{Name, Place};

/// What a command line asks, but for its block.
#[derive(Clone, Copy)]
pub enum Order {
    Open { name: Name },
    Splice { place: Place, from: u32, to: u32 },
    Retire { place: Place },
    Ask { first: Place, second: Place },
    AskPhase { first: Place, second: Place },
    Prove { first: Place, second: Place },
    Sum { place: Place },
    Show { place: Place },
}

/// An order of a session.
#[derive(Clone, Copy)]
pub struct Spelled {
    pub session: u32,
    pub order: Order,
}
