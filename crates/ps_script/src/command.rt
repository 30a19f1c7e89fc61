//! The commands of a script.

use crate::name::{Name, Place};
use crate::text::Text;
use std::sync::Arc;

/// What one line of a script asks, with its block.
#[derive(Drop)]
pub enum Command {
    /// Opens a circuit, whose first version is this text.
    Open {
        name: Name,
        text: Arc<Text>,
    },
    /// Puts the items of the block in place of those from `from` to `to` of a version, the latest one.
    Splice {
        place: Place,
        from: u32,
        to: u32,
        block: Arc<Text>,
    },
    /// Gives a version up.
    Retire {
        place: Place,
    },
    /// Whether two versions are one linear map.
    Ask {
        first: Place,
        second: Place,
    },
    /// Whether they are one up to a global phase.
    AskPhase {
        first: Place,
        second: Place,
    },
    /// As `Ask`, with a derivation where they are.
    Prove {
        first: Place,
        second: Place,
    },
    /// The sum of a version.
    Sum {
        place: Place,
    },
    /// The items of a version.
    Show {
        place: Place,
    },
}
