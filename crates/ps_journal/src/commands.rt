//! What a seat can ask of the service.

use ps_reach::{Judged, Record};
use ps_script::{Name, Place, Text};
use std::sync::Arc;

/// One command of the service. Versions of a circuit are numbered from 1, and items of a version from 0.
#[derive(Drop)]
pub enum Cmd {
    /// Opens a circuit, the first version of which is read from the text.
    Open {
        name: Name,
        text: Arc<Text>,
    },
    /// Makes the next version of a circuit, if its latest one is still the base: the items from one place up to another
    /// are replaced by those of the block.
    Splice {
        name: Name,
        base: u32,
        from: u32,
        to: u32,
        block: Arc<Text>,
    },
    /// Marks a version as retired. The latest one can't be.
    Retire {
        name: Name,
        version: u32,
    },
    /// Pins one version or two, and releases what the seat has pinned before.
    Pin {
        first: Place,
        second: Option<Place>,
    },
    /// Asks for a segment to compute: of any version that is kept, or of those that the seat has pinned.
    Next {
        pinned: bool,
    },
    /// Publishes the record of the segment that the seat has a claim on, or asks whether that claim stands.
    Publish {
        kept: Option<Arc<Record>>,
    },
    /// Ends a question about the two versions that the seat has pinned.
    Answer {
        outcome: Outcome,
    },
    /// Shows the items of a version.
    Read {
        place: Place,
    },
    /// Ends a question about the sum of the first version that the seat has pinned.
    Sum {
        outcome: Outcome,
    },
}

/// How a question ends.
#[derive(Drop)]
pub enum Outcome {
    /// The two versions were compared. It is told whether a proof is asked for.
    Judged { judged: Arc<Judged>, proof: bool },
    /// Nothing is missing any more.
    Done,
    /// Memory was wanting.
    Starved,
    /// There was no room for a record.
    Crowded,
}
