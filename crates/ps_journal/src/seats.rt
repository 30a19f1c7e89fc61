//! What the service keeps of a seat.

use ps_script::Place;
use seg_tree::Node;

/// The versions that a seat has pinned, one or two, and the total of the last publish that was refused for room since.
#[derive(Clone, Copy, Debug)]
pub struct Pin {
    pub first: Place,
    pub second: Option<Place>,
    pub refused: Option<u64>,
}

/// What a seat is to compute: a segment of a version, as this entry gave it out.
#[derive(Clone, Copy, Debug)]
pub struct Claim {
    pub place: Place,
    pub node: Node,
    pub entry: u32,
}
