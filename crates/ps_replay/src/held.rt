//! The sums that a derivation has made so far.

use ps_sum::PathSum;

/// Consecutive prims of a side.
#[derive(Clone, Copy)]
pub enum Stretch {
    /// No prim, at no place.
    Empty,
    /// The prims from one place up to another.
    Span { from: u32, to: u32 },
}

/// What a sum stands for.
#[derive(Clone, Copy)]
pub enum Place {
    /// Prims of a side; side b is `true`.
    Side { b: bool, stretch: Stretch },
    /// The overlap of both sides.
    Both,
}

/// A sum, with what it stands for.
#[derive(Drop)]
pub struct Held {
    pub place: Place,
    pub sum: PathSum,
}
