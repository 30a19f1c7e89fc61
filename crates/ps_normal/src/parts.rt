use super::kept::Kept;
use ps_join::Running;
use ps_reach::Evidence;
use ps_sum::{Passed, PathSum};

/// Where reducing a sum ended.
#[derive(Drop)]
pub enum Ended {
    /// At a sum that no step reduces.
    Normal(PathSum),
    /// At a sum whose first step passes the limit.
    Over { passed: Passed, sum: PathSum },
    /// Where it was asked to stop.
    Stopped,
}

/// What one more prim comes to, or a join.
#[derive(Drop)]
pub enum Part {
    /// A normal sum.
    Sum(Running),
    /// A limit that is passed.
    Over(Evidence),
    /// It was asked to stop.
    Stopped,
}

/// What the leaf of a prim comes to.
#[derive(Drop)]
pub enum LeafPart {
    /// Its normal sum, with the steps that lead there.
    Made(Kept),
    /// A limit that is passed.
    Over(Evidence),
    /// It was asked to stop.
    Stopped,
}

/// The prims that are put together: `from..middle` and `middle..to`.
#[derive(Clone, Copy)]
pub struct Places {
    pub from: u32,
    pub middle: u32,
    pub to: u32,
}

/// What some prims come to behind those before them.
#[derive(Drop)]
pub enum Taken {
    /// A normal sum of all so far, or none where there is no prim yet.
    Going(Option<Running>),
    /// A limit that is passed.
    Over(Evidence),
    /// It was asked to stop.
    Stopped,
}
