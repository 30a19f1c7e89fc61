use ps_sum::{Passed, PathSum};
use std::sync::Arc;

/// By which sums, and at which places of a list of prims, a limit is passed.
///
/// With `second`, putting the two sums together passes; without, the first step of the one sum does.
/// `from..middle` and `middle..to` are the prims whose sums were put together; a leaf has `middle`
/// equal to `from`, and about an overlap all three are 0.
#[derive(Drop)]
pub struct Evidence {
    pub passed: Passed,
    pub from: u32,
    pub middle: u32,
    pub to: u32,
    pub first: Arc<PathSum>,
    pub second: Option<Arc<PathSum>>,
}

/// What a segment comes to.
#[derive(Drop)]
pub enum Body {
    /// Its normal sum.
    Sum(Arc<PathSum>),
    /// The first limit that is passed on the way.
    Passed(Evidence),
}
