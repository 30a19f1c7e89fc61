use ps_sum::{Passed, PathSum};

/// Where reducing a sum ended.
#[derive(Drop)]
pub enum Ending {
    /// At a sum that no step reduces.
    Normal(PathSum),
    /// At a sum whose first step passes the limit.
    Over { passed: Passed, sum: PathSum },
}
