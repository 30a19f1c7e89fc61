use super::evidence::Evidence;
use ps_mono::Bits;
use ps_ring::Phase;
use ps_sum::PathSum;

/// What comparing two segments finds.
#[derive(Drop)]
pub enum Verdict {
    /// They are one linear map.
    Yes,
    /// The second is the linear map of the first turned by this phase.
    YesPhase(Phase),
    /// At the basis input in which just these inputs are 1 they differ, or no phase will do.
    No(Bits),
    /// No one phase will do for the two basis inputs in which just these inputs are 1.
    NoPair(Bits, Bits),
    /// No step reduces this sum, which the overlap of the two comes to.
    Stuck(PathSum),
    /// A limit is passed.
    Passed(Evidence),
}
