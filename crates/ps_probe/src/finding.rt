use ps_mono::Bits;
use ps_reach::Evidence;
use ps_sum::PathSum;

/// What comparing two segments finds where some inputs are fixed.
#[derive(Drop)]
pub enum Given {
    /// They are one linear map on the inputs that match the pattern.
    Yes,
    /// At the basis input in which just these inputs are 1, which matches the pattern, they differ.
    No(Bits),
    /// No step reduces this sum, and the inputs that are free and its path variables are together above 16.
    Left(PathSum),
    /// A limit is passed.
    Passed(Evidence),
}
