//! What a replay tells.

use ps_sum::PathSum;

/// Why a derivation is rejected at a line.
#[derive(Clone, Copy, Debug, PartialEq, Eq)]
pub enum Why {
    /// The line is of no form, or may not stand there.
    Form,
    /// The text ends before the line `end`.
    Cut,
    /// The line does not fit what stands before it.
    Order,
    /// The step does not apply.
    Redex,
    /// The line makes a sum past a limit.
    Limit,
}

/// What replaying a text comes to.
#[derive(Drop)]
pub enum Replayed {
    /// All lines hold, and the last sum is 1: the two lists are one linear map.
    Accepted,
    /// All lines hold, and the last sum is this one, which is not 1.
    Left(PathSum),
    /// The first line that fails, counted from 1, and why.
    Rejected { line: u32, why: Why },
}
