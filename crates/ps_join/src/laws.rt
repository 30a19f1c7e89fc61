//! The laws of leaves and joins. The function does nothing, and its clauses are laws with their proofs.

ghost use Rattle.ps_join.specs.Laws.{OneLeaf, OneIdentity, OneJoin, OnePassed, FitsOrPasses};

/// There is one sum of a gate, one of none and one of two sums in a row, and a join passes at most one
/// limit, with one number.
pub fn join_law()
    ensures leaf { OneLeaf }
    ensures identity { OneIdentity }
    ensures join { OneJoin }
    ensures passed { OnePassed }
    ensures fits { FitsOrPasses }
{}
