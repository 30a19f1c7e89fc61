//! The laws of quadratic sums. The function does nothing, and its clauses are laws with their proofs.

ghost use Rattle.ps_cliff.specs.Laws.{LeavesAre, IdentitiesAre, JoinsStay, StepsStay, OverlapsStay};

/// The sums of Clifford gates and of no gate are quadratic, and so is each join, each overlap and what each step
/// gives of quadratic sums.
pub fn quadratic_law()
    ensures leaves { LeavesAre }
    ensures identities { IdentitiesAre }
    ensures joins { JoinsStay }
    ensures steps { StepsStay }
    ensures overlaps { OverlapsStay }
{}
