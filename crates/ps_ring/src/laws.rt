//! The laws of numbers. Each function does nothing, and its clauses are laws with their proofs.

ghost use Rattle.ps_ring.specs.NumberLaws.{OneIsNumber, RootTwice, RootEven, RootOdd, SameReflexive, SameSymmetric, SameTransitive, SameByPowers, SamePowers, SumOfEqual, SumOfHalfTurn, SumOfQuarterTurn};
ghost use Rattle.ps_ring.specs.Steps.{ElimKeeps, HhKeeps, OmegaKeeps};
ghost use Rattle.ps_ring.specs.ReadingLaws.{ElimRead, HhRead, OmegaRead, PlainRead, TurnedRead, JoinRead, OverlapRead};
ghost use Rattle.ps_ring.specs.InnerLaws.{InnerIsNumber, InnerAddsLeft, InnerAddsRight, InnerTurnedBoth, InnerTurnedRight, InnerRootLeft, InnerRootRight, InnerOfOne, InnerSelf, InnerNone};

/// The number 1, and the powers of the root of 2 in closed form.
pub fn root_law()
    ensures one { OneIsNumber }
    ensures twice { RootTwice }
    ensures even { RootEven }
    ensures odd { RootOdd }
{}

/// When numbers over powers of the root of 2 are the same.
pub fn scaled_law()
    ensures reflexive { SameReflexive }
    ensures symmetric { SameSymmetric }
    ensures transitive { SameTransitive }
    ensures by_powers { SameByPowers }
    ensures powers { SamePowers }
{}

/// Two terms of which the second is turned by nothing, by half a turn or by a quarter.
pub fn two_terms_law()
    ensures equal { SumOfEqual }
    ensures half { SumOfHalfTurn }
    ensures quarter { SumOfQuarterTurn }
{}

/// The inner product of two numbers.
pub fn inner_law()
    ensures number { InnerIsNumber }
    ensures left { InnerAddsLeft }
    ensures right { InnerAddsRight }
    ensures turned_both { InnerTurnedBoth }
    ensures turned_right { InnerTurnedRight }
    ensures root_left { InnerRootLeft }
    ensures root_right { InnerRootRight }
    ensures of_one { InnerOfOne }
    ensures own { InnerSelf }
    ensures none { InnerNone }
{}

/// Each rewrite step keeps the number of a path sum at every input and output.
pub fn step_law()
    ensures eliminates { ElimKeeps }
    ensures hh { HhKeeps }
    ensures omega { OmegaKeeps }
{}

/// Path sums that are read at assignments of numbered variables are steps, gates, joins and
/// overlaps where what is read is.
pub fn reading_law()
    ensures eliminates { ElimRead }
    ensures hh { HhRead }
    ensures omega { OmegaRead }
    ensures plain { PlainRead }
    ensures turned { TurnedRead }
    ensures join { JoinRead }
    ensures overlap { OverlapRead }
{}
