//! The laws of lists of gates that are taken apart. Each function does nothing, and its clauses are laws
//! with their proofs.

ghost use Rattle.ps_cut.specs.MapLaws.{MapReflexive, MapSymmetric, MapTransitive, MapAppend, MapBetween, WindowsSame, MapMovesDifference};
ghost use Rattle.ps_cut.specs.InverseLaws.{InverseWithin, InverseBehind, InverseBefore, UndoWithin, UndoBehind, UndoBefore};
ghost use Rattle.ps_cut.specs.EndLaws.{MapCancels, DiffersBetween, DiffersSomewhere, DiffersBefore};
ghost use Rattle.ps_cut.specs.EndLaws.{EndsSame, EndsTell, EndsDiffer, FrontlessDiffers};
ghost use Rattle.ps_cut.specs.OrderLaws.{ApartSwap, SwapMoves, BesideSwaps, DisjointSwap, PullsFront, PullsBack};

/// To be one linear map is an equivalence, which lists in front and behind keep, and windows side by side.
pub fn map_law()
    ensures reflexive { MapReflexive }
    ensures symmetric { MapSymmetric }
    ensures transitive { MapTransitive }
    ensures append { MapAppend }
    ensures between { MapBetween }
    ensures windows { WindowsSame }
    ensures difference { MapMovesDifference }
{}

/// Each gate, and each list of gates, is undone by another, behind it and in front of it.
pub fn inverse_law()
    ensures within { InverseWithin }
    ensures behind { InverseBehind }
    ensures before { InverseBefore }
    ensures undo_within { UndoWithin }
    ensures undo_behind { UndoBehind }
    ensures undo_before { UndoBefore }
{}

/// A front and a back that two lists have in common decide nothing: what stands between them does.
pub fn end_law()
    ensures cancels { MapCancels }
    ensures differs { DiffersBetween }
    ensures somewhere { DiffersSomewhere }
    ensures frontless { DiffersBefore }
    ensures ends_same { EndsSame }
    ensures ends_tell { EndsTell }
    ensures ends_differ { EndsDiffer }
    ensures no_front { FrontlessDiffers }
{}

/// Gates, and lists of gates, without a common qubit may stand in either order.
pub fn order_law()
    ensures swap { ApartSwap }
    ensures moves { SwapMoves }
    ensures beside { BesideSwaps }
    ensures disjoint { DisjointSwap }
    ensures front { PullsFront }
    ensures back { PullsBack }
{}
