//! What the middles of two lists of items tell of the whole. The function does nothing, and its clauses are
//! laws with their proofs.

ghost use Rattle.ps_local.specs.LocalLaws.{CutOnce, MiddlesRun, MiddlesSame, MiddlesTell, WindowsTell, FoundFinds, FindingTells};

/// There is one cut of two lists; the lists are one map exactly where what is left of them is, and what is
/// found of that tells of the lists. Lists that are windows, each of which is one map, are one map.
pub fn local_law()
    ensures cut_once { CutOnce }
    ensures run { MiddlesRun }
    ensures same { MiddlesSame }
    ensures tell { MiddlesTell }
    ensures windows { WindowsTell }
    ensures found { FoundFinds }
    ensures finding { FindingTells }
{}
