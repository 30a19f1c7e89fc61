//! The laws of lists of prims. Each function does nothing, and its clauses are laws with their proofs.

ghost use Rattle.ps_prim.specs.Plain.{PlainEmpty, PlainCx, PlainTurn, PlainSame, PlainOutputDiffers, PlainPhaseDiffers};
ghost use Rattle.ps_prim.specs.AmplitudeLaws.{AmplitudeEmpty, AmplitudeLast, AmplitudeAppend, TurnsAppend, AmplitudeIsNumber};
ghost use Rattle.ps_prim.specs.MapLaws.{SameNowhereDiffers, PhaseNowhereDiffers, SameIsNoPhase, NoPhaseIsSame, PhaseDiffersDiffers};
ghost use Rattle.ps_prim.specs.Closed.{VanishRead, VanishingIsZero, ZeroIsNotOne, PlainIsOne, OneIsPlain, ZeroIsNoTurn, PlainIsTurn, TurnIsPlain};
ghost use Rattle.ps_prim.specs.Columns.{PrimKeepsInner, OwnInnerIsOne, OneIsSame, SameIsOne};
ghost use Rattle.ps_prim.specs.SumLaws.{PlainDenotes, IdentityDenotes, LeafDenotes, JoinDenotes};
ghost use Rattle.ps_prim.specs.Overlaps.{OverlapIsInner, OverlapDenotes, OverlapOne, OverlapNotOne, PhaseIsOne, OverlapTurn, OverlapNoTurn, PhaseIsTurn};

/// The amplitude of a list of gates by its last gate, and that it is a number.
pub fn amplitude_law()
    ensures empty { AmplitudeEmpty }
    ensures last { AmplitudeLast }
    ensures append { AmplitudeAppend }
    ensures turns { TurnsAppend }
    ensures number { AmplitudeIsNumber }
{}

/// What is one map differs nowhere, and what is one map up to a phase is not told apart by inputs. One
/// map is one map up to no phase, and an input at which no phase will do is one at which two lists differ.
pub fn map_law()
    ensures same { SameNowhereDiffers }
    ensures phase { PhaseNowhereDiffers }
    ensures exact { SameIsNoPhase }
    ensures unturned { NoPhaseIsSame }
    ensures differs { PhaseDiffersDiffers }
{}

/// Controlled nots and `U` at theta 0 only permute the basis inputs and turn phases, and so two
/// lists of them are one map exactly where their outputs and their phases are equal.
pub fn plain_law()
    ensures empty { PlainEmpty }
    ensures cx { PlainCx }
    ensures turn { PlainTurn }
    ensures same { PlainSame }
    ensures output_differs { PlainOutputDiffers }
    ensures phase_differs { PlainPhaseDiffers }
{}

/// Prims keep the inner product of two columns as far as it is scaled, so that each column has
/// inner product 1 with itself, and two columns with inner product 1 are equal.
pub fn column_law()
    ensures kept { PrimKeepsInner }
    ensures own { OwnInnerIsOne }
    ensures one { OneIsSame }
    ensures same { SameIsOne }
{}

/// The sums of the composition denote what they stand for.
pub fn sum_law()
    ensures plain { PlainDenotes }
    ensures identity { IdentityDenotes }
    ensures leaf { LeafDenotes }
    ensures join { JoinDenotes }
{}

/// The overlap of two sums is the inner product of their numbers, and its number tells whether
/// their columns are equal.
pub fn overlap_law()
    ensures inner { OverlapIsInner }
    ensures denotes { OverlapDenotes }
    ensures one { OverlapOne }
    ensures not_one { OverlapNotOne }
    ensures phase { PhaseIsOne }
{}

/// When a closed sum stands for 0, and when one without path variables stands for 1.
pub fn closed_law()
    ensures read { VanishRead }
    ensures vanishing { VanishingIsZero }
    ensures zero { ZeroIsNotOne }
    ensures plain { PlainIsOne }
    ensures one { OneIsPlain }
{}

/// The number of an overlap tells whether the one column is the other turned by a phase. A closed sum
/// without path variables stands for a phase exactly where its scale is 0; one that stands for 0 does not.
pub fn phase_law()
    ensures turn { OverlapTurn }
    ensures no_turn { OverlapNoTurn }
    ensures phase { PhaseIsTurn }
    ensures plain { PlainIsTurn }
    ensures own { TurnIsPlain }
    ensures zero { ZeroIsNoTurn }
{}
