//! The sum of one prim, and two sums one after the other, reduced.

ghost use Rattle.std.specs.Prelude.{◌≡◌, ℕ, ◌<◌, ◌≤◌, ◌+◌, ◌*◌, ◌↔◌, List, IfOk, IfSome, IsTrue, pos, negsuc, ◌≤ℤ◌, ◌-ℤ◌};
ghost use Rattle.ps_prim.specs.declared.prims.Primitive.{Primitive as Prim};
ghost use Rattle.ps_prim.specs.Maps.{IsWithin};
ghost use Rattle.ps_sum.specs.declared.sums.PathSum.{PathSum};
ghost use Rattle.ps_rules.specs.declared.steps.Move.{Move};
ghost use Rattle.ps_rules.specs.declared.steps.Move.TheVariants.{Leaf, Join};
ghost use Rattle.ps_rules.specs.Rules.{IsIrreducible};
ghost use Rattle.ps_join.specs.Joining.{IsLeafOf, IsJoinOf, JoinFits};
ghost use Rattle.ps_join.specs.OntoFaults.{IsOntoFault};
ghost use Rattle.ps_reach.specs.Fillings.{Leaves, Joins};
ghost use Rattle.ps_normal.specs.Ends.{IsEnded, HasRisen};
ghost use Rattle.ps_normal.specs.Pieces.{PartIs, PartRose, Usable, UsablePart, Joinable};
ghost use Rattle.ps_normal.specs.Keeping.{IsPlainPrim, IsReducedPart, IsReducedLeaf};
ghost use Rattle.ps_normal.specs.Suspecting.{NoneBeside, AreSuspects};

use super::evidences::{evidence, push_moves, shared_evidence};
use super::parts::{Ended, Part, Places};
use super::reduce::{reduce, reduce_among};
use ps_io::Stop;
use ps_join::{Change, Gate, OntoFault, Running, join_gate, leaf};
use ps_mono::Mono;
use ps_prim::Prim;
use ps_rules::{Move, Step, are_spoken};
use ps_sum::PathSum;
use std::alloc::{AllocError, Global};
use std::sync::Arc;

/// What a sum that was reduced comes to, with the move that made it.
pub fn ended_part(
    alloc: Global,
    places: Places,
    first: Move,
    ended: Ended,
    moves: &mut Vec<Move>,
    steps: &[Step],
) -> Result<Part, AllocError>
    ensures leaf { IfOk result (λ p. (n : ℕ) (g : Prim) (S : PathSum) → first ≡ Leaf places.from → places.middle ≡ places.from → places.to ≡ places.from + 1 → IsLeafOf n g S → IsEnded S steps.now ended → PartIs (Leaves n places.from g moves.old.items) moves.new.items p) }
    ensures join { IfOk result (λ p. (S1 S2 S : PathSum) → first ≡ Join → JoinFits S1 S2 → IsJoinOf S1 S2 S → IsEnded S steps.now ended → PartIs (Joins places.from places.middle places.to S1 S2 moves.old.items) moves.new.items p) }
    ensures reduced { IfOk result (λ p. (S : PathSum) → IsEnded S steps.now ended → IsReducedPart S steps.now p) }
    ensures usable { IfOk result (λ p. (n count : ℕ) (S : PathSum) → Usable n count S → IsEnded S steps.now ended → UsablePart n count p) }
    ensures stopped { IfOk result (λ p. (old new : ℕ) → HasRisen old new ended → PartRose old new p) }
{
    match ended {
        Ended::Normal(sum) => {
            push_moves(moves, first, steps)?;
            Ok(Part::Sum(Running::of(alloc, sum)))
        }
        Ended::Over { passed, sum } => {
            push_moves(moves, first, steps)?;
            Ok(Part::Over(evidence(alloc, passed, places, sum, None)?))
        }
        Ended::Stopped => Ok(Part::Stopped),
    }
}

/// The leaf of the prim at a place, reduced.
pub fn leaf_part<S: Stop>(
    alloc: Global,
    n: u32,
    prim: &Prim,
    place: u32,
    moves: &mut Vec<Move>,
    steps: &mut Vec<Step>,
    stop: &mut S,
) -> Result<Part, AllocError>
    requires width { (1 ≤ n) × (n ≤ 64) }
    requires within { IsWithin n prim.now }
    requires few { place < 268435456 }
    ensures part { IfOk result (λ p. PartIs (Leaves n place prim.now moves.old.items) moves.new.items p) }
    ensures reduced { IfOk result (λ p. IsReducedLeaf n prim.now steps.new.items p) }
    ensures usable { IfOk result (λ p. UsablePart n 1 p) }
    ensures stopped { IfOk result (λ p. PartRose (S.yeses stop.old) (S.yeses stop.new) p) }
    ensures never_falls { S.yeses stop.old ≤ S.yeses stop.new }
{
    let sum = leaf(alloc, prim, n)?;
    let ended = reduce(alloc, sum, steps, stop)?;
    let places = Places {
        from: place,
        middle: place,
        to: place + 1,
    };
    ended_part(alloc, places, Move::Leaf(place), ended, moves, steps)
}

/// Whether the prim's sum has no path variable.
pub fn is_plain(prim: &Prim) -> bool
    ensures { IsTrue result ↔ IsPlainPrim prim.now }
{
    match *prim {
        Prim::U { theta, .. } => theta.units() == 0,
        Prim::Cx { .. } => true,
    }
}

// The variables that a step may take away once the gate's sum stands behind the first, which no step
// reduces; `None` where that isn't known.
fn suspects(first: &Running, gate: &Gate) -> Option<Mono>
    requires ready { Joinable first.now gate.now.sum.value }
    ensures { IfSome result (λ m. AreSuspects first.now gate.now.sum.value m) }
{
    let own = gate.sum.m;
    match gate.change() {
        Change::Path { q, .. } if own == 1 => Some(first.variables(q as u32)),
        Change::Stay if own == 0 => Some(Mono::one()),
        Change::Flip { .. } if own == 0 => Some(Mono::one()),
        _ => None,
    }
}

// Whether each of the variables that a step may take away stands in an output.
fn is_still(sum: &Running, among: &Option<Mono>) -> bool
    requires others { IfSome among.now (λ m. NoneBeside sum.now m) }
    ensures { IsTrue result → IsIrreducible sum.now }
{
    match among {
        Some(among) => are_spoken(sum.outputs(), among, sum.qubits() as u16),
        None => false,
    }
}

// The joined sum, which no step reduces. Its terms may go on waiting.
fn still_part(sum: Running, moves: &mut Vec<Move>) -> Result<Part, AllocError>
    requires still { IsIrreducible sum }
    ensures part { IfOk result (λ p. (from middle to : ℕ) (S1 S2 : PathSum) → JoinFits S1 S2 → IsJoinOf S1 S2 sum → PartIs (Joins from middle to S1 S2 moves.old.items) moves.new.items p) }
    ensures usable { IfOk result (λ p. (n count : ℕ) → Usable n count sum → UsablePart n count p) }
    ensures stopped { IfOk result (λ p. (old new : ℕ) → PartRose old new p) }
{
    moves.push(Move::Join)?;
    Ok(Part::Sum(sum))
}

// The joined sum, reduced.
fn reduce_joined<S: Stop>(
    alloc: Global,
    sum: Running,
    among: Option<Mono>,
    steps: &mut Vec<Step>,
    stop: &mut S,
) -> Result<Ended, AllocError>
    requires floor { negsuc 1999999999 ≤ℤ (sum.k -ℤ pos (2 * sum.m)) }
    requires others { IfSome among (λ m. NoneBeside sum m) }
    ensures ended { IfOk result (λ e. IsEnded sum steps.new.items e) }
    ensures stopped { IfOk result (λ e. HasRisen (S.yeses stop.old) (S.yeses stop.new) e) }
    ensures never_falls { S.yeses stop.old ≤ S.yeses stop.new }
{
    let sum = sum.settled()?;
    match among {
        Some(among) => reduce_among(alloc, sum, &among, steps, stop),
        None => reduce(alloc, sum, steps, stop),
    }
}

// The evidence that the join passes a limit.
fn join_evidence(
    alloc: Global,
    places: Places,
    gate: &Gate,
    fault: OntoFault,
) -> Result<Part, AllocError>
    ensures part { IfOk result (λ p. (S : PathSum) (ms : List Move) → IsOntoFault S gate.now.sum.value fault → PartIs (Joins places.from places.middle places.to S gate.now.sum.value ms) ms p) }
    ensures usable { IfOk result (λ p. (n count : ℕ) → UsablePart n count p) }
    ensures stopped { IfOk result (λ p. (old new : ℕ) → PartRose old new p) }
{
    match fault {
        OntoFault::Passed { passed, first } => {
            let first = Arc::new(alloc, first)?;
            let second = Arc::try_clone(&gate.sum)?;
            Ok(Part::Over(shared_evidence(passed, places, first, Some(second))))
        }
        OntoFault::Memory => Err(AllocError),
    }
}

/// The gate's sum behind the first, which is given away, reduced. No step reduces the first.
pub fn join_part<S: Stop>(
    alloc: Global,
    places: Places,
    first: Running,
    gate: &Gate,
    moves: &mut Vec<Move>,
    steps: &mut Vec<Step>,
    stop: &mut S,
) -> Result<Part, AllocError>
    requires ready { Joinable first gate.now.sum.value }
    requires still { IsIrreducible first }
    ensures part { IfOk result (λ p. PartIs (Joins places.from places.middle places.to first gate.now.sum.value moves.old.items) moves.new.items p) }
    ensures usable { IfOk result (λ p. (n a b : ℕ) → Usable n a first → Usable n b gate.now.sum.value → UsablePart n (a + b) p) }
    ensures stopped { IfOk result (λ p. PartRose (S.yeses stop.old) (S.yeses stop.new) p) }
    ensures never_falls { S.yeses stop.old ≤ S.yeses stop.new }
{
    let among = suspects(&first, gate);
    match join_gate(alloc, first, gate) {
        Ok(sum) => {
            if is_still(&sum, &among) {
                return still_part(sum, moves);
            }
            let ended = reduce_joined(alloc, sum, among, steps, stop)?;
            ended_part(alloc, places, Move::Join, ended, moves, steps)
        }
        Err(fault) => join_evidence(alloc, places, gate, fault),
    }
}
