//! The prims of a segment, one behind the other.

ghost use Rattle.std.specs.Prelude.{◌≡◌, ℕ, ◌<◌, ◌≤◌, ◌+◌, ◌++◌, ◌∷◌, [], List, length, Some, IfOk, OnOk, IsTrue};
ghost use Rattle.ps_io.specs.Counts.{Rose};
ghost use Rattle.ps_prim.specs.declared.prims.Primitive.{Primitive as Prim};
ghost use Rattle.ps_prim.specs.Maps.{IsWithin, AllWithin};
ghost use Rattle.ps_reach.specs.Runs.{run_of};
ghost use Rattle.ps_reach.specs.Fillings.{Joins};
ghost use Rattle.ps_normal.specs.Pieces.{PartIs, PartRose, UsablePart, IsProgress, IsTaken};
ghost use Rattle.ps_normal.specs.Keeping.{IsPlainPrim, IsTable, IsKept};
ghost use Rattle.ps_normal.specs.Takings.{Takes, UsableHeld, UsableTaken, TakenRose};

use super::evidences::{evidence, push_moves};
use super::kept::{Kept, Workspace};
use super::leaves::{keep, kept_leaf, new_leaf};
use super::parts::{LeafPart, Part, Places, Taken};
use super::prims::{is_plain, join_part, leaf_part};
use ps_io::Stop;
use ps_join::{OntoFault, Running, join_prim, leaf};
use ps_prim::Prim;
use ps_reach::Items;
use ps_rules::{Move, Step};
use std::alloc::{AllocError, Global};

// A leaf that is kept, behind the sum of the prims before its place.
fn take_kept<S: Stop>(
    alloc: Global,
    n: u32,
    prim: &Prim,
    sum: Running,
    place: u32,
    kept: &Kept,
    moves: &mut Vec<Move>,
    steps: &mut Vec<Step>,
    stop: &mut S,
) -> Result<Part, AllocError>
    requires width { (1 ≤ n) × (n ≤ 64) }
    requires within { IsWithin n prim.now }
    requires few { place < 268435456 }
    requires usable { UsableHeld n place (Some sum) }
    requires kept { IsKept n prim.now kept.now }
    ensures part { IfOk result (λ p. PartIs (Joins 0 place (place + 1) sum kept.now.gate.sum.value moves.old.items) moves.new.items p) }
    ensures usable { IfOk result (λ p. UsablePart n (place + 1) p) }
    ensures stopped { IfOk result (λ p. PartRose (S.yeses stop.old) (S.yeses stop.new) p) }
    ensures never_falls { S.yeses stop.old ≤ S.yeses stop.new }
{
    let places = Places {
        from: 0,
        middle: place,
        to: place + 1,
    };
    join_part(alloc, places, sum, &kept.gate, moves, steps, stop)
}

// The prim at a place, whose sum has no path variable, behind the sum of those before it. No step applies
// to its sum, and none to what comes of the join.
fn take_plain(
    alloc: Global,
    n: u32,
    prim: &Prim,
    sum: Running,
    place: u32,
    moves: &mut Vec<Move>,
) -> Result<Part, AllocError>
    requires width { (1 ≤ n) × (n ≤ 64) }
    requires within { IsWithin n prim.now }
    requires few { place < 268435456 }
    requires usable { UsableHeld n place (Some sum) }
    requires plain { IsPlainPrim prim.now }
    ensures taken { IfOk result (λ p. (A more : List Prim) → IsProgress n A (prim.now ∷ more) (Some sum) place moves.old.items → IsTaken n A more (place + 1) moves.new.items p) }
    ensures usable { IfOk result (λ p. UsablePart n (place + 1) p) }
    ensures stopped { IfOk result (λ p. (old new : ℕ) → PartRose old new p) }
{
    moves.push(Move::Leaf(place))?;
    match join_prim(alloc, sum, prim) {
        Ok(joined) => {
            moves.push(Move::Join)?;
            Ok(Part::Sum(joined))
        }
        Err(OntoFault::Passed { passed, first }) => {
            let places = Places {
                from: 0,
                middle: place,
                to: place + 1,
            };
            let second = leaf(alloc, prim, n)?;
            Ok(Part::Over(evidence(alloc, passed, places, first, Some(second))?))
        }
        Err(OntoFault::Memory) => Err(AllocError),
    }
}

// The prim at a place, which is met first, behind the sum of those before it.
fn take_new<S: Stop>(
    alloc: Global,
    n: u32,
    prim: &Prim,
    sum: Running,
    place: u32,
    moves: &mut Vec<Move>,
    work: &mut Workspace,
    stop: &mut S,
) -> Result<Part, AllocError>
    requires width { (1 ≤ n) × (n ≤ 64) }
    requires within { IsWithin n prim.now }
    requires few { place < 268435456 }
    requires usable { UsableHeld n place (Some sum) }
    requires table { IsTable n work.old.leaves.items }
    ensures taken { IfOk result (λ p. (A more : List Prim) → IsProgress n A (prim.now ∷ more) (Some sum) place moves.old.items → IsTaken n A more (place + 1) moves.new.items p) }
    ensures usable { IfOk result (λ p. UsablePart n (place + 1) p) }
    ensures table { OnOk result (IsTable n work.new.leaves.items) }
    ensures stopped { IfOk result (λ p. PartRose (S.yeses stop.old) (S.yeses stop.new) p) }
    ensures never_falls { S.yeses stop.old ≤ S.yeses stop.new }
{
    match new_leaf(alloc, n, prim, place, moves, &mut work.steps, stop)? {
        LeafPart::Made(kept) => {
            let part = take_kept(
                alloc,
                n,
                prim,
                sum,
                place,
                &kept,
                moves,
                &mut work.steps,
                stop,
            )?;
            keep(alloc, &mut work.leaves, kept)?;
            Ok(part)
        }
        LeafPart::Over(evidence) => Ok(Part::Over(evidence)),
        LeafPart::Stopped => Ok(Part::Stopped),
    }
}

// Whether to stop, asked before each of the steps of a leaf that is kept, until the answer is yes.
fn asked_before<S: Stop>(steps: &[Step], stop: &mut S) -> bool
    ensures yes { IsTrue result → Rose (S.yeses stop.old) (S.yeses stop.new) }
    ensures never_falls { S.yeses stop.old ≤ S.yeses stop.new }
{
    'steps: for _step in steps {
        if stop.asked() {
            return true;
        }
    }
    false
}

// The prim at a place behind the sum of those before it.
fn take_next<S: Stop>(
    alloc: Global,
    n: u32,
    prim: &Prim,
    sum: Running,
    place: u32,
    moves: &mut Vec<Move>,
    work: &mut Workspace,
    stop: &mut S,
) -> Result<Part, AllocError>
    requires width { (1 ≤ n) × (n ≤ 64) }
    requires within { IsWithin n prim.now }
    requires few { place < 268435456 }
    requires usable { UsableHeld n place (Some sum) }
    requires table { IsTable n work.old.leaves.items }
    ensures taken { IfOk result (λ p. (A more : List Prim) → IsProgress n A (prim.now ∷ more) (Some sum) place moves.old.items → IsTaken n A more (place + 1) moves.new.items p) }
    ensures usable { IfOk result (λ p. UsablePart n (place + 1) p) }
    ensures table { OnOk result (IsTable n work.new.leaves.items) }
    ensures stopped { IfOk result (λ p. PartRose (S.yeses stop.old) (S.yeses stop.new) p) }
    ensures never_falls { S.yeses stop.old ≤ S.yeses stop.new }
{
    if is_plain(prim) {
        return take_plain(alloc, n, prim, sum, place, moves);
    }
    match kept_leaf(&work.leaves, prim) {
        Some(kept) => {
            if asked_before(&kept.steps, stop) {
                return Ok(Part::Stopped);
            }
            push_moves(moves, Move::Leaf(place), &kept.steps)?;
            take_kept(
                alloc,
                n,
                prim,
                sum,
                place,
                kept,
                moves,
                &mut work.steps,
                stop,
            )
        }
        None => take_new(alloc, n, prim, sum, place, moves, work, stop),
    }
}

// The prim at a place behind the sum of those before it, or the first prim.
fn take_prim<S: Stop>(
    alloc: Global,
    n: u32,
    prim: &Prim,
    held: Option<Running>,
    place: u32,
    moves: &mut Vec<Move>,
    work: &mut Workspace,
    stop: &mut S,
) -> Result<Part, AllocError>
    requires width { (1 ≤ n) × (n ≤ 64) }
    requires within { IsWithin n prim.now }
    requires few { place < 268435456 }
    requires usable { UsableHeld n place held }
    requires table { IsTable n work.old.leaves.items }
    ensures taken { IfOk result (λ p. (A more : List Prim) → IsProgress n A (prim.now ∷ more) held place moves.old.items → IsTaken n A more (place + 1) moves.new.items p) }
    ensures usable { IfOk result (λ p. UsablePart n (place + 1) p) }
    ensures table { OnOk result (IsTable n work.new.leaves.items) }
    ensures stopped { IfOk result (λ p. PartRose (S.yeses stop.old) (S.yeses stop.new) p) }
    ensures never_falls { S.yeses stop.old ≤ S.yeses stop.new }
{
    match held {
        None => leaf_part(alloc, n, prim, place, moves, &mut work.steps, stop),
        Some(sum) => take_next(alloc, n, prim, sum, place, moves, work, stop),
    }
}

// The prims, of which the first stands at a place, behind the sum of those before.
fn take_prims<S: Stop>(
    alloc: Global,
    n: u32,
    prims: &[Prim],
    held: Option<Running>,
    place: u32,
    moves: &mut Vec<Move>,
    work: &mut Workspace,
    stop: &mut S,
) -> Result<Taken, AllocError>
    requires width { (1 ≤ n) × (n ≤ 64) }
    requires within { AllWithin n prims.now }
    requires few { place + length prims.now ≤ 268435456 }
    requires usable { UsableHeld n place held }
    requires table { IsTable n work.old.leaves.items }
    ensures taken { IfOk result (λ t. (A more : List Prim) → IsProgress n A (prims.now ++ more) held place moves.old.items → Takes n A more (place + length prims.now) moves.new.items t) }
    ensures usable { IfOk result (λ t. UsableTaken n (place + length prims.now) t) }
    ensures table { OnOk result (IsTable n work.new.leaves.items) }
    ensures stopped { IfOk result (λ t. TakenRose (S.yeses stop.old) (S.yeses stop.new) t) }
    ensures never_falls { S.yeses stop.old ≤ S.yeses stop.new }
{
    let mut held = held;
    let mut at = place;
    'prims: for prim in prims {
        if stop.asked() {
            return Ok(Taken::Stopped);
        }
        match take_prim(alloc, n, prim, held, at, moves, work, stop)? {
            Part::Sum(sum) => held = Some(sum),
            Part::Over(evidence) => return Ok(Taken::Over(evidence)),
            Part::Stopped => return Ok(Taken::Stopped),
        }
        at += 1;
    }
    Ok(Taken::Going(held))
}

/// The prims of all items, from the first on.
pub fn take_items<S: Stop>(
    alloc: Global,
    n: u32,
    items: &Items,
    moves: &mut Vec<Move>,
    work: &mut Workspace,
    stop: &mut S,
) -> Result<Taken, AllocError>
    requires width { (1 ≤ n) × (n ≤ 64) }
    requires within { AllWithin n (run_of items.now) }
    requires few { length items.now ≤ 65536 }
    requires fresh { moves.old.items ≡ [] }
    requires table { IsTable n work.old.leaves.items }
    ensures taken { IfOk result (λ t. Takes n (run_of items.now) [] (length (run_of items.now)) moves.new.items t) }
    ensures usable { IfOk result (λ t. UsableTaken n (length (run_of items.now)) t) }
    ensures table { OnOk result (IsTable n work.new.leaves.items) }
    ensures stopped { IfOk result (λ t. TakenRose (S.yeses stop.old) (S.yeses stop.new) t) }
{
    let mut held = None;
    let mut at = 0;
    'items: for item in items.as_slice() {
        let prims = item.prims.as_slice();
        match take_prims(alloc, n, prims, held, at, moves, work, stop)? {
            Taken::Going(sum) => held = sum,
            Taken::Over(evidence) => return Ok(Taken::Over(evidence)),
            Taken::Stopped => return Ok(Taken::Stopped),
        }
        at += prims.len() as u32;
    }
    Ok(Taken::Going(held))
}
