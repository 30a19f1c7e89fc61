//! The records of two segments one after the other.

ghost use Rattle.std.specs.Prelude.{◌≡◌, ◌≤◌, ◌<◌, ◌+◌, ◌++◌, ℕ, List, length, map, IfOk, OnOk};
ghost use Rattle.ps_prim.specs.declared.prims.Primitive.{Primitive as Prim};
ghost use Rattle.ps_sum.specs.declared.sums.PathSum.{PathSum};
ghost use Rattle.ps_rules.specs.declared.steps.Move.{Move};
ghost use Rattle.ps_reach.specs.Runs.{run_of};
ghost use Rattle.ps_reach.specs.Fillings.{raised, Joins};
ghost use Rattle.ps_reach.specs.Parts.{outcome_by, IsRight};
ghost use Rattle.ps_reach.specs.declared.evidence.Body.TheVariants.{Sum};
ghost use Rattle.ps_normal.specs.Pieces.{PartIs, PartRose, Joinable};
ghost use Rattle.ps_normal.specs.Fillings.{HasSum, CanJoin, CanRun, FilledRose, IsFilledAs, IsFilledBoth};
ghost use Rattle.ps_normal.specs.Places.{IsPlaced, AllPlaced, IsJoinedPart};

use super::evidences::shared_evidence;
use super::filled::Filled;
use super::filling::record;
use super::parts::{Part, Places};
use super::prims::ended_part;
use super::reduce::reduce;
use ps_io::Stop;
use ps_join::join;
use ps_reach::{Body, Items, Record};
use ps_rules::Move;
use ps_sum::{JoinFault, PathSum};
use std::alloc::{AllocError, Global};
use std::sync::Arc;

// How many prims the items have.
fn prim_count(items: &Items) -> u32
    requires { length items.now ≤ 65536 }
    ensures value { result ≡ length (run_of items.now) }
    ensures few { length (run_of items.now) ≤ 268435456 }
{
    let mut count = 0;
    'items: for item in items.as_slice() {
        count += item.prims.as_slice().len() as u32;
    }
    count
}

// The items of both, in order.
fn both_items(alloc: Global, first: &Items, second: &Items) -> Result<Items, AllocError>
    ensures { IfOk result (λ s. s ≡ first.now ++ second.now) }
{
    let mut list = Vec::new(alloc);
    'first: for item in first.as_slice() {
        list.push(Arc::try_clone(item)?)?;
    }
    'second: for item in second.as_slice() {
        list.push(Arc::try_clone(item)?)?;
    }
    Ok(Items::from_vec(list))
}

// The move with its leaf's place raised.
fn raise(step: Move, by: u32) -> Move
    requires small { by ≤ 268435456 }
    requires placed { IsPlaced 268435456 step }
    ensures { result ≡ raised by step }
{
    match step {
        Move::Leaf(place) => Move::Leaf(place + by),
        Move::Id => Move::Id,
        Move::Join => Move::Join,
        Move::Rewrite(step) => Move::Rewrite(step),
    }
}

// The moves with the places of their leaves raised, behind others.
fn push_raised(out: &mut Vec<Move>, moves: &[Move], by: u32) -> Result<(), AllocError>
    requires small { by ≤ 268435456 }
    requires placed { AllPlaced 268435456 moves.now }
    ensures { OnOk result (out.new.items ≡ out.old.items ++ map (raised by) moves.now) }
{
    'moves: for step in moves {
        out.push(raise(*step, by))?;
    }
    Ok(())
}

// The sum of a record that has one.
fn sum_of(record: &Record) -> &Arc<PathSum>
    requires { HasSum record.now.body }
    ensures { record.now.body ≡ Sum result.now }
{
    match &record.body {
        Body::Sum(sum) => sum,
        Body::Passed(_) => unreachable!(),
    }
}

// The second sum behind the first, reduced.
fn join_sums<S: Stop>(
    alloc: Global,
    places: Places,
    first: &Arc<PathSum>,
    second: &Arc<PathSum>,
    moves: &mut Vec<Move>,
    stop: &mut S,
) -> Result<Part, AllocError>
    requires ready { Joinable first.now.value second.now.value }
    ensures part { IfOk result (λ p. PartIs (Joins places.from places.middle places.to first.now.value second.now.value moves.old.items) moves.new.items p) }
    ensures stopped { IfOk result (λ p. PartRose (S.yeses stop.old) (S.yeses stop.new) p) }
{
    let mut steps = Vec::new(alloc);
    match join(alloc, first, second) {
        Ok(sum) => {
            let ended = reduce(alloc, sum, &mut steps, stop)?;
            ended_part(alloc, places, Move::Join, ended, moves, &steps)
        }
        Err(JoinFault::Passed(passed)) => {
            let second = Arc::try_clone(second)?;
            let first = Arc::try_clone(first)?;
            Ok(Part::Over(shared_evidence(passed, places, first, Some(second))))
        }
        Err(JoinFault::Memory) => Err(AllocError),
    }
}

// The record of what two segments came to.
fn joined_record(
    alloc: Global,
    n: u32,
    items: Arc<Items>,
    moves: Vec<Move>,
    part: Part,
) -> Result<Filled, AllocError>
    requires width { (1 ≤ n) × (n ≤ 64) }
    requires run { CanRun n items.value }
    requires right { ∥ IsJoinedPart n (run_of items.value) moves.items part ∥₁ }
    ensures filled { IfOk result (λ f. (from middle to : ℕ) (S1 S2 : PathSum) (ms : List Move) → PartIs (Joins from middle to S1 S2 ms) moves.items part → IsFilledAs n items.value (Joins from middle to S1 S2 ms) f) }
    ensures stopped { IfOk result (λ f. (old new : ℕ) → PartRose old new part → FilledRose old new f) }
{
    match part {
        Part::Sum(sum) => {
            let body = Body::Sum(Arc::new(alloc, sum.settled()?)?);
            Ok(Filled::Done(record(n, items, moves, body)))
        }
        Part::Over(evidence) => Ok(Filled::Done(record(n, items, moves, Body::Passed(evidence)))),
        Part::Stopped => Ok(Filled::Stopped),
    }
}

/// The record of two segments that have normal sums, one after the other.
pub fn fill_children<S: Stop>(
    alloc: Global,
    n: u32,
    first: &Record,
    second: &Record,
    stop: &mut S,
) -> Result<Filled, AllocError>
    requires width { (1 ≤ n) × (n ≤ 64) }
    requires both { CanJoin n first.now second.now }
    ensures filled { IfOk result (λ f. IsFilledBoth n first.now second.now f) }
    ensures stopped { IfOk result (λ f. FilledRose (S.yeses stop.old) (S.yeses stop.new) f) }
{
    let items = both_items(alloc, &first.items, &second.items)?;
    let middle = prim_count(&first.items);
    let behind = prim_count(&second.items);
    let mut moves = Vec::from_slice(alloc, first.moves.as_slice())?;
    push_raised(&mut moves, second.moves.as_slice(), middle)?;
    let places = Places {
        from: 0,
        middle,
        to: middle + behind,
    };
    let part = join_sums(
        alloc,
        places,
        sum_of(first),
        sum_of(second),
        &mut moves,
        stop,
    )?;
    joined_record(alloc, n, Arc::new(alloc, items)?, moves, part)
}
