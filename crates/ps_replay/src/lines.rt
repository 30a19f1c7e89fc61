//! What each line of a derivation does.

ghost use Rattle.std.specs.Prelude.{◌≡◌, ℕ, ◌≤◌, List, length, IfOk};
ghost use Rattle.ps_prim.specs.declared.prims.Primitive.{Primitive as Prim};
ghost use Rattle.ps_prim.specs.Maps.{AllWithin};
ghost use Rattle.ps_steps.specs.declared.lines.Line.TheVariants.{Head, Leaf, Id, Join, Rewrite, Overlap, End};
ghost use Rattle.ps_steps.specs.Holding.{side_of, Does};
ghost use Rattle.ps_replay.specs.Places.{stack};
ghost use Rattle.ps_replay.specs.Stacks.{Takes, SidedAbove, IsOrderly};

use super::held::{Held, Place, Stretch};
use super::placing::{all_sided, is_overlap, is_whole, together};
use super::replayed::Why;
use ps_join::{OntoFault, identity, join_onto, leaf};
use ps_overlap::overlap;
use ps_prim::Prim;
use ps_rules::{Refused, Step, rewrite};
use ps_steps::Line;
use ps_sum::JoinFault;
use std::alloc::{AllocError, Global};

// The prims of a side.
fn side<'a>(b: bool, first: &'a [Prim], second: &'a [Prim]) -> &'a [Prim]
    ensures { result.now ≡ side_of b first.now second.now }
{
    if b { second } else { first }
}

// The sum of a prim of a side.
fn leaf_line(
    alloc: Global,
    n: u32,
    b: bool,
    prims: &[Prim],
    prim: u32,
    held: &mut Vec<Held>,
) -> Result<Option<Why>, AllocError>
    requires width { (1 ≤ n) × (n ≤ 64) }
    requires within { AllWithin n prims.now }
    requires few { length prims.now ≤ 268435456 }
    requires above { SidedAbove (stack held.old.items) }
    ensures { IfOk result (λ w. (A B : List Prim) → prims.now ≡ side_of b A B → Takes n A B (Leaf b prim) (stack held.old.items) (stack held.new.items) w) }
{
    let at = prim as usize;
    if at >= prims.len() || !all_sided(held) {
        return Ok(Some(Why::Order));
    }
    let gate = &prims[at];
    let sum = leaf(alloc, gate, n)?;
    let stretch = Stretch::Span {
        from: prim,
        to: prim + 1,
    };
    held.push(Held {
        place: Place::Side { b, stretch },
        sum,
    })?;
    Ok(None)
}

// The sum of no prim.
fn id_line(alloc: Global, n: u32, b: bool, held: &mut Vec<Held>) -> Result<Option<Why>, AllocError>
    requires width { (1 ≤ n) × (n ≤ 64) }
    ensures { IfOk result (λ w. (A B : List Prim) → Takes n A B (Id b) (stack held.old.items) (stack held.new.items) w) }
{
    let sum = identity(alloc, n)?;
    held.push(Held {
        place: Place::Side {
            b,
            stretch: Stretch::Empty,
        },
        sum,
    })?;
    Ok(None)
}

// The last two sums, one after the other.
fn join_line(alloc: Global, held: &mut Vec<Held>) -> Result<Option<Why>, AllocError>
    requires { IsOrderly (stack held.old.items) }
    ensures { IfOk result (λ w. (n : ℕ) (A B : List Prim) → Takes n A B Join (stack held.old.items) (stack held.new.items) w) }
{
    let second = match held.pop() {
        Some(second) => second,
        None => return Ok(Some(Why::Order)),
    };
    let first = match held.pop() {
        Some(first) => first,
        None => return Ok(Some(Why::Order)),
    };
    if !all_sided(held) {
        return Ok(Some(Why::Order));
    }
    let place = match together(first.place, second.place) {
        Some(place) => place,
        None => return Ok(Some(Why::Order)),
    };
    match join_onto(alloc, first.sum, &second.sum) {
        Ok(sum) => {
            held.push(Held { place, sum })?;
            Ok(None)
        }
        Err(OntoFault::Passed { .. }) => Ok(Some(Why::Limit)),
        Err(OntoFault::Memory) => Err(AllocError),
    }
}

// A step of rewriting the last sum.
fn step_line(alloc: Global, step: Step, held: &mut Vec<Held>) -> Result<Option<Why>, AllocError>
    requires { IsOrderly (stack held.old.items) }
    ensures { IfOk result (λ w. (n : ℕ) (A B : List Prim) → Takes n A B (Rewrite step) (stack held.old.items) (stack held.new.items) w) }
{
    let last = match held.pop() {
        Some(last) => last,
        None => return Ok(Some(Why::Order)),
    };
    let place = last.place;
    match rewrite(alloc, last.sum, step) {
        Ok(sum) => {
            held.push(Held { place, sum })?;
            Ok(None)
        }
        Err(Refused::NotARedex(_)) => Ok(Some(Why::Redex)),
        Err(Refused::Passed { .. }) => Ok(Some(Why::Limit)),
        Err(Refused::Memory) => Err(AllocError),
    }
}

// The overlap of the sums of both sides.
fn overlap_line(
    alloc: Global,
    first: &[Prim],
    second: &[Prim],
    held: &mut Vec<Held>,
) -> Result<Option<Why>, AllocError>
    requires { IsOrderly (stack held.old.items) }
    ensures { IfOk result (λ w. (n : ℕ) → Takes n first.now second.now Overlap (stack held.old.items) (stack held.new.items) w) }
{
    let behind = match held.pop() {
        Some(behind) => behind,
        None => return Ok(Some(Why::Order)),
    };
    let before = match held.pop() {
        Some(before) => before,
        None => return Ok(Some(Why::Order)),
    };
    if !held.is_empty()
        || !is_whole(before.place, false, first)
        || !is_whole(behind.place, true, second)
    {
        return Ok(Some(Why::Order));
    }
    match overlap(alloc, &before.sum, &behind.sum) {
        Ok(sum) => {
            held.push(Held {
                place: Place::Both,
                sum,
            })?;
            Ok(None)
        }
        Err(JoinFault::Passed(_)) => Ok(Some(Why::Limit)),
        Err(JoinFault::Memory) => Err(AllocError),
    }
}

// The end, which stands where the overlap alone is left.
fn end_line(held: &[Held]) -> Option<Why>
    ensures { (n : ℕ) (A B : List Prim) → Takes n A B End (stack held.now) (stack held.now) result }
{
    if held.len() != 1 {
        return Some(Why::Order);
    }
    let only = &held[0];
    if is_overlap(only.place) {
        None
    } else {
        Some(Why::Order)
    }
}

/// Takes a line, or tells why it fails; the sums are then of no use. `AllocError` is want of memory.
pub fn take_line(
    alloc: Global,
    n: u32,
    first: &[Prim],
    second: &[Prim],
    line: &Line,
    held: &mut Vec<Held>,
) -> Result<Option<Why>, AllocError>
    requires width { (1 ≤ n) × (n ≤ 64) }
    requires first_within { AllWithin n first.now }
    requires second_within { AllWithin n second.now }
    requires first_few { length first.now ≤ 268435456 }
    requires second_few { length second.now ≤ 268435456 }
    requires orderly { IsOrderly (stack held.old.items) }
    requires head { (number : ℕ) → line.now ≡ Head number → number ≡ 1 }
    ensures { IfOk result (λ w. Takes n first.now second.now line.now (stack held.old.items) (stack held.new.items) w) }
{
    match *line {
        Line::Head(_) => Ok(None),
        Line::Leaf { b, prim } => leaf_line(alloc, n, b, side(b, first, second), prim, held),
        Line::Id { b } => id_line(alloc, n, b, held),
        Line::Join => join_line(alloc, held),
        Line::Rewrite(step) => step_line(alloc, step, held),
        Line::Overlap => overlap_line(alloc, first, second, held),
        Line::End => Ok(end_line(held)),
    }
}
