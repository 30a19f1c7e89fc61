//! The one output that a gate changes, put among those of the sum before it.

ghost use Rattle.std.specs.Prelude.{◌≡◌, ℕ, ◌<◌, ◌≤◌, List, Some, [], length, get_or, set, IfOk};
ghost use Rattle.ps_join.specs.Changing.{NoLonger};
ghost use Rattle.ps_join.specs.Placing.{IsFlipOf, IsInside, IsPut, place_of};

use ps_bool::BoolPoly;
use std::alloc::{AllocError, Global};
use std::mem;

// The output that changes behind a sum, with its place.
#[derive(Drop)]
pub(crate) enum Output {
    // None of them.
    Same,
    // Output `q` is 1 where it was 0.
    Flipped { q: u16 },
    // Output `q` is this polynomial.
    Put { q: u16, poly: BoolPoly },
}

impl Output {
    // The place of the output that changes.
    pub(crate) fn place(&self) -> Option<u32>
        ensures { result ≡ place_of self.now }
    {
        match self {
            Output::Same => None,
            Output::Flipped { q } => Some(u32::from(*q)),
            Output::Put { q, .. } => Some(u32::from(*q)),
        }
    }
}

// The outputs, of which output `q` is 1 where it was 0.
fn with_flip(alloc: Global, outs: Vec<BoolPoly>, q: u16) -> Result<Vec<BoolPoly>, AllocError>
    requires { q < length outs.items }
    ensures { IfOk result (λ r. (g : List (List ℕ)) × (IsFlipOf (get_or outs.items q []) g × (r.items ≡ set outs.items q g))) }
{
    let mut outs = outs;
    let old = mem::replace(&mut outs[q as usize], BoolPoly::zero(alloc));
    let poly = old.flipped()?;
    outs[q as usize] = poly;
    Ok(outs)
}

// The outputs with the one that changes in its place.
pub(crate) fn placed(
    alloc: Global,
    outs: Vec<BoolPoly>,
    output: Output,
) -> Result<Vec<BoolPoly>, AllocError>
    requires { IsInside (length outs.items) output }
    ensures { IfOk result (λ r. IsPut outs.items output r.items) }
{
    let mut outs = outs;
    match output {
        Output::Same => Ok(outs),
        Output::Flipped { q } => with_flip(alloc, outs, q),
        Output::Put { q, poly } => {
            outs[q as usize] = poly;
            Ok(outs)
        }
    }
}

// How many monomials the longest output has.
pub(crate) fn longest(outs: &[BoolPoly]) -> u64
    ensures { NoLonger result outs.now }
{
    let mut most = 0;
    for output in outs {
        most = most.max(output.count());
    }
    most
}

// How many the longest has at most, where it was so many before the one at this place changed.
pub(crate) fn longest_with(before: u64, outs: &[BoolPoly], place: Option<u32>) -> u64
    requires { (q : ℕ) → place ≡ Some q → q < length outs.now }
    ensures before { before ≤ result }
    ensures there { (q : ℕ) → place ≡ Some q → length (get_or outs.now q []) ≤ result }
{
    match place {
        None => before,
        Some(q) => before.max(outs[q as usize].count()),
    }
}
