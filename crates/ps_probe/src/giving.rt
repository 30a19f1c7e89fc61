//! Whether two segments are one linear map where some inputs are fixed.

ghost use Rattle.std.specs.Prelude.{◌≡◌, ◌≤◌, ◌<◌, ℕ, [], ◌↔◌, IsTrue, IfOk};
ghost use Rattle.ps_mono.specs.Sets.{stands, IsVarSet};
ghost use Rattle.ps_overlap.specs.Overlapping.{NoneVanishes};
ghost use Rattle.ps_reach.specs.Runs.{run_of};
ghost use Rattle.ps_reach.specs.Parts.{overrun_of};
ghost use Rattle.ps_reach.specs.Judging.{outcome_of};
ghost use Rattle.ps_reach.specs.Findings.{IsUnit};
ghost use Rattle.ps_normal.specs.Comparing.{HasFloor, Comparable};
ghost use Rattle.ps_probe.specs.Patterns.{set_by, IsFilled};
ghost use Rattle.ps_probe.specs.Giving.{found_by, ShowsGiven, GivesOverlap, Gives, IsGivenJustified, EndsGiven};

use super::ending::Ending;
use super::evidences::{of_overlap, of_step, shared};
use super::finding::Given;
use super::pattern::Pattern;
use super::reducing::reduce;
use super::restricting::restrict;
use super::searching::first_other;
use ps_mono::{Bits, Mono};
use ps_overlap::{first_point, least_point, overlap, vanishing};
use ps_reach::{Body, Record};
use ps_sum::{JoinFault, PathSum};
use std::alloc::{AllocError, Global};
use std::sync::Arc;

// The most free inputs and path variables, together, that are counted.
const MOST: u32 = 16;

// The input with the fixed ones put in.
fn filled(at: &Bits, pattern: &Pattern) -> Bits
    requires { pattern.now.len ≤ 64 }
    ensures { IsFilled pattern.now at.now result }
{
    // That the bits are in their one form.
    let _known = Mono::of_bits(at);
    let mut bits = *at;
    for i in 0..pattern.len {
        if pattern.is_fixed(i) {
            bits.set(i as u16, pattern.is_one(i));
        }
    }
    bits
}

// Whether a sum without path variables is 1.
fn is_unit(sum: &PathSum) -> bool
    requires { sum.now.m ≡ 0 }
    ensures { IsTrue result ↔ IsUnit sum.now }
{
    sum.k == 0 && sum.phase.count() == 0
}

// What an irreducible closed sum without path variables shows.
fn plainly_shown(sum: &PathSum, pattern: &Pattern) -> Given
    requires plain { sum.now.m ≡ 0 }
    requires inputs { pattern.now.len ≡ sum.now.n }
    ensures { ShowsGiven pattern.now sum.now (found_by result) }
{
    if is_unit(sum) {
        return Given::Yes;
    }
    let mut at = Bits::zero();
    first_point(sum, &mut at);
    Given::No(filled(&at, pattern))
}

// What a closed sum in which no path variable vanishes shows.
fn counted(alloc: Global, sum: PathSum, pattern: &Pattern) -> Result<Given, AllocError>
    requires inputs { pattern.now.len ≡ sum.n }
    requires closed { sum.outs ≡ [] }
    requires some { 0 < sum.m }
    requires none { NoneVanishes sum }
    ensures { IfOk result (λ g. ShowsGiven pattern.now sum (found_by g)) }
{
    if pattern.free() + sum.m > MOST {
        return Ok(Given::Left(sum));
    }
    match first_other(alloc, &sum, pattern, Bits::zero(), 0)? {
        None => Ok(Given::Yes),
        Some(at) => Ok(Given::No(at)),
    }
}

// What an irreducible closed sum shows.
fn shown(alloc: Global, sum: PathSum, pattern: &Pattern) -> Result<Given, AllocError>
    requires inputs { pattern.now.len ≡ sum.n }
    requires closed { sum.outs ≡ [] }
    ensures { IfOk result (λ g. ShowsGiven pattern.now sum (found_by g)) }
{
    if sum.m == 0 {
        return Ok(plainly_shown(&sum, pattern));
    }
    match vanishing(&sum) {
        Some(y) => {
            let mut at = Bits::zero();
            least_point(&sum, y, &mut at);
            Ok(Given::No(filled(&at, pattern)))
        }
        None => counted(alloc, sum, pattern),
    }
}

// What reducing a closed sum comes to.
fn reduced(alloc: Global, sum: PathSum, pattern: &Pattern) -> Result<Given, AllocError>
    requires inputs { pattern.now.len ≡ sum.n }
    requires closed { sum.outs ≡ [] }
    requires floor { HasFloor sum }
    ensures { IfOk result (λ g. EndsGiven pattern.now sum (found_by g)) }
{
    match reduce(alloc, sum)? {
        Ending::Normal(sum) => shown(alloc, sum, pattern),
        Ending::Over { passed, sum } => Ok(Given::Passed(of_step(alloc, passed, sum)?)),
    }
}

// What comparing two sums finds.
fn overlapped(
    alloc: Global,
    first: &Arc<PathSum>,
    second: &Arc<PathSum>,
    pattern: &Pattern,
) -> Result<Given, AllocError>
    requires sums { Comparable first.now.value second.now.value }
    requires inputs { pattern.now.len ≡ first.now.value.n }
    ensures { IfOk result (λ g. GivesOverlap pattern.now first.now.value second.now.value (found_by g)) }
{
    match overlap(alloc, first, second) {
        Ok(sum) => {
            let sum = restrict(alloc, &sum, pattern)?;
            reduced(alloc, sum, pattern)
        }
        Err(JoinFault::Passed(passed)) => Ok(Given::Passed(of_overlap(passed, first, second)?)),
        Err(JoinFault::Memory) => Err(AllocError),
    }
}

/// Compares two records on the same qubits at the inputs that match a pattern.
///
/// Where a record has a limit passed, that of the first such record is told. Else the overlap of the two sums has its
/// fixed inputs set, and is reduced; a limit that is passed on the way is told. Where no path variable is left they
/// are one map on these inputs exactly where the overlap has come to 1, and else differ at the first point with the
/// fixed inputs put in. Where one vanishes they differ at its least point, filled in the same way. Else, where the
/// free inputs and the path variables are together at most 16, the sum is counted at every input that matches, in
/// ascending order, input 0 being the highest digit; they differ at the first at which it isn't 1, and are one map on
/// these inputs where there is none. Where they are together above 16, the sum is what is left. `AllocError` is
/// want of memory.
///
/// Condition: the pattern has as many inputs as there are qubits.
pub fn given(
    alloc: Global,
    first: &Arc<Record>,
    second: &Arc<Record>,
    pattern: &Pattern,
) -> Result<Given, AllocError>
    requires same { first.now.value.n ≡ second.now.value.n }
    requires inputs { pattern.now.len ≡ first.now.value.n }
    ensures found { IfOk result (λ g. Gives pattern.now (outcome_of first.now.value) (outcome_of second.now.value) (found_by g)) }
    ensures justified { IfOk result (λ g. ∥ IsGivenJustified first.now.value.n (run_of first.now.value.items.value) (run_of second.now.value.items.value) pattern.now (found_by g) ∥₁) }
{
    let _first = first.items.as_slice();
    let _second = second.items.as_slice();
    match &first.body {
        Body::Passed(evidence) => Ok(Given::Passed(shared(evidence)?)),
        Body::Sum(before) => match &second.body {
            Body::Passed(evidence) => Ok(Given::Passed(shared(evidence)?)),
            Body::Sum(behind) => overlapped(alloc, before, behind, pattern),
        },
    }
}
