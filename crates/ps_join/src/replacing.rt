ghost use Rattle.std.specs.Prelude.{◌≡◌, ℕ, ◌<◌, ◌≤◌, ◌+◌, ◌%◌, Bool, true, false, not, nat_eq, ◌&&◌, ◌||◌, ◌↔◌, Option, Some, None, [], ◌∷◌, length, get_or, IsTrue, IfOk, IfErr, IfSome, OnOk};
ghost use Rattle.ps_bool.specs.Polys.{occurs, IsPoly};
ghost use Rattle.ps_phase.specs.Phases.{phase_occurs, IsPhasePoly};
ghost use Rattle.ps_sum.specs.Counts.{raw_phase as raw_phase_count, raw_bool as raw_bool_count};
ghost use Rattle.ps_sum.specs.Forms.{AllPolys};
ghost use Rattle.ps_sum.specs.Outs.{outs_occur};
ghost use Rattle.ps_join.specs.Joining.{PhaseAfter, BoolAfter, PhaseChain, OutputChain, OutputChains, told};
ghost use Rattle.ps_join.specs.Faults.{IsOver, IsChainFault};
ghost use Rattle.ps_join.specs.Parts.{PhasePart, BoolPart, OutputPart, OutputParts, IsPair};

use super::limits::{MOST_TERMS, SHORT};
use super::naming::{Names, bool_support, named_bool, named_phase, phase_support};
use ps_bool::BoolPoly;
use ps_mono::Mono;
use ps_phase::PhasePoly;
use ps_sum::{JoinFault, Passed, What, raw_bool, raw_phase, subst_phase};
use std::alloc::{AllocError, Global};

// Counts are told as this number where they are above it.
const CAP: u64 = 1_000_000_000_000;

// Whether no more terms are made than are allowed.
fn within(count: u64) -> Result<(), JoinFault>
    ensures fits { OnOk result (count ≤ 65536) }
    ensures over { IfErr result (λ e. IsOver count e) }
{
    if count > MOST_TERMS {
        Err(JoinFault::Passed(Passed {
            what: What::Terms,
            count: count.min(CAP),
        }))
    } else {
        Ok(())
    }
}

// How many terms `by` in place of variable `v` makes, told as 10^12 where there are more; `may` tells
// whether `v` may stand in the polynomial. Where it does not, each term stays.
fn made_in_phase(poly: &PhasePoly, v: u16, by: &BoolPoly, may: bool) -> u64
    requires small { v < 512 }
    requires free { may ≡ false → phase_occurs v poly.now ≡ false }
    ensures { result ≡ told (raw_phase_count v (length by.now) poly.now) }
{
    if may {
        raw_phase(poly, v, by)
    } else {
        poly.count().min(CAP)
    }
}

// `by` in place of variable `v`; `may` tells whether `v` may stand in the polynomial.
fn replace_phase(
    alloc: Global,
    poly: PhasePoly,
    v: u16,
    by: &BoolPoly,
    may: bool,
) -> Result<PhasePoly, JoinFault>
    requires small { v < 512 }
    requires form { IsPhasePoly poly }
    requires free { may ≡ false → phase_occurs v poly ≡ false }
    ensures fits { OnOk result (raw_phase_count v (length by.now) poly ≤ 65536) }
    ensures after { IfOk result (λ q. PhaseAfter v by.now poly q) }
    ensures variables { IfOk result (λ q. (u : ℕ) → phase_occurs u q ≡ true → ((phase_occurs u poly && not (nat_eq u v)) || occurs u by.now) ≡ true) }
    ensures over { IfErr result (λ e. IsOver (raw_phase_count v (length by.now) poly) e) }
{
    within(made_in_phase(&poly, v, by, may))?;
    if !may {
        return Ok(poly);
    }
    Ok(subst_phase(alloc, &poly, v, by)?)
}

/// The phase of the second sum with the first's outputs for its inputs, one after the other.
pub(crate) fn replaced_phase(
    alloc: Global,
    names: &Names,
    poly: &PhasePoly,
    outs: &[BoolPoly],
) -> Result<PhasePoly, JoinFault>
    requires below { (v : ℕ) → names.now.n + names.now.m2 ≤ v → phase_occurs v poly.now ≡ false }
    requires wide { length outs.now ≡ names.now.n }
    requires outs_below { (v : ℕ) → names.now.n + names.now.m1 ≤ v → outs_occur v outs.now ≡ false }
    ensures part { IfOk result (λ q. PhasePart names.now.n names.now.m1 names.now.m2 outs.now poly.now q) }
    ensures fits { OnOk result (PhaseChain names.now.n names.now.m1 names.now.m2 outs.now poly.now None) }
    ensures over { IfErr result (λ e. IsChainFault (PhaseChain names.now.n names.now.m1 names.now.m2 outs.now poly.now) e) }
{
    let support = phase_support(poly);
    let mut phase = named_phase(alloc, names, poly)?;
    for input in 0..names.n {
        let own = names.own(input);
        let by = &outs[input as usize];
        let may = support.contains(input);
        phase = match replace_phase(alloc, phase, own, by, may) {
            Ok(replaced) => replaced,
            Err(fault) => return Err(fault),
        };
    }
    Ok(phase)
}

// How many monomials `by` in place of variable `v` makes, as in a phase.
fn made_in_bool(poly: &BoolPoly, v: u16, by: &BoolPoly, may: bool) -> u64
    requires small { v < 512 }
    requires free { may ≡ false → occurs v poly.now ≡ false }
    ensures { result ≡ told (raw_bool_count v (length by.now) poly.now) }
{
    if may {
        raw_bool(poly, v, by)
    } else {
        poly.count().min(CAP)
    }
}

// `by` in place of variable `v`; `may` tells whether `v` may stand in the polynomial.
fn replace_bool(poly: BoolPoly, v: u16, by: &BoolPoly, may: bool) -> Result<BoolPoly, JoinFault>
    requires small { v < 512 }
    requires form { IsPoly poly }
    requires free { may ≡ false → occurs v poly ≡ false }
    ensures fits { OnOk result (raw_bool_count v (length by.now) poly ≤ 65536) }
    ensures after { IfOk result (λ q. BoolAfter v by.now poly q) }
    ensures variables { IfOk result (λ q. (u : ℕ) → occurs u q ≡ true → ((occurs u poly && not (nat_eq u v)) || occurs u by.now) ≡ true) }
    ensures over { IfErr result (λ e. IsOver (raw_bool_count v (length by.now) poly) e) }
{
    within(made_in_bool(&poly, v, by, may))?;
    if !may {
        return Ok(poly);
    }
    Ok(poly.subst(v, by)?)
}

// An output of the second sum with the first's outputs for its inputs, one after the other.
fn replaced_bool(
    alloc: Global,
    names: &Names,
    poly: &BoolPoly,
    outs: &[BoolPoly],
) -> Result<BoolPoly, JoinFault>
    requires below { (v : ℕ) → names.now.n + names.now.m2 ≤ v → occurs v poly.now ≡ false }
    requires wide { length outs.now ≡ names.now.n }
    requires outs_below { (v : ℕ) → names.now.n + names.now.m1 ≤ v → outs_occur v outs.now ≡ false }
    ensures part { IfOk result (λ q. BoolPart names.now.n names.now.m1 names.now.m2 outs.now poly.now q) }
    ensures fits { OnOk result (OutputChain names.now.n names.now.m1 names.now.m2 outs.now poly.now None) }
    ensures over { IfErr result (λ e. IsChainFault (OutputChain names.now.n names.now.m1 names.now.m2 outs.now poly.now) e) }
{
    let support = bool_support(poly);
    let mut output = named_bool(alloc, names, poly)?;
    for input in 0..names.n {
        let own = names.own(input);
        let by = &outs[input as usize];
        let may = support.contains(input);
        output = match replace_bool(output, own, by, may) {
            Ok(replaced) => replaced,
            Err(fault) => return Err(fault),
        };
    }
    Ok(output)
}

// Whether the output is input `i` alone.
pub(crate) fn is_input(poly: &BoolPoly, i: u16) -> bool
    requires { i < 512 }
    ensures { IsTrue result ↔ (poly.now ≡ (i ∷ []) ∷ []) }
{
    poly.count() == 1 && *poly.mono(0) == Mono::var(i)
}

// The two inputs below `n` whose sum the polynomial is, the lesser first.
fn two_inputs(poly: &BoolPoly, n: u16) -> Option<(u16, u16)>
    ensures { IfSome result (λ p. IsPair n poly.now p.0 p.1) }
{
    if poly.count() != 2 {
        return None;
    }
    let first = poly.mono(0);
    let second = poly.mono(1);
    if first.degree() != 1 || second.degree() != 1 {
        return None;
    }
    let low = first.var_at(0);
    let high = second.var_at(0);
    if low < high && high < n {
        Some((low, high))
    } else {
        None
    }
}

// The sum of two outputs of the first sum, where an output of the second is that of two inputs and both
// are short; `None` else.
fn added_outputs(
    names: &Names,
    poly: &BoolPoly,
    outs: &[BoolPoly],
) -> Result<Option<BoolPoly>, AllocError>
    requires wide { length outs.now ≡ names.now.n }
    requires outs_below { (v : ℕ) → names.now.n + names.now.m1 ≤ v → outs_occur v outs.now ≡ false }
    requires formed { AllPolys outs.now }
    ensures part { IfOk result (λ r. IfSome r (λ q. BoolPart names.now.n names.now.m1 names.now.m2 outs.now poly.now q)) }
    ensures fits { IfOk result (λ r. IfSome r (λ q. OutputChain names.now.n names.now.m1 names.now.m2 outs.now poly.now None)) }
{
    let Some((low, high)) = two_inputs(poly, names.n) else {
        return Ok(None);
    };
    let first = &outs[low as usize];
    let second = &outs[high as usize];
    if first.count() < SHORT && second.count() < SHORT {
        let sum = first.xor(second)?;
        return Ok(Some(sum));
    }
    Ok(None)
}

// Output `i` of the second sum, as `replaced_bool` gives it; `None` where it is its input, so that
// the first's output stays. Such an output is not looked at further: of its replacements only that
// of its input makes more than one term, and those are the terms of the first's output.
fn replaced_output(
    alloc: Global,
    names: &Names,
    i: u16,
    poly: &BoolPoly,
    outs: &[BoolPoly],
) -> Result<Option<BoolPoly>, JoinFault>
    requires inside { i < names.now.n }
    requires below { (v : ℕ) → names.now.n + names.now.m2 ≤ v → occurs v poly.now ≡ false }
    requires wide { length outs.now ≡ names.now.n }
    requires outs_below { (v : ℕ) → names.now.n + names.now.m1 ≤ v → outs_occur v outs.now ≡ false }
    requires formed { AllPolys outs.now }
    ensures part { IfOk result (λ q. OutputPart names.now.n names.now.m1 names.now.m2 outs.now i poly.now q) }
    ensures fits { OnOk result (OutputChain names.now.n names.now.m1 names.now.m2 outs.now poly.now None) }
    ensures over { IfErr result (λ e. IsChainFault (OutputChain names.now.n names.now.m1 names.now.m2 outs.now poly.now) e) }
{
    if is_input(poly, i) {
        let output = &outs[i as usize];
        return match within(output.count()) {
            Ok(()) => Ok(None),
            Err(fault) => Err(fault),
        };
    }
    match added_outputs(names, poly, outs)? {
        Some(output) => return Ok(Some(output)),
        None => {}
    }
    match replaced_bool(alloc, names, poly, outs) {
        Ok(output) => Ok(Some(output)),
        Err(fault) => Err(fault),
    }
}

/// The outputs of the second sum with the first's outputs for its inputs; `None` for each that is
/// its input, so that the first's output stays.
pub(crate) fn replaced_outputs(
    alloc: Global,
    names: &Names,
    polys: &[BoolPoly],
    outs: &[BoolPoly],
) -> Result<Vec<Option<BoolPoly>>, JoinFault>
    requires below { (v : ℕ) → names.now.n + names.now.m2 ≤ v → outs_occur v polys.now ≡ false }
    requires second_wide { length polys.now ≡ names.now.n }
    requires wide { length outs.now ≡ names.now.n }
    requires outs_below { (v : ℕ) → names.now.n + names.now.m1 ≤ v → outs_occur v outs.now ≡ false }
    requires formed { AllPolys outs.now }
    ensures parts { IfOk result (λ q. OutputParts names.now.n names.now.m1 names.now.m2 outs.now polys.now q.items) }
    ensures fits { OnOk result (OutputChains names.now.n names.now.m1 names.now.m2 outs.now polys.now None) }
    ensures over { IfErr result (λ e. IsChainFault (OutputChains names.now.n names.now.m1 names.now.m2 outs.now polys.now) e) }
{
    let mut parts = Vec::with_capacity(alloc, polys.len())?;
    for i in 0..names.n {
        let poly = &polys[i as usize];
        let part = match replaced_output(alloc, names, i, poly, outs) {
            Ok(part) => part,
            Err(fault) => return Err(fault),
        };
        let Ok(()) = parts.push(part) else {
            return Err(JoinFault::Memory);
        };
    }
    Ok(parts)
}
