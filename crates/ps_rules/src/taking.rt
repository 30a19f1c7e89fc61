ghost use Rattle.std.specs.Prelude.{◌≡◌, ℕ, ◌<◌, ◌+◌, ◌%◌, Bool, true, false, not, ◌&&◌, nat_eq, negsuc, pos, ◌+ℤ◌, ◌≤ℤ◌, length, IfOk, OnOk};
ghost use Rattle.ps_mono.specs.Truth.{times, with_value};
ghost use Rattle.ps_phase.specs.Phases.{phase_value, phase_occurs, IsPhasePoly};
ghost use Rattle.ps_rules.specs.Closing.{IsReplaced};
ghost use Rattle.ps_bool.specs.Polys.{bool_value, occurs};
ghost use Rattle.ps_sum.specs.Forms.{AllPolys};
ghost use Rattle.ps_sum.specs.Outs.{values, outs_occur};
ghost use Rattle.ps_rules.specs.Rules.{Applies, ElimApplies, HhApplies, OmegaApplies, Applied, ElimApplied, HhApplied, OmegaApplied};
ghost use Rattle.ps_rules.specs.Plans.{IsQuotient, IsInto};

use super::parts::Parts;
use super::settling::{closed_outs, closed_outs_twice, closed_phase, closed_phase_twice};
use super::steps::Step;
use ps_bool::BoolPoly;
use ps_mono::Closing;
use ps_phase::PhasePoly;
use ps_ring::Phase;
use ps_sum::{Outputs, PathSum, lift, subst_phase};
use std::alloc::{AllocError, Global};

// An eighth of a turn, and three quarters.
const EIGHTH: u32 = 536870912;

const THREE_QUARTERS: u32 = 3221225472;

/// The sum after a step that applies, where these are its parts. It works in place: only the
/// terms with a variable of the step are taken out and multiplied, and names close up as they stand.
/// `AllocError` is want of memory.
pub fn taken(alloc: Global, sum: PathSum, step: Step, parts: &Parts) -> Result<PathSum, AllocError>
    requires applies { Applies sum step }
    requires quotient { IsQuotient sum step parts.now.poly }
    requires into { IsInto sum step parts.now.into }
    requires scale { negsuc 1999999997 ≤ℤ sum.k }
    ensures { IfOk result (λ s. Applied sum step s) }
{
    match step {
        Step::Elim { y0 } => Ok(eliminated(alloc, sum, y0)),
        Step::Hh { y0, y1 } => replaced(alloc, sum, y0, y1, parts),
        Step::Omega { y0 } => quartered(alloc, sum, y0, &parts.poly),
    }
}

// The scale after a step that takes two powers of the root of 2 away.
fn two_less(k: i32) -> i32
    requires { negsuc 1999999997 ≤ℤ k }
    ensures { result +ℤ pos 2 ≡ k }
{
    k - 2
}

// The same of one power.
fn one_less(k: i32) -> i32
    requires { negsuc 1999999997 ≤ℤ k }
    ensures { result +ℤ pos 1 ≡ k }
{
    k - 1
}

fn eliminated(alloc: Global, sum: PathSum, y0: u16) -> PathSum
    requires applies { ElimApplies sum y0 }
    requires scale { negsuc 1999999997 ≤ℤ sum.k }
    ensures { ElimApplied sum y0 result }
{
    let gone = Closing::within(sum.n as u16 + y0, (sum.n + sum.m) as u16);
    let PathSum {
        n,
        m,
        k,
        phase,
        outs,
    } = sum;
    PathSum {
        n,
        m: m - 1,
        k: two_less(k),
        phase: closed_phase(phase, gone),
        outs: closed_outs(alloc, outs, gone),
    }
}

fn quartered(alloc: Global, sum: PathSum, y0: u16, poly: &BoolPoly) -> Result<PathSum, AllocError>
    requires applies { OmegaApplies sum y0 }
    requires quotient { IsQuotient sum (Step.Omega y0) poly.now }
    requires scale { negsuc 1999999997 ≤ℤ sum.k }
    ensures { IfOk result (λ s. OmegaApplied sum y0 s) }
{
    let gone = Closing::within(sum.n as u16 + y0, (sum.n + sum.m) as u16);
    let extra = closed_phase(eighth_turn(alloc, poly)?, gone);
    let PathSum {
        n,
        m,
        k,
        phase,
        outs,
    } = sum;
    let mut phase = closed_phase(phase, gone);
    phase.add_to(&extra)?;
    Ok(PathSum {
        n,
        m: m - 1,
        k: one_less(k),
        phase,
        outs: closed_outs(alloc, outs, gone),
    })
}

// An eighth of a turn, and three quarters more where the polynomial is 1.
fn eighth_turn(alloc: Global, poly: &BoolPoly) -> Result<PhasePoly, AllocError>
    ensures value { IfOk result (λ p. (a : ℕ → Bool) → phase_value p a % 4294967296 ≡ (536870912 + times (bool_value poly.now a) 3221225472) % 4294967296) }
    ensures variables { IfOk result (λ p. (u : ℕ) → occurs u poly.now ≡ false → phase_occurs u p ≡ false) }
    ensures form { IfOk result (λ p. IsPhasePoly p) }
{
    let mut extra = lift(alloc, poly, Phase::of(THREE_QUARTERS))?;
    extra.add_to(&PhasePoly::constant(alloc, Phase::of(EIGHTH))?)?;
    Ok(extra)
}

fn replaced(
    alloc: Global,
    sum: PathSum,
    y0: u16,
    y1: u16,
    parts: &Parts,
) -> Result<PathSum, AllocError>
    requires applies { HhApplies sum y0 y1 }
    requires quotient { IsQuotient sum (Step.Hh y0 y1) parts.now.poly }
    requires into { IsInto sum (Step.Hh y0 y1) parts.now.into }
    requires scale { negsuc 1999999997 ≤ℤ sum.k }
    ensures { IfOk result (λ s. HhApplied sum y0 y1 s) }
{
    let first = sum.n as u16 + y0;
    let second = sum.n as u16 + y1;
    let names = (sum.n + sum.m) as u16;
    let high = Closing::within(first.max(second), names);
    let low = Closing::within(first.min(second), names - 1);
    let poly = &parts.poly;
    let products = multiplied(alloc, &parts.into, second, poly)?;
    let extra = closed_phase_twice(products, high, low);
    let PathSum {
        n,
        m,
        k,
        phase,
        outs,
    } = sum;
    let mut phase = closed_phase_twice(phase, high, low);
    phase.add_to(&extra)?;
    let outs = replaced_outs(outs, second, poly)?;
    Ok(PathSum {
        n,
        m: m - 2,
        k: two_less(k),
        phase,
        outs: closed_outs_twice(alloc, outs, high, low),
    })
}

// The terms with the polynomial in place of v.
fn multiplied(
    alloc: Global,
    terms: &PhasePoly,
    v: u16,
    poly: &BoolPoly,
) -> Result<PhasePoly, AllocError>
    requires { v < 512 }
    ensures value { IfOk result (λ p. (a : ℕ → Bool) → phase_value p a % 4294967296 ≡ phase_value terms.now (with_value a v (bool_value poly.now a)) % 4294967296) }
    ensures variables { IfOk result (λ p. (u : ℕ) → (phase_occurs u terms.now && not (nat_eq u v)) ≡ false → occurs u poly.now ≡ false → phase_occurs u p ≡ false) }
    ensures form { IfOk result (λ p. IsPhasePoly p) }
{
    subst_phase(alloc, terms, v, poly)
}

// The outputs with the polynomial in place of v.
fn replaced_outs(outs: Outputs, v: u16, poly: &BoolPoly) -> Result<Outputs, AllocError>
    requires small { v < 512 }
    requires form { AllPolys outs }
    ensures { IfOk result (λ o. IsReplaced v poly.now outs o) }
{
    let mut polys = outs.into_polys();
    replace_polys(&mut polys, v, poly)?;
    Ok(Outputs::of(polys))
}

// The same in place; only the outputs with v are made anew.
fn replace_polys(polys: &mut Vec<BoolPoly>, v: u16, poly: &BoolPoly) -> Result<(), AllocError>
    requires small { v < 512 }
    requires form { AllPolys polys.old.items }
    ensures { OnOk result (IsReplaced v poly.now polys.old.items polys.new.items) }
{
    for out in polys.iter_mut() {
        if out.contains(v) {
            *out = out.subst(v, poly)?;
        }
    }
    Ok(())
}
