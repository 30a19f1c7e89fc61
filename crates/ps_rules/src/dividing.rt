ghost use Rattle.std.specs.Prelude.{◌≡◌, ℕ, ◌<◌, Bool, true, false, not, ◌&&◌, nat_eq, IfOk};
ghost use Rattle.std.specs.Cmp.Lexicographic.{pointwise};
ghost use Rattle.ps_mono.specs.Sets.{stands};
ghost use Rattle.ps_mono.specs.Truth.{with_value};
ghost use Rattle.ps_bool.specs.Polys.{bool_value, occurs};
ghost use Rattle.ps_rules.specs.Terms.{both, others};
ghost use Rattle.ps_rules.specs.Rules.{Applies, HhApplies, OmegaApplies};
ghost use Rattle.ps_rules.specs.Plans.{IsQuotient, IsInto, IsLeft, IsParted};

use super::parts::{Parted, Parts};
use super::steps::Step;
use ps_bool::BoolPoly;
use ps_mono::Mono;
use ps_phase::{PhasePoly, Term};
use ps_sum::PathSum;
use std::alloc::{AllocError, Global};

const THREE_QUARTERS: u32 = 3221225472;

/// The parts of a step that applies. Its polynomial is the sum of the other terms with its first
/// variable, divided by it.
pub fn step_parts(alloc: Global, sum: &PathSum, step: Step) -> Result<Parts, AllocError>
    requires { Applies sum.now step }
    ensures quotient { IfOk result (λ p. IsQuotient sum.now step p.poly) }
    ensures into { IfOk result (λ p. IsInto sum.now step p.into) }
    ensures left { IfOk result (λ p. IsLeft sum.now step p.left) }
{
    match step {
        Step::Elim { y0: _ } => Ok(alone(alloc, BoolPoly::zero(alloc))),
        Step::Hh { y0, y1 } => hh_parts(alloc, sum, y0, y1),
        Step::Omega { y0 } => Ok(alone(alloc, omega_poly(alloc, sum, y0)?)),
    }
}

// A polynomial that comes into no term.
fn alone(alloc: Global, poly: BoolPoly) -> Parts
    ensures { result.poly ≡ poly }
{
    Parts {
        poly,
        into: PhasePoly::zero(alloc),
        left: 0,
    }
}

fn hh_parts(alloc: Global, sum: &PathSum, y0: u16, y1: u16) -> Result<Parts, AllocError>
    requires { HhApplies sum.now y0 y1 }
    ensures quotient { IfOk result (λ p. IsQuotient sum.now (Step.Hh y0 y1) p.poly) }
    ensures into { IfOk result (λ p. IsInto sum.now (Step.Hh y0 y1) p.into) }
    ensures left { IfOk result (λ p. IsLeft sum.now (Step.Hh y0 y1) p.left) }
{
    let v0 = sum.n as u16 + y0;
    let v1 = sum.n as u16 + y1;
    let product = product_of(v0, v1);
    let Parted { monos, into, left } = parted(alloc, sum.phase.terms(), v0, v1, &product)?;
    Ok(Parts {
        poly: BoolPoly::sum_of(monos),
        into: PhasePoly::ordered(into),
        left,
    })
}

// The terms sorted out by v0 and v1, where `product` is the monomial of both.
fn parted(
    alloc: Global,
    terms: &[Term],
    v0: u16,
    v1: u16,
    product: &Mono,
) -> Result<Parted, AllocError>
    requires first { v0 < 512 }
    requires second { v1 < 512 }
    ensures { IfOk result (λ p. IsParted v0 v1 product.now terms.now p) }
{
    let mut monos = Vec::new(alloc);
    let mut into = Vec::new(alloc);
    let mut left = 0;
    for term in terms {
        if term.mono.contains(v0) {
            if !(*product == term.mono) {
                monos.push(term.mono.removed(v0))?;
            }
        } else if term.mono.contains(v1) {
            into.push(*term)?;
        } else {
            left += 1;
        }
    }
    Ok(Parted { monos, into, left })
}

fn omega_poly(alloc: Global, sum: &PathSum, y0: u16) -> Result<BoolPoly, AllocError>
    requires { OmegaApplies sum.now y0 }
    ensures { IfOk result (λ q. IsQuotient sum.now (Step.Omega y0) q) }
{
    let v0 = sum.n as u16 + y0;
    let own = Mono::var(v0);
    let mut monos = others_of(alloc, sum.phase.terms(), v0, &own)?;
    if sum.phase.coefficient(&own).units() == THREE_QUARTERS {
        monos.push(Mono::one())?;
    }
    Ok(BoolPoly::sum_of(monos))
}

// The product of two different variables.
fn product_of(u: u16, v: u16) -> Mono
    requires first { u < 512 }
    requires second { v < 512 }
    requires apart { v ≡ u → ⊥ }
    ensures { result ≡ both u v }
{
    Mono::var(u).union(&Mono::var(v))
}

// The monomials of the terms with v but that of `mono`, divided by v.
fn others_of(alloc: Global, terms: &[Term], v: u16, mono: &Mono) -> Result<Vec<Mono>, AllocError>
    requires { v < 512 }
    ensures value { IfOk result (λ f. (a : ℕ → Bool) → bool_value f.items a ≡ bool_value (others v mono.now terms.now) (with_value a v true)) }
    ensures variables { IfOk result (λ f. (u : ℕ) → occurs u (others v mono.now terms.now) ≡ false → occurs u f.items ≡ false) }
    ensures free { IfOk result (λ f. occurs v f.items ≡ false) }
{
    let mut out = Vec::new(alloc);
    for term in terms {
        if is_other(term, v, mono) {
            out.push(term.mono.removed(v))?;
        }
    }
    Ok(out)
}

// Whether v stands in the term, and its monomial is another.
fn is_other(term: &Term, v: u16, mono: &Mono) -> bool
    requires { v < 512 }
    ensures { result ≡ (stands v term.now.mono && not (pointwise nat_eq mono.now term.now.mono)) }
{
    term.mono.contains(v) && !(*mono == term.mono)
}
