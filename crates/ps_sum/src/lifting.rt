ghost use Rattle.std.specs.Prelude.{◌≡◌, ℕ, ◌+◌, ◌*◌, ◌%◌, Bool, true, false, IfOk};
ghost use Rattle.ps_mono.specs.Sets.{holds, stands};
ghost use Rattle.ps_mono.specs.Truth.{times};
ghost use Rattle.ps_bool.specs.Polys.{bool_value, occurs};
ghost use Rattle.ps_phase.specs.Phases.{phase_value, phase_occurs, IsPhasePoly};

use super::counts::raw_term;
use super::multiplying::multiplied;
use super::tabling::tabled;
use ps_bool::BoolPoly;
use ps_mono::Mono;
use ps_phase::{PhasePoly, Term};
use ps_ring::Phase;
use std::alloc::{AllocError, Global};

// Tables are made over so many variables at most.
const TABLE: u32 = 14;

// From so many products on, those of a step are added before the next one.
const MANY: u64 = 64;

/// The phase `by` at each assignment at which `poly` is 1, and none where it is 0.
///
/// A sum modulo 2 of two numbers 0 or 1 is their sum less twice their product, so each product of
/// s of the monomials has 2^(s-1) times the phase, up to the sign. They are all made, without those at
/// whole turns; or where many of them will come together, by a table of the values of `poly`, or else
/// monomial by monomial. `AllocError` is want of memory.
pub fn lift(alloc: Global, poly: &BoolPoly, by: Phase) -> Result<PhasePoly, AllocError>
    ensures value { IfOk result (λ p. (a : ℕ → Bool) → phase_value p a % 4294967296 ≡ times (bool_value poly.now a) by % 4294967296) }
    ensures variables { IfOk result (λ p. (v : ℕ) → phase_occurs v p ≡ true → occurs v poly.now ≡ true) }
    ensures form { IfOk result (λ p. IsPhasePoly p) }
{
    let monos = poly.monos();
    let room = raw_term(by, poly.count());
    if is_flat(monos) {
        return multiplied(alloc, monos, by, room as usize);
    }
    let support = variables(monos);
    if support.degree() <= TABLE && 1 << support.degree() < 4 * room {
        return tabled(alloc, monos, &support, by);
    }
    if room < MANY {
        return multiplied(alloc, monos, by, room as usize);
    }
    stepwise(alloc, monos, by)
}

// Whether no monomial has two variables: the last one has none.
fn is_flat(monos: &[Mono]) -> bool {
    match monos.last() {
        Some(mono) => mono.degree() <= 1,
        None => true,
    }
}

// The variables that stand in the monomials.
fn variables(monos: &[Mono]) -> Mono
    ensures { (v : ℕ) → stands v result ≡ occurs v monos.now }
{
    let mut all = Mono::one();
    for mono in monos {
        all = all.union(mono);
    }
    all
}

// The lift of the sum of the monomials. The sum so far is combined before the next one is taken, so
// that what cancels is not multiplied again.
fn stepwise(alloc: Global, monos: &[Mono], by: Phase) -> Result<PhasePoly, AllocError>
    ensures value { IfOk result (λ p. (a : ℕ → Bool) → phase_value p a % 4294967296 ≡ times (bool_value monos.now a) by % 4294967296) }
    ensures variables { IfOk result (λ p. (v : ℕ) → phase_occurs v p ≡ true → occurs v monos.now ≡ true) }
    ensures form { IfOk result (λ p. IsPhasePoly p) }
{
    let mut sum = PhasePoly::zero(alloc);
    for mono in monos {
        let more = products(alloc, sum.terms(), mono, by)?;
        sum.add_to(&more)?;
    }
    Ok(sum)
}

// The monomial's own term, and less twice its products with the terms.
fn products(alloc: Global, terms: &[Term], mono: &Mono, by: Phase) -> Result<PhasePoly, AllocError>
    ensures value { IfOk result (λ p. (a : ℕ → Bool) → phase_value p a % 4294967296 ≡ times (holds mono.now a) (by + 4294967294 * phase_value terms.now a) % 4294967296) }
    ensures variables { IfOk result (λ p. (v : ℕ) → stands v mono.now ≡ false → phase_occurs v terms.now ≡ false → phase_occurs v p ≡ false) }
    ensures form { IfOk result (λ p. IsPhasePoly p) }
{
    let mut out = Vec::with_capacity(alloc, terms.len() + 1)?;
    out.push(Term {
        mono: *mono,
        phase: by,
    })?;
    for term in terms {
        let units = term.phase.units().wrapping_mul(4294967294);
        if units != 0 {
            out.push(Term {
                mono: mono.union(&term.mono),
                phase: Phase::of(units),
            })?;
        }
    }
    PhasePoly::gather(out)
}
