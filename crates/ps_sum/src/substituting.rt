ghost use Rattle.std.specs.Prelude.{◌≡◌, ℕ, ◌<◌, ◌+◌, ◌%◌, Bool, true, false, not, nat_eq, ◌&&◌, ◌||◌, [], ◌∷◌, IfOk, OnOk, IfSome};
ghost use Rattle.ps_mono.specs.Sets.{holds, stands};
ghost use Rattle.ps_mono.specs.Truth.{times, with_value};
ghost use Rattle.ps_bool.specs.Polys.{bool_value, occurs};
ghost use Rattle.ps_phase.specs.Adding.{terms_with};
ghost use Rattle.ps_phase.specs.Phases.{phase_value, phase_occurs, IsPhasePoly, SameTurns};

use super::lifting::lift;
use ps_bool::BoolPoly;
use ps_mono::Mono;
use ps_phase::{PhasePoly, Term};
use ps_ring::Phase;
use std::alloc::{AllocError, Global};

// How many products may stand unsorted beside three times those that the last gathering left: few
// enough that the list stays short where most of them cancel, and many enough that sorting pays.
const ROOM: usize = 1000;

/// The polynomial with the whole number of `by`, 0 or 1, in place of variable `v`. Where `v` stands
/// in `by`, it keeps its meaning there. Only the terms with `v` are multiplied out and sorted; the
/// others are merged in. `AllocError` is want of memory.
pub fn subst_phase(
    alloc: Global,
    poly: &PhasePoly,
    v: u16,
    by: &BoolPoly,
) -> Result<PhasePoly, AllocError>
    requires { v < 512 }
    ensures value { IfOk result (λ p. (a : ℕ → Bool) → phase_value p a % 4294967296 ≡ phase_value poly.now (with_value a v (bool_value by.now a)) % 4294967296) }
    ensures variables { IfOk result (λ p. (u : ℕ) → phase_occurs u p ≡ true → ((phase_occurs u poly.now && not (nat_eq u v)) || occurs u by.now) ≡ true) }
    ensures form { IfOk result (λ p. IsPhasePoly p) }
{
    if let Some(phase) = alone(poly, v) {
        return lift(alloc, by, phase);
    }
    let products = PhasePoly::gather(replaced(alloc, poly, v, by)?)?;
    let mut sum = poly.terms_without(v)?;
    sum.add_to(&products)?;
    Ok(sum)
}

// The phase of variable v, where the polynomial has no other term.
fn alone(poly: &PhasePoly, v: u16) -> Option<Phase>
    requires { v < 512 }
    ensures { IfSome result (λ p. poly.now ≡ record { mono = v ∷ []; phase = p } ∷ []) }
{
    if poly.count() != 1 {
        return None;
    }
    let term = &poly.terms()[0];
    if term.mono == Mono::var(v) {
        Some(term.phase)
    } else {
        None
    }
}

// The terms with v, with the lift of `by` in its place.
fn replaced(alloc: Global, poly: &PhasePoly, v: u16, by: &BoolPoly) -> Result<Vec<Term>, AllocError>
    requires { v < 512 }
    ensures value { IfOk result (λ w. (a : ℕ → Bool) → phase_value w.items a % 4294967296 ≡ phase_value (terms_with v poly.now) (with_value a v (bool_value by.now a)) % 4294967296) }
    ensures variables { IfOk result (λ w. (u : ℕ) → phase_occurs u w.items ≡ true → ((phase_occurs u poly.now && not (nat_eq u v)) || occurs u by.now) ≡ true) }
{
    let mut out = Vec::new(alloc);
    let mut most = ROOM;
    let mut lifted = PhasePoly::zero(alloc);
    let mut last = Phase::of(0);
    for term in poly.terms() {
        if term.mono.contains(v) {
            lifted = renewed(alloc, lifted, by, last, term.phase)?;
            last = term.phase;
            push_multiples(&mut out, &term.mono.removed(v), lifted.terms())?;
            out = shortened(out, &mut most)?;
        }
    }
    Ok(out)
}

// The lift by a phase, where that by the phase before is at hand.
fn renewed(
    alloc: Global,
    lifted: PhasePoly,
    by: &BoolPoly,
    last: Phase,
    phase: Phase,
) -> Result<PhasePoly, AllocError>
    requires value { (a : ℕ → Bool) → phase_value lifted a % 4294967296 ≡ times (bool_value by.now a) last % 4294967296 }
    requires variables { (u : ℕ) → phase_occurs u lifted ≡ true → occurs u by.now ≡ true }
    ensures value { IfOk result (λ p. (a : ℕ → Bool) → phase_value p a % 4294967296 ≡ times (bool_value by.now a) phase % 4294967296) }
    ensures variables { IfOk result (λ p. (u : ℕ) → phase_occurs u p ≡ true → occurs u by.now ≡ true) }
{
    if phase.units() == last.units() {
        return Ok(lifted);
    }
    lift(alloc, by, phase)
}

// The same sum, gathered where there are more terms than `most`, which then allows three times what
// is left.
fn shortened(terms: Vec<Term>, most: &mut usize) -> Result<Vec<Term>, AllocError>
    ensures value { IfOk result (λ w. SameTurns w.items terms.items) }
    ensures variables { IfOk result (λ w. (u : ℕ) → phase_occurs u w.items ≡ true → phase_occurs u terms.items ≡ true) }
{
    if terms.len() <= *most {
        return Ok(terms);
    }
    let terms = PhasePoly::gather(terms)?.into_terms();
    *most = terms.len().saturating_mul(3).saturating_add(ROOM);
    Ok(terms)
}

// The products of the monomial with the terms, at the end.
fn push_multiples(out: &mut Vec<Term>, mono: &Mono, terms: &[Term]) -> Result<(), AllocError>
    ensures value { OnOk result ((a : ℕ → Bool) → phase_value out.new.items a ≡ phase_value out.old.items a + times (holds mono.now a) (phase_value terms.now a)) }
    ensures variables { OnOk result ((u : ℕ) → stands u mono.now ≡ false → phase_occurs u terms.now ≡ false → phase_occurs u out.old.items ≡ false → phase_occurs u out.new.items ≡ false) }
{
    out.reserve(terms.len())?;
    for term in terms {
        out.push_reserved(Term {
            mono: mono.union(&term.mono),
            phase: term.phase,
        });
    }
    Ok(())
}
