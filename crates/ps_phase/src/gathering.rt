ghost use Rattle.std.specs.Prelude.{◌≡◌, ◌≢◌, ◌<◌, ◌≤◌, IsTrue, [], length};
ghost use Rattle.ps_phase.specs.Adding.{combined_terms};
ghost use Rattle.ps_phase.specs.Phases.{AllSmall, IsPhasePoly};
ghost use Rattle.ps_phase.specs.Placing.{Follows, IsPut};

use super::terms::Term;
use ps_mono::Mono;
use ps_ring::Phase;

// Whether the term at a place has a phase, and its monomial comes after that of the one before it.
fn follows(terms: &[Term], place: usize) -> bool
    requires { place < length terms.now }
    ensures { IsTrue result → Follows terms.now place }
{
    let term = &terms[place];
    term.mono.known();
    if term.phase.units() == 0 {
        return false;
    }
    if place == 0 {
        return true;
    }
    let before = &terms[place - 1];
    before.mono.compare(&term.mono).is_lt()
}

// Whether the terms are a polynomial as they are.
pub(crate) fn is_ordered(terms: &[Term]) -> bool
    ensures { IsTrue result → IsPhasePoly terms.now }
{
    for place in 0..terms.len() {
        if !follows(terms, place) {
            return false;
        }
    }
    true
}

// Writes a term over that at place `kept`, where its phase is not zero, and gives the place behind it.
fn put_at(terms: &mut Vec<Term>, kept: usize, term: &Term) -> usize
    requires inside { kept ≤ length terms.old.items }
    requires room { term.now.phase ≢ 0 → kept < length terms.old.items }
    ensures { IsPut terms.old.items kept term.now terms.new.items result }
{
    if term.phase.units() == 0 {
        return kept;
    }
    terms[kept] = *term;
    kept + 1
}

// The sum of each run of one monomial, in place.
pub(crate) fn combine(terms: &mut Vec<Term>)
    ensures items { terms.new.items ≡ combined_terms [] 0 terms.old.items }
    ensures small { AllSmall terms.old.items }
{
    let mut kept = 0;
    let mut run = Term {
        mono: Mono::one(),
        phase: Phase::of(0),
    };
    for i in 0..terms.len() {
        let term = terms[i];
        term.mono.known();
        let units = term.phase.units();
        if run.mono == term.mono {
            run.phase = run.phase.add(term.phase);
        } else {
            kept = put_at(terms, kept, &run);
            run = Term {
                mono: term.mono,
                phase: Phase::of(units),
            };
        }
    }
    kept = put_at(terms, kept, &run);
    terms.truncate(kept);
}
