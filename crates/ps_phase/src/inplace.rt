ghost use Rattle.std.specs.Prelude.{◌≡◌, ℕ, ◌<◌, ◌+◌, ◌%◌, Bool, IsTrue, MatchOption, length, slice_index_or};
ghost use Rattle.ps_phase.specs.Phases.{phase_value, phase_occurs, coefficient, IsPhasePoly};
ghost use Rattle.ps_phase.specs.Placing.{FitsOne, Fits, Absorbed, IsPlace};

use super::terms::Term;
use ps_mono::Mono;

// Where the monomial stands among the terms.
pub(crate) fn place(terms: &[Term], mono: &Mono) -> Option<usize>
    requires { IsPhasePoly terms.now }
    ensures { MatchOption result (coefficient mono.now terms.now ≡ 0) (λ i. IsPlace mono.now terms.now i) }
{
    match terms.binary_search_by(|term| term.mono.compare(mono)) {
        Ok(place) => Some(place),
        Err(_) => None,
    }
}

// Whether each of the others can be added to a term that stands there, and none comes to zero.
pub(crate) fn fits(terms: &[Term], others: &[Term]) -> bool
    requires { IsPhasePoly terms.now }
    ensures { IsTrue result → Fits terms.now others.now }
{
    for other in others {
        if !fits_one(terms, other) {
            return false;
        }
    }
    true
}

fn fits_one(terms: &[Term], other: &Term) -> bool
    requires { IsPhasePoly terms.now }
    ensures { IsTrue result → FitsOne terms.now other.now }
{
    match place(terms, &other.mono) {
        Some(place) => {
            let term = &terms[place];
            let sum = term.phase.add(other.phase);
            sum.units() != 0
        }
        None => false,
    }
}

// Adds each of the others to a term that stands there.
pub(crate) fn absorb(terms: &mut Vec<Term>, others: &[Term])
    requires form { IsPhasePoly terms.old.items }
    requires order { IsPhasePoly others.now }
    requires fit { Fits terms.old.items others.now }
    ensures form { IsPhasePoly terms.new.items }
    ensures value { (a : ℕ → Bool) → phase_value terms.new.items a % 4294967296 ≡ (phase_value terms.old.items a + phase_value others.now a) % 4294967296 }
    ensures variables { (v : ℕ) → phase_occurs v terms.new.items ≡ phase_occurs v terms.old.items }
{
    for other in others {
        absorb_one(terms, other);
    }
}

fn absorb_one(terms: &mut Vec<Term>, other: &Term)
    requires form { IsPhasePoly terms.old.items }
    requires fit { FitsOne terms.old.items other.now }
    ensures { Absorbed terms.old.items other.now terms.new.items }
{
    match place(terms, &other.mono) {
        Some(place) => {
            let term = terms[place];
            let phase = term.phase.add(other.phase);
            terms[place] = Term {
                mono: term.mono,
                phase,
            };
        }
        None => unreachable!(),
    }
}
