ghost use Rattle.std.specs.Prelude.{◌≡◌, ℕ, ◌<◌, ◌%◌, ◌+◌, ◌*◌, ◌↔◌, Bool, true, false, ◌||◌, IfOk, OnOk, OnErr, IsTrue, [], length, slice_get};
ghost use Rattle.ps_phase.specs.Phases.{phase_value, phase_occurs, IsPhasePoly, coefficient, SameTurns};
ghost use Rattle.ps_phase.specs.Adding.{terms_with, terms_without};
ghost use Rattle.ps_mono.specs.Sets.{stands};

use super::gathering::{combine, is_ordered};
use super::inplace::{absorb, fits};
use super::merging::{added, push_term, scaled, selected};
use super::seating::{are_seatable, seated_sum};
use super::sorting::sort_terms;
use super::terms::Term;
use super::weaving::weave;
use ps_mono::{Bits, Mono};
use ps_ring::Phase;
use std::alloc::{AllocError, Global};
use std::marker::Model;

// The others are few where there are so many times more terms.
const FEW: usize = 16;

/// A sum of terms: each monomial once, in the order of `Mono::compare`, with a phase that is not zero.
///
/// What it adds to the phase at an assignment of the variables is the sum of the phases of the
/// terms that hold there, modulo a turn. Two polynomials that add the same everywhere have the
/// same terms. A clause sees the list of the terms.
#[derive(Drop)]
pub struct PhasePoly {
    terms: Vec<Term>,
}

impl Model for PhasePoly {
    ghost use Rattle.std.specs.Prelude.{List};
    ghost use Rattle.ps_phase.specs.declared.terms.Term.{Term};
    ghost use Rattle.ps_phase.specs.Phases.{IsPhasePoly};

    ghost Value = { List Term };

    ghost view = { λ p. p.terms.items };

    ghost invariant = { λ p. IsPhasePoly p.terms.items };
}

impl PhasePoly {
    /// No term: no turn at any assignment.
    pub fn zero(alloc: Global) -> PhasePoly
        ensures { result ≡ [] }
    {
        PhasePoly {
            terms: Vec::new(alloc),
        }
    }

    /// The same phase at each assignment. `AllocError` is want of memory.
    pub fn constant(alloc: Global, phase: Phase) -> Result<PhasePoly, AllocError>
        ensures value { IfOk result (λ p. (a : ℕ → Bool) → phase_value p a ≡ phase) }
        ensures variables { IfOk result (λ p. (v : ℕ) → phase_occurs v p ≡ false) }
        ensures form { IfOk result (λ p. IsPhasePoly p) }
    {
        let mut terms = Vec::new(alloc);
        push_term(&mut terms, &Mono::one(), phase)?;
        Ok(PhasePoly { terms })
    }

    /// The sum of terms in any order, of which several may have one monomial: they are sorted once,
    /// unless they are in order already, and those of one monomial added. Of many terms with low variables
    /// only numbers and places are sorted, and what is left of the terms is moved once; many others of at
    /// most six variables each are sorted by keys. Both take memory; where that is wanting, and else, the
    /// terms are sorted in place. It always answers `Ok`.
    pub fn gather(mut terms: Vec<Term>) -> Result<PhasePoly, AllocError>
        ensures value { IfOk result (λ p. SameTurns p terms.items) }
        ensures variables { IfOk result (λ p. (v : ℕ) → phase_occurs v p ≡ true → phase_occurs v terms.items ≡ true) }
        ensures form { IfOk result (λ p. IsPhasePoly p) }
    {
        if is_ordered(&terms) {
            return Ok(PhasePoly { terms });
        }
        if are_seatable(&terms) {
            match seated_sum(*terms.allocator(), &terms) {
                Ok(sum) => return Ok(PhasePoly { terms: sum }),
                Err(_) => {}
            }
        }
        sort_terms(&mut terms);
        combine(&mut terms);
        Ok(PhasePoly { terms })
    }

    /// Both together. `AllocError` is want of memory.
    pub fn add(&self, other: &PhasePoly) -> Result<PhasePoly, AllocError>
        ensures value { IfOk result (λ p. (a : ℕ → Bool) → phase_value p a % 4294967296 ≡ (phase_value self.now a + phase_value other.now a) % 4294967296) }
        ensures variables { IfOk result (λ p. (v : ℕ) → phase_occurs v p ≡ true → (phase_occurs v self.now || phase_occurs v other.now) ≡ true) }
        ensures form { IfOk result (λ p. IsPhasePoly p) }
    {
        let terms = added(*self.terms.allocator(), &self.terms, &other.terms)?;
        Ok(PhasePoly { terms })
    }

    /// Adds the other one to this one, in its memory. `AllocError` is want of memory, and leaves this one as
    /// it was.
    pub fn add_to(&mut self, other: &PhasePoly) -> Result<(), AllocError>
        ensures value { OnOk result ((a : ℕ → Bool) → phase_value self.new a % 4294967296 ≡ (phase_value self.old a + phase_value other.now a) % 4294967296) }
        ensures variables { OnOk result ((v : ℕ) → phase_occurs v self.new ≡ true → (phase_occurs v self.old || phase_occurs v other.now) ≡ true) }
        ensures form { IsPhasePoly self.new }
        ensures kept { OnErr result (self.new ≡ self.old) }
    {
        if other.terms.len() < self.terms.len() / FEW && fits(&self.terms, &other.terms) {
            absorb(&mut self.terms, &other.terms);
            return Ok(());
        }
        weave(&mut self.terms, &other.terms)
    }

    /// What gives whole turns with this one. `AllocError` is want of memory.
    pub fn neg(&self) -> Result<PhasePoly, AllocError>
        ensures value { IfOk result (λ p. (a : ℕ → Bool) → (phase_value p a + phase_value self.now a) % 4294967296 ≡ 0) }
        ensures variables { IfOk result (λ p. (v : ℕ) → phase_occurs v p ≡ true → phase_occurs v self.now ≡ true) }
        ensures form { IfOk result (λ p. IsPhasePoly p) }
    {
        self.scale(u32::MAX)
    }

    /// So many times the phases. `AllocError` is want of memory.
    pub fn scale(&self, by: u32) -> Result<PhasePoly, AllocError>
        ensures value { IfOk result (λ p. (a : ℕ → Bool) → phase_value p a % 4294967296 ≡ (by * phase_value self.now a) % 4294967296) }
        ensures variables { IfOk result (λ p. (v : ℕ) → phase_occurs v p ≡ true → phase_occurs v self.now ≡ true) }
        ensures form { IfOk result (λ p. IsPhasePoly p) }
    {
        let terms = scaled(*self.terms.allocator(), &self.terms, by)?;
        Ok(PhasePoly { terms })
    }

    /// The same terms. `AllocError` is want of memory.
    pub fn copy(&self) -> Result<PhasePoly, AllocError>
        ensures same { IfOk result (λ p. p ≡ self.now) }
        ensures form { IfOk result (λ p. IsPhasePoly p) }
    {
        let terms = Vec::from_slice(*self.terms.allocator(), &self.terms)?;
        Ok(PhasePoly { terms })
    }

    /// The terms that contain `v`, in order. `AllocError` is want of memory.
    pub fn terms_with(&self, v: u16) -> Result<PhasePoly, AllocError>
        requires { v < 512 }
        ensures terms { IfOk result (λ p. p ≡ terms_with v self.now) }
        ensures form { IfOk result (λ p. IsPhasePoly p) }
    {
        let terms = selected(*self.terms.allocator(), &self.terms, v, true)?;
        Ok(PhasePoly { terms })
    }

    /// The terms that do not contain `v`, in order. `AllocError` is want of memory.
    pub fn terms_without(&self, v: u16) -> Result<PhasePoly, AllocError>
        requires { v < 512 }
        ensures terms { IfOk result (λ p. p ≡ terms_without v self.now) }
        ensures form { IfOk result (λ p. IsPhasePoly p) }
    {
        let terms = selected(*self.terms.allocator(), &self.terms, v, false)?;
        Ok(PhasePoly { terms })
    }

    /// The polynomial of these terms, which are in its one form already: no monomial twice, in order,
    /// and no phase is none. Takes no memory.
    pub fn ordered(terms: Vec<Term>) -> PhasePoly
        requires { IsPhasePoly terms.items }
        ensures { result ≡ terms.items }
    {
        PhasePoly { terms }
    }

    /// The terms in order, given away. Takes no memory.
    pub fn into_terms(self) -> Vec<Term>
        ensures value { result.items ≡ self }
        ensures form { IsPhasePoly result.items }
    {
        let PhasePoly { terms } = self;
        terms
    }

    /// How many terms.
    pub fn count(&self) -> u64
        ensures { result ≡ length self.now }
    {
        self.terms.len() as u64
    }

    /// The terms in order, and that they are.
    pub fn terms(&self) -> &[Term]
        ensures value { result.now ≡ self.now }
        ensures form { IsPhasePoly self.now }
    {
        &self.terms
    }

    /// The term at a place, from 0 on.
    pub fn term(&self, place: u64) -> (&Mono, Phase)
        requires { place < length self.now }
        ensures { slice_get self.now place ≡ Some (record { mono = result.0.now; phase = result.1 }) }
    {
        let term = &self.terms[place as usize];
        (&term.mono, term.phase)
    }

    /// Whether `v` stands in a term.
    pub fn contains(&self, v: u16) -> bool
        requires { v < 512 }
        ensures { result ≡ phase_occurs v self.now }
    {
        for term in &self.terms {
            if term.mono.contains(v) {
                return true;
            }
        }
        false
    }

    /// What the polynomial adds to the phase at an assignment.
    pub fn eval(&self, at: &Bits) -> Phase
        ensures { result ≡ phase_value self.now (λ v. stands v at.now) % 4294967296 }
    {
        let mut sum = Phase::of(0);
        for term in &self.terms {
            if term.mono.holds(at) {
                sum = sum.add(term.phase);
            }
        }
        sum
    }

    /// Whether both add the same at each assignment, up to whole turns.
    pub fn same(&self, other: &PhasePoly) -> bool
        ensures { IsTrue result ↔ SameTurns self.now other.now }
    {
        self.terms == other.terms
    }

    /// The phase of the term of a monomial, and zero where there is none.
    pub fn coefficient(&self, mono: &Mono) -> Phase
        ensures { result ≡ coefficient mono.now self.now }
    {
        match self.terms.binary_search_by(|term| term.mono.compare(mono)) {
            Ok(place) => self.terms[place].phase,
            Err(_) => Phase::of(0),
        }
    }
}
