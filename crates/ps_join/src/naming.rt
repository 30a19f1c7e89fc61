ghost use Rattle.std.specs.Prelude.{◌≡◌, ℕ, ◌<◌, ◌≤◌, ◌+◌, ◌*◌, ◌%◌, Bool, true, false, IfOk};
ghost use Rattle.ps_mono.specs.Sets.{stands};
ghost use Rattle.ps_bool.specs.Polys.{occurs};
ghost use Rattle.ps_phase.specs.Phases.{phase_occurs};
ghost use Rattle.ps_ring.specs.Readings.{second_name};
ghost use Rattle.ps_join.specs.Joining.{PhaseNamed, BoolNamed};
ghost use Rattle.ps_join.specs.Naming.{stands_as};

use ps_bool::BoolPoly;
use ps_mono::Mono;
use ps_phase::{PhasePoly, Term};
use ps_sum::PathSum;
use std::alloc::{AllocError, Global};

/// The names that the second sum's variables have in a join on `n` qubits of sums with `m1` and `m2`
/// path variables: the path variables come behind those of the first, and the inputs behind all.
#[derive(Clone, Copy)]
pub(crate) struct Names {
    pub n: u16,
    pub m1: u16,
    pub m2: u16,
    ghost room: { n + n + m1 + m2 ≤ 512 },
}

impl Names {
    /// The names in the join of these two sums.
    pub(crate) fn of_sums(first: &PathSum, second: &PathSum) -> Names
        requires { 2 * first.now.n + first.now.m + second.now.m ≤ 512 }
        ensures n { result.n ≡ first.now.n }
        ensures m1 { result.m1 ≡ first.now.m }
        ensures m2 { result.m2 ≡ second.now.m }
    {
        Names {
            n: first.n as u16,
            m1: first.m as u16,
            m2: second.m as u16,
        }
    }

    /// The name of an input.
    pub(crate) fn own(&self, input: u16) -> u16
        requires { input < self.now.n }
        ensures value { result ≡ self.now.n + (self.now.m1 + self.now.m2) + input }
        ensures small { result < 512 }
    {
        self.n + (self.m1 + self.m2) + input
    }

    // The name of any variable.
    fn of(&self, v: u16) -> u16
        requires { v < self.now.n + self.now.m2 }
        ensures value { result ≡ second_name self.now.n self.now.m1 self.now.m2 v }
        ensures small { result < 512 }
    {
        if v < self.n { self.own(v) } else { v + self.m1 }
    }
}

// The monomial under these names.
fn named_mono(names: &Names, mono: &Mono) -> Mono
    requires { (v : ℕ) → names.now.n + names.now.m2 ≤ v → stands v mono.now ≡ false }
    ensures { (w : ℕ) → stands w result ≡ stands_as names.now.n names.now.m1 names.now.m2 w mono.now }
{
    let mut out = Mono::one();
    for place in 0..mono.degree() {
        let name = names.of(mono.var_at(place));
        out = out.union(&Mono::var(name));
    }
    out
}

/// The polynomial under these names.
pub(crate) fn named_phase(
    alloc: Global,
    names: &Names,
    poly: &PhasePoly,
) -> Result<PhasePoly, AllocError>
    requires { (v : ℕ) → names.now.n + names.now.m2 ≤ v → phase_occurs v poly.now ≡ false }
    ensures named { IfOk result (λ p. PhaseNamed names.now.n names.now.m1 names.now.m2 poly.now p) }
    ensures variables { IfOk result (λ p. (w : ℕ) → ((u : ℕ) → w ≡ second_name names.now.n names.now.m1 names.now.m2 u → phase_occurs u poly.now ≡ false) → phase_occurs w p ≡ false) }
{
    let mut terms = Vec::new(alloc);
    for term in poly.terms() {
        terms.push(Term {
            mono: named_mono(names, &term.mono),
            phase: term.phase,
        })?;
    }
    let named = PhasePoly::gather(terms)?;
    Ok(named)
}

/// The same of a Boolean polynomial.
pub(crate) fn named_bool(
    alloc: Global,
    names: &Names,
    poly: &BoolPoly,
) -> Result<BoolPoly, AllocError>
    requires { (v : ℕ) → names.now.n + names.now.m2 ≤ v → occurs v poly.now ≡ false }
    ensures named { IfOk result (λ p. BoolNamed names.now.n names.now.m1 names.now.m2 poly.now p) }
    ensures variables { IfOk result (λ p. (w : ℕ) → ((u : ℕ) → w ≡ second_name names.now.n names.now.m1 names.now.m2 u → occurs u poly.now ≡ false) → occurs w p ≡ false) }
{
    let mut monos = Vec::new(alloc);
    for mono in poly.monos() {
        monos.push(named_mono(names, mono))?;
    }
    Ok(BoolPoly::sum_of(monos))
}

/// The variables that stand in the polynomial.
pub(crate) fn phase_support(poly: &PhasePoly) -> Mono
    ensures { (v : ℕ) → stands v result ≡ phase_occurs v poly.now }
{
    let mut out = Mono::one();
    for term in poly.terms() {
        out = out.union(&term.mono);
    }
    out
}

/// The same of a Boolean polynomial.
pub(crate) fn bool_support(poly: &BoolPoly) -> Mono
    ensures { (v : ℕ) → stands v result ≡ occurs v poly.now }
{
    let mut out = Mono::one();
    for mono in poly.monos() {
        out = out.union(mono);
    }
    out
}
