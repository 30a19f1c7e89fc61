ghost use Rattle.std.specs.Prelude.{◌≡◌, ℕ, ◌<◌, ◌+◌, ◌%◌, Bool, false, ◌++◌, IfOk, OnOk};
ghost use Rattle.ps_mono.specs.Sets.{holds, stands};
ghost use Rattle.ps_bool.specs.Polys.{bool_value, occurs, IsPoly};
ghost use Rattle.ps_phase.specs.Phases.{phase_value, phase_occurs, IsPhasePoly};
ghost use Rattle.ps_sum.specs.Names.{closed, opened};
ghost use Rattle.ps_sum.specs.Forms.{AllPolys};
ghost use Rattle.ps_sum.specs.Outs.{values, outs_occur};

use super::outputs::Outputs;
use super::sums::PathSum;
use ps_bool::BoolPoly;
use ps_mono::Mono;
use ps_phase::{PhasePoly, Term};
use std::alloc::{AllocError, Global};

// The monomial with the names above v one lower; v does not stand in it.
fn closed_mono(mono: &Mono, v: u16) -> Mono
    requires small { v < 512 }
    requires free { stands v mono.now ≡ false }
    ensures { (w : ℕ) → stands w result ≡ stands (opened v w) mono.now }
{
    let mut out = Mono::one();
    for place in 0..mono.degree() {
        let u = mono.var_at(place);
        let name = if u > v { u - 1 } else { u };
        out = out.union(&Mono::var(name));
    }
    out
}

// The polynomial with the names above v one lower; v does not stand in it.
fn closed_phase(alloc: Global, poly: &PhasePoly, v: u16) -> Result<PhasePoly, AllocError>
    requires small { v < 512 }
    requires free { phase_occurs v poly.now ≡ false }
    ensures value { IfOk result (λ p. (a : ℕ → Bool) → phase_value p a % 4294967296 ≡ phase_value poly.now (λ u. a (closed v u)) % 4294967296) }
    ensures variables { IfOk result (λ p. (w : ℕ) → phase_occurs (opened v w) poly.now ≡ false → phase_occurs w p ≡ false) }
    ensures form { IfOk result (λ p. IsPhasePoly p) }
{
    let mut terms = Vec::new(alloc);
    for term in poly.terms() {
        terms.push(Term {
            mono: closed_mono(&term.mono, v),
            phase: term.phase,
        })?;
    }
    PhasePoly::gather(terms)
}

// The same of a Boolean polynomial.
fn closed_bool(alloc: Global, poly: &BoolPoly, v: u16) -> Result<BoolPoly, AllocError>
    requires small { v < 512 }
    requires free { occurs v poly.now ≡ false }
    ensures value { IfOk result (λ p. (a : ℕ → Bool) → bool_value p a ≡ bool_value poly.now (λ u. a (closed v u))) }
    ensures variables { IfOk result (λ p. (w : ℕ) → occurs (opened v w) poly.now ≡ false → occurs w p ≡ false) }
    ensures form { IfOk result (λ p. IsPoly p) }
{
    let mut monos = Vec::new(alloc);
    for mono in poly.monos() {
        monos.push(closed_mono(mono, v))?;
    }
    Ok(BoolPoly::sum_of(monos))
}

// The same of each output.
fn closed_outs(alloc: Global, outs: &Outputs, v: u16) -> Result<Outputs, AllocError>
    requires small { v < 512 }
    requires free { outs_occur v outs.now ≡ false }
    ensures value { IfOk result (λ o. (a : ℕ → Bool) → values o a ≡ values outs.now (λ u. a (closed v u))) }
    ensures variables { IfOk result (λ o. (w : ℕ) → outs_occur (opened v w) outs.now ≡ false → outs_occur w o ≡ false) }
    ensures form { IfOk result (λ o. AllPolys o) }
{
    let mut polys = Vec::new(alloc);
    for poly in outs.polys() {
        polys.push(closed_bool(alloc, poly, v)?)?;
    }
    Ok(Outputs::of(polys))
}

impl PathSum {
    /// The sum without path variable `y`, which stands nowhere in it: the path variables above it
    /// take the numbers one below. `AllocError` is want of memory.
    pub fn rename(&self, alloc: Global, y: u16) -> Result<PathSum, AllocError>
        requires inside { y < self.now.m }
        requires phase_free { phase_occurs (self.now.n + y) self.now.phase ≡ false }
        requires outs_free { outs_occur (self.now.n + y) self.now.outs ≡ false }
        ensures numbers { IfOk result (λ s. (s.n ≡ self.now.n) × (s.m + 1 ≡ self.now.m) × (s.k ≡ self.now.k)) }
        ensures phase { IfOk result (λ s. (a : ℕ → Bool) → phase_value s.phase a % 4294967296 ≡ phase_value self.now.phase (λ u. a (closed (self.now.n + y) u)) % 4294967296) }
        ensures outs { IfOk result (λ s. (a : ℕ → Bool) → values s.outs a ≡ values self.now.outs (λ u. a (closed (self.now.n + y) u))) }
    {
        let v = self.n as u16 + y;
        let phase = closed_phase(alloc, &self.phase, v)?;
        let outs = closed_outs(alloc, &self.outs, v)?;
        Ok(PathSum {
            n: self.n,
            m: self.m - 1,
            k: self.k,
            phase,
            outs,
        })
    }
}
