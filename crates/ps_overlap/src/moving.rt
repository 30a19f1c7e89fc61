ghost use Rattle.std.specs.Prelude.{◌≡◌, ℕ, ◌<◌, ◌≤◌, ◌+◌, ◌%◌, Bool, false, OnOk};
ghost use Rattle.ps_mono.specs.Sets.{holds, stands};
ghost use Rattle.ps_phase.specs.Phases.{phase_value, phase_occurs, IsPhasePoly};
ghost use Rattle.ps_ring.specs.Readings.{moved_name};

use ps_mono::Mono;
use ps_phase::Term;
use std::alloc::AllocError;

/// The monomial with the variables from `n` on `by` higher. Each of them then is below 512.
pub(crate) fn moved_mono(mono: &Mono, n: u16, by: u16) -> Mono
    requires few { n + by ≤ 512 }
    requires small { (v : ℕ) → 512 ≤ v + by → stands v mono.now ≡ false }
    ensures value { (a : ℕ → Bool) → holds result a ≡ holds mono.now (λ v. a (moved_name n by v)) }
    ensures variables { (w : ℕ) → ((v : ℕ) → moved_name n by v ≡ w → stands v mono.now ≡ false) → stands w result ≡ false }
{
    let mut out = Mono::one();
    for place in 0..mono.degree() {
        let v = mono.var_at(place);
        let name = if v < n { v } else { v + by };
        out = out.union(&Mono::var(name));
    }
    out
}

/// The terms with the variables from `n` on `by` higher, at the end.
pub(crate) fn push_moved(
    out: &mut Vec<Term>,
    terms: &[Term],
    n: u16,
    by: u16,
) -> Result<(), AllocError>
    requires few { n + by ≤ 512 }
    requires small { (v : ℕ) → 512 ≤ v + by → phase_occurs v terms.now ≡ false }
    ensures value { OnOk result ((a : ℕ → Bool) → phase_value out.new.items a ≡ phase_value out.old.items a + phase_value terms.now (λ v. a (moved_name n by v))) }
    ensures variables { OnOk result ((w : ℕ) → ((v : ℕ) → moved_name n by v ≡ w → phase_occurs v terms.now ≡ false) → phase_occurs w out.old.items ≡ false → phase_occurs w out.new.items ≡ false) }
{
    for term in terms {
        out.push(Term {
            mono: moved_mono(&term.mono, n, by),
            phase: term.phase,
        })?;
    }
    Ok(())
}

/// The terms with the opposite phases, at the end.
pub(crate) fn push_negated(out: &mut Vec<Term>, terms: &[Term]) -> Result<(), AllocError>
    requires { IsPhasePoly terms.now }
    ensures value { OnOk result ((a : ℕ → Bool) → (phase_value out.new.items a + phase_value terms.now a) % 4294967296 ≡ phase_value out.old.items a % 4294967296) }
    ensures variables { OnOk result ((w : ℕ) → phase_occurs w terms.now ≡ false → phase_occurs w out.old.items ≡ false → phase_occurs w out.new.items ≡ false) }
{
    for term in terms {
        out.push(Term {
            mono: term.mono,
            phase: term.phase.neg(),
        })?;
    }
    Ok(())
}
