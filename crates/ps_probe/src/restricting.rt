//! Sums whose inputs are fixed.

ghost use Rattle.std.specs.Prelude.{◌≡◌, ℕ, ◌<◌, ◌≤◌, ◌+◌, Bool, true, false, [], ◌&&◌, not, MatchOption, IfOk, OnOk};
ghost use Rattle.ps_mono.specs.Sets.{holds, stands, IsVarSet};
ghost use Rattle.ps_phase.specs.Phases.{phase_value, phase_occurs};
ghost use Rattle.ps_probe.specs.Patterns.{set_by, is_fixed, IsRestricted, IsMonoFixed};

use super::pattern::Pattern;
use ps_mono::Mono;
use ps_phase::{PhasePoly, Term};
use ps_sum::{Outputs, PathSum};
use std::alloc::{AllocError, Global};

// Whether input `i` stands in the monomial and is fixed.
fn has_fixed(mono: &Mono, pattern: &Pattern, i: u32) -> bool
    requires { i < 64 }
    ensures { result ≡ (stands i mono.now && is_fixed pattern.now i) }
{
    mono.contains(i as u16) && pattern.is_fixed(i)
}

// The monomial without the inputs that are fixed to 1; none where one of its inputs is fixed to 0.
fn fixed_mono(mono: &Mono, pattern: &Pattern) -> Option<Mono>
    requires { pattern.now.len ≤ 64 }
    ensures { MatchOption result ((a : ℕ → Bool) → holds mono.now (set_by pattern.now a) ≡ false) (IsMonoFixed pattern.now mono.now) }
{
    let mut out = *mono;
    for i in 0..pattern.len {
        if has_fixed(mono, pattern, i) {
            if !pattern.is_one(i) {
                return None;
            }
            out = out.removed(i as u16);
        }
    }
    Some(out)
}

// The terms with the inputs fixed, at the end.
fn push_fixed(out: &mut Vec<Term>, terms: &[Term], pattern: &Pattern) -> Result<(), AllocError>
    requires { pattern.now.len ≤ 64 }
    ensures value { OnOk result ((a : ℕ → Bool) → phase_value out.new.items a ≡ phase_value out.old.items a + phase_value terms.now (set_by pattern.now a)) }
    ensures variables { OnOk result ((v : ℕ) → phase_occurs v terms.now ≡ false → phase_occurs v out.old.items ≡ false → phase_occurs v out.new.items ≡ false) }
    ensures gone { OnOk result ((v : ℕ) → is_fixed pattern.now v ≡ true → phase_occurs v out.old.items ≡ false → phase_occurs v out.new.items ≡ false) }
{
    for term in terms {
        match fixed_mono(&term.mono, pattern) {
            Some(mono) => out.push(Term {
                mono,
                phase: term.phase,
            })?,
            None => {}
        }
    }
    Ok(())
}

/// The closed sum with its fixed inputs set: it has the same qubits, and none of those that are fixed stands in its
/// phase. `AllocError` is want of memory.
///
/// Condition: the pattern has as many inputs as the sum.
pub fn restrict(alloc: Global, sum: &PathSum, pattern: &Pattern) -> Result<PathSum, AllocError>
    requires inputs { pattern.now.len ≡ sum.now.n }
    requires closed { sum.now.outs ≡ [] }
    ensures { IfOk result (IsRestricted pattern.now sum.now) }
{
    let mut terms = Vec::new(alloc);
    push_fixed(&mut terms, sum.phase.terms(), pattern)?;
    Ok(PathSum {
        n: sum.n,
        m: sum.m,
        k: sum.k,
        phase: PhasePoly::gather(terms)?,
        outs: Outputs::of(Vec::new(alloc)),
    })
}
