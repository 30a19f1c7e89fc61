ghost use Rattle.std.specs.Prelude.{◌≡◌, ℕ, ◌<◌, negsuc, ◌≤ℤ◌, length, IfOk, IfErr};
ghost use Rattle.ps_ring.specs.Truths.{Truths};
ghost use Rattle.ps_ring.specs.Steps.{SameNumber};
ghost use Rattle.ps_sum.specs.Sums.{path_values};
ghost use Rattle.ps_sum.specs.declared.faults.Passed.{Passed as Told};
ghost use Rattle.ps_sum.specs.declared.sums.PathSum.{PathSum as Sum};
ghost use Rattle.ps_rules.specs.Rules.{Applies, Applied, StepFits, StepPasses};

use super::checking::applies;
use super::faults::{ApplyFault, Refused};
use super::planning::{plan, planned};
use super::steps::Step;
use super::taking::taken;
use ps_sum::{Outputs, PathSum};
use std::alloc::{AllocError, Global};

/// The sum after a step, names closed up. It stands for the same number as before at every input and
/// output, and has one path variable less, or two.
///
/// `NotARedex` comes exactly where the step does not apply, and `Passed` exactly where it applies and
/// one of its raw counts is above 65,536, with the first such count; for Hh these are the terms that
/// come where the rest stands in place of `y1`, first in the phase without `y0` and then in each
/// output, and for Omega the terms of the phase that comes; Elim never passes. `Memory` is want of
/// memory.
pub fn apply(alloc: Global, sum: &PathSum, step: Step) -> Result<PathSum, ApplyFault>
    requires { negsuc 1999999997 ≤ℤ sum.now.k }
    ensures applies { IfOk result (λ s. Applies sum.now step) }
    ensures sum { IfOk result (λ s. Applied sum.now step s) }
    ensures fits { IfOk result (λ s. StepFits sum.now step) }
    ensures kept { IfOk result (λ s. (x z : Truths) → length x ≡ sum.now.n → SameNumber (path_values sum.now) (path_values s) x z) }
    ensures falls { IfOk result (λ s. s.m < sum.now.m) }
    ensures width { IfOk result (λ s. length s.outs ≡ length sum.now.outs) }
    ensures redex { IfErr result (λ e. e ≡ ApplyFault.NotARedex → Applies sum.now step → ⊥) }
    ensures passed { IfErr result (λ e. (p : Told) → e ≡ ApplyFault.Passed p → Applies sum.now step × StepPasses sum.now step p) }
{
    let parts = planned(alloc, sum, step)?;
    Ok(taken(alloc, copied(alloc, sum)?, step, &parts)?)
}

/// The same of a sum that is handed over, in place: where the step is refused the sum is handed back
/// as it was, but for want of memory.
pub fn rewrite(alloc: Global, sum: PathSum, step: Step) -> Result<PathSum, Refused>
    requires { negsuc 1999999997 ≤ℤ sum.k }
    ensures applies { IfOk result (λ s. Applies sum step) }
    ensures sum { IfOk result (λ s. Applied sum step s) }
    ensures fits { IfOk result (λ s. StepFits sum step) }
    ensures kept { IfOk result (λ s. (x z : Truths) → length x ≡ sum.n → SameNumber (path_values sum) (path_values s) x z) }
    ensures falls { IfOk result (λ s. s.m < sum.m) }
    ensures width { IfOk result (λ s. length s.outs ≡ length sum.outs) }
    ensures redex { IfErr result (λ e. (s : Sum) → e ≡ Refused.NotARedex s → (s ≡ sum) × (Applies sum step → ⊥)) }
    ensures passed { IfErr result (λ e. (p : Told) (s : Sum) → e ≡ Refused.Passed p s → (s ≡ sum) × Applies sum step × StepPasses sum step p) }
{
    if !applies(&sum, step) {
        return Err(Refused::NotARedex(sum));
    }
    advance(alloc, sum, step)
}

/// The same of a step that is known to apply, which is not looked at again.
pub fn advance(alloc: Global, sum: PathSum, step: Step) -> Result<PathSum, Refused>
    requires scale { negsuc 1999999997 ≤ℤ sum.k }
    requires applies { Applies sum step }
    ensures sum { IfOk result (λ s. Applied sum step s) }
    ensures fits { IfOk result (λ s. StepFits sum step) }
    ensures kept { IfOk result (λ s. (x z : Truths) → length x ≡ sum.n → SameNumber (path_values sum) (path_values s) x z) }
    ensures falls { IfOk result (λ s. s.m < sum.m) }
    ensures width { IfOk result (λ s. length s.outs ≡ length sum.outs) }
    ensures redex { IfErr result (λ e. (s : Sum) → e ≡ Refused.NotARedex s → ⊥) }
    ensures passed { IfErr result (λ e. (p : Told) (s : Sum) → e ≡ Refused.Passed p s → (s ≡ sum) × StepPasses sum step p) }
{
    match plan(alloc, &sum, step) {
        Ok(parts) => match taken(alloc, sum, step, &parts) {
            Ok(done) => Ok(done),
            Err(_) => Err(Refused::Memory),
        },
        Err(ApplyFault::NotARedex) => Err(Refused::NotARedex(sum)),
        Err(ApplyFault::Passed(passed)) => Err(Refused::Passed { passed, sum }),
        Err(ApplyFault::Memory) => Err(Refused::Memory),
    }
}

// The same sum, in memory of its own.
fn copied(alloc: Global, sum: &PathSum) -> Result<PathSum, AllocError>
    ensures { IfOk result (λ s. s ≡ sum.now) }
{
    let phase = sum.phase.copy()?;
    let outs = copied_outs(alloc, &sum.outs)?;
    Ok(PathSum {
        n: sum.n,
        m: sum.m,
        k: sum.k,
        phase,
        outs,
    })
}

fn copied_outs(alloc: Global, outs: &Outputs) -> Result<Outputs, AllocError>
    ensures { IfOk result (λ o. o ≡ outs.now) }
{
    let mut polys = Vec::with_capacity(alloc, outs.polys().len())?;
    for poly in outs.polys() {
        polys.push(poly.copy()?)?;
    }
    Ok(Outputs::of(polys))
}
