ghost use Rattle.std.specs.Prelude.{◌≡◌, length, IfOk, IfErr};
ghost use Rattle.ps_rules.specs.Rules.{Applies, FitsAt};
ghost use Rattle.ps_rules.specs.Plans.{IsQuotient, IsInto, Refuses};

use super::checking::applies;
use super::dividing::step_parts;
use super::faults::ApplyFault;
use super::measuring::first_above;
use super::parts::Parts;
use super::steps::Step;
use ps_sum::{Passed, PathSum, What};
use std::alloc::Global;

/// The step's parts where it applies and is within the limit.
pub fn planned(alloc: Global, sum: &PathSum, step: Step) -> Result<Parts, ApplyFault>
    ensures applies { IfOk result (λ p. Applies sum.now step) }
    ensures quotient { IfOk result (λ p. IsQuotient sum.now step p.poly) }
    ensures into { IfOk result (λ p. IsInto sum.now step p.into) }
    ensures fits { IfOk result (λ p. FitsAt sum.now step p.poly) }
    ensures fault { IfErr result (λ e. Refuses sum.now step e) }
{
    if !applies(sum, step) {
        return Err(ApplyFault::NotARedex);
    }
    plan(alloc, sum, step)
}

/// The parts of a step that applies, where it is within the limit.
pub fn plan(alloc: Global, sum: &PathSum, step: Step) -> Result<Parts, ApplyFault>
    requires { Applies sum.now step }
    ensures quotient { IfOk result (λ p. IsQuotient sum.now step p.poly) }
    ensures into { IfOk result (λ p. IsInto sum.now step p.into) }
    ensures fits { IfOk result (λ p. FitsAt sum.now step p.poly) }
    ensures fault { IfErr result (λ e. Refuses sum.now step e) }
{
    let parts = step_parts(alloc, sum, step)?;
    match first_above(sum, step, &parts) {
        Some(count) => Err(ApplyFault::Passed(Passed {
            what: What::Terms,
            count,
        })),
        None => Ok(parts),
    }
}
