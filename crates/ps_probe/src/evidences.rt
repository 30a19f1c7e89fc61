//! Evidence that a limit is passed.

ghost use Rattle.std.specs.Prelude.{◌≡◌, Some, None, IfOk};
ghost use Rattle.ps_reach.specs.Fillings.{overrun};
ghost use Rattle.ps_reach.specs.Parts.{overrun_of};

use ps_reach::Evidence;
use ps_sum::{Passed, PathSum};
use std::alloc::{AllocError, Global};
use std::sync::Arc;

/// The evidence that the first step of a sum passes the limit.
pub fn of_step(alloc: Global, passed: Passed, sum: PathSum) -> Result<Evidence, AllocError>
    ensures { IfOk result (λ e. overrun_of e ≡ overrun passed 0 0 0 sum None) }
{
    Ok(Evidence {
        passed,
        from: 0,
        middle: 0,
        to: 0,
        first: Arc::new(alloc, sum)?,
        second: None,
    })
}

/// The evidence that the overlap of two sums passes the limit.
pub fn of_overlap(
    passed: Passed,
    first: &Arc<PathSum>,
    second: &Arc<PathSum>,
) -> Result<Evidence, AllocError>
    ensures { IfOk result (λ e. overrun_of e ≡ overrun passed 0 0 0 first.now.value (Some second.now.value)) }
{
    Ok(Evidence {
        passed,
        from: 0,
        middle: 0,
        to: 0,
        first: Arc::try_clone(first)?,
        second: Some(Arc::try_clone(second)?),
    })
}

/// The same evidence, with its sums shared.
pub fn shared(evidence: &Evidence) -> Result<Evidence, AllocError>
    ensures { IfOk result (λ e. overrun_of e ≡ overrun_of evidence.now) }
{
    let second = match &evidence.second {
        Some(second) => Some(Arc::try_clone(second)?),
        None => None,
    };
    Ok(Evidence {
        passed: evidence.passed,
        from: evidence.from,
        middle: evidence.middle,
        to: evidence.to,
        first: Arc::try_clone(&evidence.first)?,
        second,
    })
}
