//! Reducing a sum.

ghost use Rattle.std.specs.Prelude.{◌≡◌, ◌≤◌, ◌*◌, IfOk, pos, negsuc, ◌≤ℤ◌, ◌-ℤ◌};
ghost use Rattle.ps_normal.specs.Comparing.{HasFloor};
ghost use Rattle.ps_probe.specs.Ending.{IsEnding};

use super::ending::Ending;
use ps_rules::{Refused, advance, find};
use ps_sum::PathSum;
use std::alloc::{AllocError, Global};

/// Takes first steps until none applies or one passes the limit. `AllocError` is want of memory.
pub fn reduce(alloc: Global, sum: PathSum) -> Result<Ending, AllocError>
    requires floor { HasFloor sum }
    ensures { IfOk result (IsEnding sum) }
{
    let mut current = sum;
    'reducing: loop {
        match find(&current) {
            None => return Ok(Ending::Normal(current)),
            Some(step) => match advance(alloc, current, step) {
                Ok(reduced) => current = reduced,
                Err(Refused::Passed { passed, sum }) => return Ok(Ending::Over { passed, sum }),
                Err(Refused::NotARedex(_)) => unreachable!(),
                Err(Refused::Memory) => return Err(AllocError),
            },
        }
    }
}
