//! Reducing a sum.

ghost use Rattle.std.specs.Prelude.{◌≡◌, ◌≤◌, ◌*◌, Ok, IfOk, IfSome, IsNone, OnOk, pos, negsuc, ◌≤ℤ◌, ◌-ℤ◌};
ghost use Rattle.ps_io.specs.Counts.{Rose};
ghost use Rattle.ps_rules.specs.Rules.{FirstStep, IsIrreducible};
ghost use Rattle.ps_normal.specs.Ends.{IsEnded, HasRisen};
ghost use Rattle.ps_normal.specs.Suspecting.{NoneBeside};

use super::parts::Ended;
use ps_io::Stop;
use ps_mono::Mono;
use ps_rules::{Refused, Step, advance, find, find_among};
use ps_sum::PathSum;
use std::alloc::{AllocError, Global};

/// Takes first steps until none applies or one passes the limit, and puts them in place of what
/// `steps` had. It asks whether to stop before each.
pub fn reduce<S: Stop>(
    alloc: Global,
    sum: PathSum,
    steps: &mut Vec<Step>,
    stop: &mut S,
) -> Result<Ended, AllocError>
    requires floor { negsuc 1999999999 ≤ℤ (sum.k -ℤ pos (2 * sum.m)) }
    ensures ended { IfOk result (λ e. IsEnded sum steps.new.items e) }
    ensures stopped { IfOk result (λ e. HasRisen (S.yeses stop.old) (S.yeses stop.new) e) }
    ensures never_falls { S.yeses stop.old ≤ S.yeses stop.new }
{
    let first = find(&sum);
    reduce_from(alloc, sum, first, steps, stop)
}

/// The same where a step can take away none but path variables among these.
pub fn reduce_among<S: Stop>(
    alloc: Global,
    sum: PathSum,
    among: &Mono,
    steps: &mut Vec<Step>,
    stop: &mut S,
) -> Result<Ended, AllocError>
    requires floor { negsuc 1999999999 ≤ℤ (sum.k -ℤ pos (2 * sum.m)) }
    requires others { NoneBeside sum among.now }
    ensures ended { IfOk result (λ e. IsEnded sum steps.new.items e) }
    ensures stopped { IfOk result (λ e. HasRisen (S.yeses stop.old) (S.yeses stop.new) e) }
    ensures never_falls { S.yeses stop.old ≤ S.yeses stop.new }
{
    let first = find_among(&sum, among);
    reduce_from(alloc, sum, first, steps, stop)
}

// The same, where the first step is known.
fn reduce_from<S: Stop>(
    alloc: Global,
    sum: PathSum,
    first: Option<Step>,
    steps: &mut Vec<Step>,
    stop: &mut S,
) -> Result<Ended, AllocError>
    requires floor { negsuc 1999999999 ≤ℤ (sum.k -ℤ pos (2 * sum.m)) }
    requires first { IfSome first (λ s. FirstStep sum s) }
    requires none { IsNone first → IsIrreducible sum }
    ensures ended { IfOk result (λ e. IsEnded sum steps.new.items e) }
    ensures stopped { IfOk result (λ e. HasRisen (S.yeses stop.old) (S.yeses stop.new) e) }
    ensures never_falls { S.yeses stop.old ≤ S.yeses stop.new }
{
    steps.clear();
    let mut current = sum;
    let mut next = first;
    'reducing: loop {
        match next {
            None => return Ok(Ended::Normal(current)),
            Some(step) => {
                if stop.asked() {
                    return Ok(Ended::Stopped);
                }
                match advance(alloc, current, step) {
                    Ok(reduced) => {
                        steps.push(step)?;
                        current = reduced;
                        next = find(&current);
                    }
                    Err(Refused::Passed { passed, sum }) => return Ok(Ended::Over { passed, sum }),
                    Err(Refused::NotARedex(_)) => unreachable!(),
                    Err(Refused::Memory) => return Err(AllocError),
                }
            }
        }
    }
}
