//! The first input at which a closed sum is not 1.

ghost use Rattle.std.specs.Prelude.{◌≡◌, ◌≤◌, [], IfOk};
ghost use Rattle.ps_probe.specs.Searching.{IsBegun, Searched};

use super::halving::half;
use super::pattern::Pattern;
use super::tallying::tally;
use ps_mono::{Bits, Mono};
use ps_sum::PathSum;
use std::alloc::{AllocError, Global};

/// The first of the inputs that match the pattern and are as `at` before input `from` at which the closed sum is
/// not 1; none where it is 1 at each. They ascend, input 0 being the highest digit. `AllocError` is want of memory.
///
/// Each input that is free halves the inputs, and leaves fewer terms to look at in each half.
pub fn first_other(
    alloc: Global,
    sum: &PathSum,
    pattern: &Pattern,
    at: Bits,
    from: u32,
) -> Result<Option<Bits>, AllocError>
    requires inputs { pattern.now.len ≡ sum.now.n }
    requires closed { sum.now.outs ≡ [] }
    requires few { sum.now.m ≤ 16 }
    requires place { from ≤ sum.now.n }
    requires begun { IsBegun pattern.now sum.now at from }
    ensures { IfOk result (Searched pattern.now sum.now at from) }
{
    if from == sum.n {
        let is_one = tally(alloc, sum, &at)?;
        // That the bits are in their one form.
        let _known = Mono::of_bits(&at);
        return Ok(if is_one { None } else { Some(at) });
    }
    let mut next = at;
    if pattern.is_fixed(from) {
        next.set(from as u16, pattern.is_one(from));
        return first_other(alloc, sum, pattern, next, from + 1);
    }
    next.set(from as u16, false);
    let low = half(alloc, sum, from, false)?;
    match first_other(alloc, &low, pattern, next, from + 1)? {
        Some(found) => Ok(Some(found)),
        None => {
            next.set(from as u16, true);
            let high = half(alloc, sum, from, true)?;
            first_other(alloc, &high, pattern, next, from + 1)
        }
    }
}
