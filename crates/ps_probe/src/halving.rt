//! Closed sums at half of their inputs.

ghost use Rattle.std.specs.Prelude.{◌≡◌, ◌≤◌, ◌<◌, [], IfOk};
ghost use Rattle.ps_probe.specs.Patterns.{IsFixing};
ghost use Rattle.ps_probe.specs.Searching.{IsHalf};

use super::pattern::Pattern;
use super::restricting::restrict;
use ps_sum::PathSum;
use std::alloc::{AllocError, Global};

// The pattern of so many inputs in which input `i` alone is fixed.
fn fixing(len: u32, i: u32, one: bool) -> Pattern
    requires { i < 64 }
    ensures { IsFixing len i one result }
{
    let bit = 1u64 << i;
    if one {
        Pattern {
            len,
            fixed: bit,
            ones: bit,
        }
    } else {
        Pattern {
            len,
            fixed: bit,
            ones: 0,
        }
    }
}

/// The closed sum at the inputs of which input `i` is so. It has the same qubits, and fewer terms, as a rule. `AllocError` is
/// want of memory.
pub fn half(alloc: Global, sum: &PathSum, i: u32, one: bool) -> Result<PathSum, AllocError>
    requires few { sum.now.n ≤ 64 }
    requires inside { i < sum.now.n }
    requires closed { sum.now.outs ≡ [] }
    ensures { IfOk result (IsHalf sum.now i one) }
{
    restrict(alloc, sum, &fixing(sum.n, i, one))
}
