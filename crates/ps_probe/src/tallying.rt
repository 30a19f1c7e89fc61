//! Whether a closed sum is 1, by counting.

ghost use Rattle.std.specs.Prelude.{◌≡◌, ◌≤◌, [], ◌↔◌, IsTrue, IfOk};
ghost use Rattle.ps_prim.specs.Overlaps.{IsOne};
ghost use Rattle.ps_sum.specs.Sums.{path_values};
ghost use Rattle.ps_overlap.specs.Overlapping.{point};

use super::balancing::balances;
use super::phases::phases_at;
use ps_mono::Bits;
use ps_sum::PathSum;
use std::alloc::{AllocError, Global};

// No number of at most 65,536 phases is a greater power of the root of 2.
const MOST: i32 = 33;

/// Whether a closed sum stands for 1 at an input, by counting the assignments of its path variables by phase.
/// `AllocError` is want of memory.
///
/// Condition: at most 16 path variables.
pub fn tally(alloc: Global, sum: &PathSum, at: &Bits) -> Result<bool, AllocError>
    requires closed { sum.now.outs ≡ [] }
    requires few { sum.now.m ≤ 16 }
    ensures { IfOk result (λ b. IsTrue b ↔ IsOne (path_values sum.now) (point sum.now.n at.now)) }
{
    if sum.k < 0 || sum.k > MOST {
        return Ok(false);
    }
    let phases = phases_at(alloc, sum, at)?;
    balances(alloc, &phases, sum.k as u32)
}
