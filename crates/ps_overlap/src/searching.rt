ghost use Rattle.std.specs.Prelude.{◌≡◌, ℕ, ◌<◌, IfSome, IsNone, ◌↔◌, []};
ghost use Rattle.ps_overlap.specs.Overlapping.{LeastVanishing, NoneVanishes};

use super::looking::looked;
use ps_sum::{PathSum, first_variables};

/// The least path variable that vanishes in a closed sum, or none exactly where none does. Takes no
/// memory.
///
/// A path variable vanishes where it has a term, and each of its terms is half a turn and has inputs
/// alone beside it.
pub fn vanishing(sum: &PathSum) -> Option<u16>
    requires closed { sum.now.outs ≡ [] }
    ensures least { IfSome result (λ y. LeastVanishing sum.now y) }
    ensures none { IsNone result ↔ NoneVanishes sum.now }
{
    let seen = looked(sum.phase.terms(), &first_variables(sum.n), sum.n);
    for y in 0..sum.m as u16 {
        let v = sum.n as u16 + y;
        if seen.halves.contains(v) && !seen.others.contains(v) {
            return Some(y);
        }
    }
    None
}
