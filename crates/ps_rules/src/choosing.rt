ghost use Rattle.std.specs.Prelude.{◌≡◌, ℕ, ◌<◌, ◌+◌, ◌↔◌, IsTrue, MatchOption};
ghost use Rattle.ps_rules.specs.Sights.{Seen, IsHalves, IsPartner, NoneAt, FirstAt};

use super::sights::{Kind, Sight};
use super::steps::Step;
use ps_mono::Mono;
use ps_sum::PathSum;

// The step that takes path variable `y` away; of several the one with the least second variable.
pub fn step_at(sum: &PathSum, y: u16, sight: &Sight) -> Option<Step>
    requires inside { y < sum.now.m }
    requires seen { Seen (sum.now.n + y) sum.now.outs sum.now.phase sight.now }
    ensures { MatchOption result (NoneAt sum.now y) (λ s. FirstAt sum.now y s) }
{
    match sight.kind {
        Kind::Other => None,
        Kind::Free => Some(Step::Elim { y0: y }),
        Kind::Quarter => Some(Step::Omega { y0: y }),
        Kind::Halves => match least_partner(sum, y, sight) {
            Some(second) => Some(Step::Hh { y0: y, y1: second }),
            None => None,
        },
    }
}

// The least second variable beside `y`.
fn least_partner(sum: &PathSum, y: u16, sight: &Sight) -> Option<u16>
    requires inside { y < sum.now.m }
    requires halves { IsHalves (sum.now.n + y) sum.now.outs sum.now.phase sight.now.pairs sight.now.wide }
    ensures { MatchOption result (NoneAt sum.now y) (λ r. FirstAt sum.now y (Step.Hh y r)) }
{
    let n = sum.n as u16;
    let pairs = &sight.pairs;
    pairs.known();
    for place in 0..pairs.degree() {
        let u = pairs.var_at(place);
        if is_partner(n, y, &sight.wide, u) {
            return Some(u - n);
        }
    }
    None
}

// Whether `u` is a path variable other than `y`, and stands in none of the terms that have not two
// variables.
pub fn is_partner(n: u16, y: u16, wide: &Mono, u: u16) -> bool
    requires inside { n + y < 512 }
    requires small { u < 512 }
    ensures { IsTrue result ↔ IsPartner n y wide.now u }
{
    n <= u && u != n + y && !wide.contains(u)
}
