ghost use Rattle.std.specs.Prelude.{◌≡◌, ℕ, true, ◌<◌, ◌+◌, ◌↔◌, IsTrue};
ghost use Rattle.ps_sum.specs.Outs.{outs_occur};
ghost use Rattle.ps_rules.specs.Rules.{ElimApplies, HhApplies, OmegaApplies, Applies};
ghost use Rattle.ps_rules.specs.Sights.{Seen, IsPartner};
ghost use Rattle.ps_mono.specs.Sets.{stands};

use super::choosing::is_partner;
use super::sights::{Kind, Sight, seen, unseen};
use super::steps::Step;
use ps_bool::BoolPoly;
use ps_sum::PathSum;

// Whether the step applies.
pub fn applies(sum: &PathSum, step: Step) -> bool
    ensures { IsTrue result ↔ Applies sum.now step }
{
    match step {
        Step::Elim { y0 } => eliminates(sum, y0),
        Step::Hh { y0, y1 } => replaces(sum, y0, y1),
        Step::Omega { y0 } => quarters(sum, y0),
    }
}

fn eliminates(sum: &PathSum, y0: u16) -> bool
    ensures { IsTrue result ↔ ElimApplies sum.now y0 }
{
    if y0 as u32 >= sum.m {
        return false;
    }
    match sight_of(sum, y0).kind {
        Kind::Free => true,
        Kind::Halves => false,
        Kind::Quarter => false,
        Kind::Other => false,
    }
}

fn quarters(sum: &PathSum, y0: u16) -> bool
    ensures { IsTrue result ↔ OmegaApplies sum.now y0 }
{
    if y0 as u32 >= sum.m {
        return false;
    }
    match sight_of(sum, y0).kind {
        Kind::Quarter => true,
        Kind::Free => false,
        Kind::Halves => false,
        Kind::Other => false,
    }
}

fn replaces(sum: &PathSum, y0: u16, y1: u16) -> bool
    ensures { IsTrue result ↔ HhApplies sum.now y0 y1 }
{
    if y0 as u32 >= sum.m || y1 as u32 >= sum.m {
        return false;
    }
    let sight = sight_of(sum, y0);
    match sight.kind {
        Kind::Halves => pairs_with(&sight, sum.n as u16, y0, y1),
        Kind::Free => false,
        Kind::Quarter => false,
        Kind::Other => false,
    }
}

// Whether path variable `y1` is a second variable beside `y0`.
fn pairs_with(sight: &Sight, n: u16, y0: u16, y1: u16) -> bool
    requires first { n + y0 < 512 }
    requires second { n + y1 < 512 }
    ensures { IsTrue result ↔ ((stands (n + y1) sight.now.pairs ≡ true) × IsPartner n y0 sight.now.wide (n + y1)) }
{
    sight.pairs.contains(n + y1) && is_partner(n, y0, &sight.wide, n + y1)
}

// What the sum's terms say of path variable `y`.
pub fn sight_of(sum: &PathSum, y: u16) -> Sight
    requires { y < sum.now.m }
    ensures { Seen (sum.now.n + y) sum.now.outs sum.now.phase result }
{
    let spoken = is_spoken(sum.outs.polys(), sum.n as u16 + y);
    known_sight(sum, y, spoken)
}

// The same where it is known whether the variable stands in an output. No term is read behind the
// first that tells that no step takes it away.
pub fn known_sight(sum: &PathSum, y: u16, spoken: bool) -> Sight
    requires inside { y < sum.now.m }
    requires outputs { spoken ≡ outs_occur (sum.now.n + y) sum.now.outs }
    ensures { Seen (sum.now.n + y) sum.now.outs sum.now.phase result }
{
    let v = sum.n as u16 + y;
    let mut sight = unseen(spoken);
    for term in sum.phase.terms() {
        if term.mono.contains(v) {
            sight = seen(&sight, term);
            if let Kind::Other = sight.kind {
                return sight;
            }
        }
    }
    sight
}

// Whether `v` stands in an output.
pub fn is_spoken(outs: &[BoolPoly], v: u16) -> bool
    requires { v < 512 }
    ensures { result ≡ outs_occur v outs.now }
{
    for poly in outs {
        if poly.contains(v) {
            return true;
        }
    }
    false
}
