ghost use Rattle.std.specs.Prelude.{◌≡◌, ℕ, ◌<◌, ◌≤◌, ◌+◌, Bool, true, false, ◌||◌, List, [], ◌∷◌, ◌++◌, length};
ghost use Rattle.ps_mono.specs.Sets.{stands};
ghost use Rattle.ps_bool.specs.Polys.{occurs};
ghost use Rattle.ps_phase.specs.declared.terms.Term.{Term};
ghost use Rattle.ps_phase.specs.Phases.{IsPhasePoly};
ghost use Rattle.ps_sum.specs.Outs.{outs_occur};
ghost use Rattle.ps_rules.specs.Sights.{Seen, IsFresh, EachSight};

use super::sights::{Sight, seen, unseen};
use ps_bool::BoolPoly;
use ps_mono::Mono;
use ps_phase::Term;
use ps_sum::PathSum;

// Reads the sum once for all variables from `base` on that have a sight here.
pub fn look(sights: &mut [Sight], base: u16, sum: &PathSum)
    requires small { base ≤ 512 }
    requires room { length sights.old ≤ 512 }
    requires fresh { EachSight (λ v s. IsFresh false s) base sights.old }
    ensures { EachSight (λ v s. Seen v sum.now.outs sum.now.phase s) base sights.new }
{
    mark_outs(sights, base, sum.outs.polys());
    for term in sum.phase.terms() {
        look_at(sights, base, term);
    }
}

// One term more.
fn look_at(sights: &mut [Sight], base: u16, term: &Term)
    requires small { base ≤ 512 }
    requires room { length sights.old ≤ 512 }
    ensures { (outs : List (List (List ℕ))) (ts : List Term) → IsPhasePoly (ts ++ term.now ∷ []) → EachSight (λ v s. Seen v outs ts s) base sights.old → EachSight (λ v s. Seen v outs (ts ++ term.now ∷ []) s) base sights.new }
{
    for place in 0..term.mono.degree() {
        let u = term.mono.var_at(place);
        if base <= u && ((u - base) as usize) < sights.len() {
            let at = (u - base) as usize;
            let next = seen(&sights[at], term);
            sights[at] = next;
        }
    }
}

// Marks the variables that stand in an output.
fn mark_outs(sights: &mut [Sight], base: u16, outs: &[BoolPoly])
    requires small { base ≤ 512 }
    requires room { length sights.old ≤ 512 }
    requires fresh { EachSight (λ v s. IsFresh false s) base sights.old }
    ensures { EachSight (λ v s. IsFresh (outs_occur v outs.now) s) base sights.new }
{
    for poly in outs {
        mark_poly(sights, base, poly);
    }
}

// Marks the variables that stand in one output more.
fn mark_poly(sights: &mut [Sight], base: u16, poly: &BoolPoly)
    requires small { base ≤ 512 }
    requires room { length sights.old ≤ 512 }
    ensures { (p : ℕ → Bool) → EachSight (λ v s. IsFresh (p v) s) base sights.old → EachSight (λ v s. IsFresh (p v || occurs v poly.now) s) base sights.new }
{
    for mono in poly.monos() {
        mark_mono(sights, base, mono);
    }
}

// Marks the variables of one monomial more.
fn mark_mono(sights: &mut [Sight], base: u16, mono: &Mono)
    requires small { base ≤ 512 }
    requires room { length sights.old ≤ 512 }
    ensures { (p : ℕ → Bool) → EachSight (λ v s. IsFresh (p v) s) base sights.old → EachSight (λ v s. IsFresh (p v || stands v mono.now) s) base sights.new }
{
    for place in 0..mono.degree() {
        let u = mono.var_at(place);
        if base <= u && ((u - base) as usize) < sights.len() {
            sights[(u - base) as usize] = unseen(true);
        }
    }
}
