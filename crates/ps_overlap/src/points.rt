ghost use Rattle.std.specs.Prelude.{◌≡◌, ◌≢◌, ℕ, ◌<◌, ◌+◌, true, [], pos, MatchOption};
ghost use Rattle.std.proofs.Math.IntN.{ℤ};
ghost use Rattle.ps_phase.specs.Adding.{terms_with};
ghost use Rattle.ps_phase.specs.Phases.{phase_occurs, IsPhasePoly};
ghost use Rattle.ps_prim.specs.Overlaps.{IsOne, IsTurn};
ghost use Rattle.ps_ring.specs.Sums.{signed_count};
ghost use Rattle.ps_sum.specs.Sums.{path_values};
ghost use Rattle.ps_overlap.specs.Overlapping.{Vanishes, point, IsLeastPoint, IsFirstPoint, IsConstant, HasVariable, IsTurningPoint};
ghost use Rattle.ps_overlap.specs.Terms.{LeastQuotient};

use ps_mono::{Bits, Mono};
use ps_phase::Term;
use ps_ring::Phase;
use ps_sum::PathSum;

// Just the variables of the monomial are true.
fn true_in(mono: &Mono) -> Bits
    ensures { result ≡ mono.now }
{
    mono.known();
    let mut bits = Bits::zero();
    for place in 0..mono.degree() {
        bits.set(mono.var_at(place), true);
    }
    bits
}

// The first of the terms with `v`, divided by it.
fn first_quotient(terms: &[Term], v: u16) -> Mono
    requires small { v < 512 }
    requires form { IsPhasePoly terms.now }
    requires some { phase_occurs v terms.now ≡ true }
    ensures { LeastQuotient v (terms_with v terms.now) result }
{
    for term in terms {
        if term.mono.contains(v) {
            return term.mono.removed(v);
        }
    }
    unreachable!()
}

/// Makes just the inputs of the least of `y`'s monomials true, each divided by `y`, which vanishes.
/// There the sum, as a closed one, is 0. Takes no memory.
pub fn least_point(sum: &PathSum, y: u16, at: &mut Bits)
    requires { Vanishes sum.now y }
    ensures point { IsLeastPoint sum.now y at.new }
    ensures zero { (j : ℤ) → signed_count (path_values sum.now) (point sum.now.n at.new) [] j ≡ pos 0 }
    ensures not_one { ¬ (IsOne (path_values sum.now) (point sum.now.n at.new)) }
{
    let v = sum.n as u16 + y;
    *at = true_in(&first_quotient(sum.phase.terms(), v));
}

/// Makes no variable true where the scale of the sum is not 0, else just the inputs of the phase's
/// least monomial. The sum has no path variables, and is not 1, the one with neither scale nor phase;
/// at this point it is, as a closed one, not 1. Takes no memory.
pub fn first_point(sum: &PathSum, at: &mut Bits)
    requires plain { sum.now.m ≡ 0 }
    requires not_unit { sum.now.k ≡ pos 0 → sum.now.phase ≢ [] }
    ensures point { IsFirstPoint sum.now at.new }
    ensures not_one { ¬ (IsOne (path_values sum.now) (point sum.now.n at.new)) }
{
    if sum.k == 0 {
        let terms = sum.phase.terms();
        *at = true_in(&terms[0].mono);
    } else {
        *at = Bits::zero();
    }
}

/// The phase of the sum where it is the same at all inputs and path variables. `None` exactly where a
/// term has a variable. Takes no memory.
pub fn constant_phase(sum: &PathSum) -> Option<Phase>
    ensures { MatchOption result (HasVariable sum.now.phase) (λ p. IsConstant sum.now.phase p) }
{
    let terms = sum.phase.terms();
    if terms.is_empty() {
        return Some(Phase::of(0));
    }
    if terms.len() > 1 {
        return None;
    }
    let first = &terms[0];
    if first.mono.degree() == 0 {
        Some(first.phase)
    } else {
        None
    }
}

/// Makes just the inputs of the phase's least monomial with a variable true. A closed sum without path
/// variables does not stand for one phase both there and where no input is true. Takes no memory.
///
/// Condition: a term has a variable.
pub fn turning_point(sum: &PathSum, at: &mut Bits)
    requires { HasVariable sum.now.phase }
    ensures point { IsTurningPoint sum.now.phase at.new }
    ensures apart { sum.now.m ≡ 0 → sum.now.outs ≡ [] → (p : ℕ) → IsTurn (path_values sum.now) (point sum.now.n []) p → ¬ (IsTurn (path_values sum.now) (point sum.now.n at.new) p) }
{
    let terms = sum.phase.terms();
    let first = &terms[0].mono;
    if first.degree() == 0 {
        *at = true_in(&terms[1].mono);
    } else {
        *at = true_in(first);
    }
}
