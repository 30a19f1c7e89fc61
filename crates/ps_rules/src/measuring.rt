ghost use Rattle.std.specs.Prelude.{◌≡◌, ℕ, ◌<◌, ◌≤◌, ◌+◌, min, cond, length, map, MatchOption};
ghost use Rattle.ps_mono.specs.Sets.{stands};
ghost use Rattle.ps_phase.specs.Adding.{terms_without};
ghost use Rattle.ps_sum.specs.Counts.{binomial, raw_term, raw_phase, raw_bool};
ghost use Rattle.ps_rules.specs.Rules.{Applies, HhApplies, OmegaApplies, NoneAbove, step_counts};
ghost use Rattle.ps_rules.specs.Plans.{IsInto, IsLeft, IsFirstTold};

use super::parts::Parts;
use super::steps::Step;
use ps_bool::BoolPoly;
use ps_phase::Term;
use ps_ring::Phase;
use ps_sum::{PathSum, raw_bool, raw_phase, raw_term};

// Counts are told as this number where they are above it.
const CAP: u64 = 1_000_000_000_000;

// So many terms may a step make.
const LIMIT: u64 = 65_536;

// So many monomials in place of a variable in so many others are within the limit.
const FEW: u64 = 256;

// A quarter of a turn.
const QUARTER: u32 = 1073741824;

/// The first raw count of the step that is above the limit, where these are its parts; told as 10^12
/// where it is above that.
pub fn first_above(sum: &PathSum, step: Step, parts: &Parts) -> Option<u64>
    requires applies { Applies sum.now step }
    requires into { IsInto sum.now step parts.now.into }
    requires left { IsLeft sum.now step parts.now.left }
    ensures { MatchOption result (NoneAbove (step_counts sum.now step (length parts.now.poly))) (λ c. IsFirstTold (step_counts sum.now step (length parts.now.poly)) c) }
{
    match step {
        Step::Elim { y0: _ } => None,
        Step::Hh { y0, y1 } => hh_above(sum, y0, y1, parts),
        Step::Omega { y0 } => omega_above(sum, y0, &parts.poly),
    }
}

fn hh_above(sum: &PathSum, y0: u16, y1: u16, parts: &Parts) -> Option<u64>
    requires applies { HhApplies sum.now y0 y1 }
    requires into { IsInto sum.now (Step.Hh y0 y1) parts.now.into }
    requires left { IsLeft sum.now (Step.Hh y0 y1) parts.now.left }
    ensures { MatchOption result (NoneAbove (step_counts sum.now (Step.Hh y0 y1) (length parts.now.poly))) (λ c. IsFirstTold (step_counts sum.now (Step.Hh y0 y1) (length parts.now.poly)) c) }
{
    let v = sum.n as u16 + y1;
    let made = raw_phase(&parts.into, v, &parts.poly);
    let terms = (parts.left.min(CAP) + made).min(CAP);
    if terms > LIMIT {
        return Some(terms);
    }
    outs_above(sum.outs.polys(), v, &parts.poly)
}

fn omega_above(sum: &PathSum, y0: u16, poly: &BoolPoly) -> Option<u64>
    requires { OmegaApplies sum.now y0 }
    ensures { MatchOption result (NoneAbove (step_counts sum.now (Step.Omega y0) (length poly.now))) (λ c. IsFirstTold (step_counts sum.now (Step.Omega y0) (length poly.now)) c) }
{
    let kept = kept_count(sum.phase.terms(), sum.n as u16 + y0).min(CAP);
    let count = (kept + 1 + raw_term(Phase::of(QUARTER), poly.count())).min(CAP);
    if count > LIMIT { Some(count) } else { None }
}

// The first raw count of the outputs that is above the limit, where `by` is put in place of v.
fn outs_above(outs: &[BoolPoly], v: u16, by: &BoolPoly) -> Option<u64>
    requires { v < 512 }
    ensures { MatchOption result (NoneAbove (map (λ f. raw_bool v (length by.now) f) outs.now)) (λ c. IsFirstTold (map (λ f. raw_bool v (length by.now) f) outs.now) c) }
{
    for poly in outs {
        let count = told_count(poly, v, by);
        if count > LIMIT {
            return Some(count);
        }
    }
    None
}

// The raw count of an output where it is above the limit; most are so short that it cannot be.
fn told_count(poly: &BoolPoly, v: u16, by: &BoolPoly) -> u64
    requires { v < 512 }
    ensures within { result ≤ 65536 → raw_bool v (length by.now) poly.now ≤ 65536 }
    ensures above { 65536 < result → result ≡ min (raw_bool v (length by.now) poly.now) 1000000000000 }
{
    if poly.count() <= FEW && by.count() <= FEW {
        return 0;
    }
    raw_bool(poly, v, by)
}

// How many terms are without v.
fn kept_count(terms: &[Term], v: u16) -> u64
    requires { v < 512 }
    ensures { result ≡ length (terms_without v terms.now) }
{
    let mut count = 0;
    for term in terms {
        if !term.mono.contains(v) {
            count += 1;
        }
    }
    count
}
