ghost use Rattle.std.specs.Prelude.{◌≡◌, ℕ, ◌<◌, ◌≤◌, ◌+◌, ◌↔◌, true, false, IsTrue, IsNone, IfSome, MatchOption};
ghost use Rattle.ps_mono.specs.Sets.{stands};
ghost use Rattle.ps_sum.specs.Outs.{outs_occur};
ghost use Rattle.ps_rules.specs.Rules.{FirstStep, IsIrreducible, first_of};
ghost use Rattle.ps_rules.specs.Sights.{NoneAt, FirstAt};

use super::checking::{is_spoken, sight_of};
use super::choosing::step_at;
use super::steps::Step;
use ps_bool::BoolPoly;
use ps_mono::Mono;
use ps_sum::PathSum;

/// The first step that applies, as `find` gives it, where no step takes a path variable away that is
/// not among these variables. Only they are looked at, in order, up to the first that can go; other
/// variables among them, as inputs, do not matter. It takes no memory.
pub fn find_among(sum: &PathSum, among: &Mono) -> Option<Step>
    requires { (y : ℕ) → stands (sum.now.n + y) among.now ≡ false → NoneAt sum.now y }
    ensures first { IfSome result (λ s. FirstStep sum.now s) }
    ensures none { IsNone result ↔ IsIrreducible sum.now }
{
    among.known();
    for place in 0..among.degree() {
        match step_of(sum, among.var_at(place)) {
            Some(step) => return Some(step),
            None => {}
        }
    }
    None
}

// The step that takes variable `v` away, where it is a path variable; of several the one with the
// least second variable.
fn step_of(sum: &PathSum, v: u16) -> Option<Step>
    requires { v < 512 }
    ensures { MatchOption result ((y : ℕ) → v ≡ sum.now.n + y → NoneAt sum.now y) (λ s. (v ≡ sum.now.n + first_of s) × FirstAt sum.now (first_of s) s) }
{
    let n = sum.n as u16;
    if v < n {
        return None;
    }
    let y = v - n;
    if y as u32 >= sum.m {
        return None;
    }
    let sight = sight_of(sum, y);
    step_at(sum, y, &sight)
}

/// Whether each of these variables from `n` on stands in an output.
pub fn are_spoken(outs: &[BoolPoly], among: &Mono, n: u16) -> bool
    ensures { IsTrue result ↔ ((v : ℕ) → n ≤ v → stands v among.now ≡ true → outs_occur v outs.now ≡ true) }
{
    for place in 0..among.degree() {
        if !is_input_or_spoken(outs, among.var_at(place), n) {
            return false;
        }
    }
    true
}

// Whether `v` is below `n`, or stands in an output.
fn is_input_or_spoken(outs: &[BoolPoly], v: u16, n: u16) -> bool
    requires { v < 512 }
    ensures { IsTrue result ↔ (n ≤ v → outs_occur v outs.now ≡ true) }
{
    if v < n {
        return true;
    }
    is_spoken(outs, v)
}
