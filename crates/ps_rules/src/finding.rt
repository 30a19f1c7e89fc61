ghost use Rattle.std.specs.Prelude.{◌≡◌, ℕ, ◌<◌, ◌≤◌, ◌+◌, ◌↔◌, IsNone, IfSome, MatchOption, length};
ghost use Rattle.ps_rules.specs.Rules.{FirstStep, IsIrreducible};
ghost use Rattle.ps_rules.specs.Sights.{Seen, IsFresh, EachSight, NoneFrom, FirstFrom};

use super::checking::known_sight;
use super::choosing::step_at;
use super::looking::look;
use super::sights::{Sight, unseen};
use super::spoiling::spoilt;
use super::steps::Step;
use ps_sum::PathSum;

// So many variables are looked at one by one.
const FEW: u32 = 8;

// So many variables are looked at together.
const WINDOW: usize = 128;

/// The first step that applies: the one that takes the least path variable away, and of several Hh
/// the one with the least second variable. `None` where no step applies.
///
/// It takes no memory, and reads each term at most 13 times, however many variables there are; where
/// no variable can go or the first that may does, at most twice.
pub fn find(sum: &PathSum) -> Option<Step>
    ensures first { IfSome result (λ s. FirstStep sum.now s) }
    ensures none { IsNone result ↔ IsIrreducible sum.now }
{
    if sum.m == 0 {
        return None;
    }
    let spoilt = spoilt(sum);
    let mut tried = 0;
    for y in 0..sum.m as u16 {
        if tried == FEW {
            return first_of_all(sum);
        }
        if !spoilt.get(sum.n as u16 + y) {
            let sight = known_sight(sum, y, false);
            match step_at(sum, y, &sight) {
                Some(step) => return Some(step),
                None => {}
            }
            tried += 1;
        }
    }
    None
}

// The same, where many variables are looked at together.
fn first_of_all(sum: &PathSum) -> Option<Step>
    ensures first { IfSome result (λ s. FirstStep sum.now s) }
    ensures none { IsNone result ↔ IsIrreducible sum.now }
{
    for window in 0..4u16 {
        let low = window * 128;
        if low as u32 >= sum.m {
            return None;
        }
        match first_from(sum, low) {
            Some(step) => return Some(step),
            None => {}
        }
    }
    None
}

// The first step that takes one of the variables from `low` up to `low + 128` away.
fn first_from(sum: &PathSum, low: u16) -> Option<Step>
    requires { low < sum.now.m }
    ensures { MatchOption result (NoneFrom sum.now low (low + 128)) (λ s. FirstFrom sum.now low s) }
{
    let mut sights = [unseen(false); WINDOW];
    look(&mut sights, sum.n as u16 + low, sum);
    first_in(&sights, sum, low)
}

// The first step among these, of the variables from `low` on.
fn first_in(sights: &[Sight], sum: &PathSum, low: u16) -> Option<Step>
    requires seen { EachSight (λ v s. Seen v sum.now.outs sum.now.phase s) (sum.now.n + low) sights.now }
    ensures { MatchOption result (NoneFrom sum.now low (low + length sights.now)) (λ s. FirstFrom sum.now low s) }
{
    for (i, sight) in sights.iter().enumerate() {
        if i + low as usize >= sum.m as usize {
            return None;
        }
        match step_at(sum, low + i as u16, sight) {
            Some(step) => return Some(step),
            None => {}
        }
    }
    None
}
