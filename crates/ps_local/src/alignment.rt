//! Where two lists of items that part are in step again.

ghost use Rattle.std.specs.Prelude.{◌≡◌, ◌<◌, map, take, IsTrue, IfSome};
ghost use Rattle.ps_reach.specs.Runs.{prims_of};
ghost use Rattle.ps_local.specs.Windows.{AreIn};

use super::ends::common_front;
use super::places::Places;
use ps_prim::Item;
use std::sync::Arc;

/// The most items of both lists together that may differ before the lists are in step again.
const WIDEST: usize = 512;

/// How many items of both lists are equal where they are in step, unless both end before.
const IN_STEP: usize = 2;

// Whether both lists have the same first items.
fn in_step(first: &[Arc<Item>], second: &[Arc<Item>]) -> bool
    ensures { IsTrue result → take 2 (map prims_of first.now) ≡ take 2 (map prims_of second.now) }
{
    let first = &first[..first.len().min(IN_STEP)];
    let second = &second[..second.len().min(IN_STEP)];
    let equal = common_front(first, second);
    equal == first.len() && equal == second.len()
}

// The first places behind which the lists are in step where so many items of both together are passed over.
fn in_step_behind(first: &[Arc<Item>], second: &[Arc<Item>], passed: usize) -> Option<Places>
    requires { passed < 512 }
    ensures { IfSome result (AreIn (map prims_of first.now) (map prims_of second.now)) }
{
    for skipped in 0..passed + 1 {
        let other = passed - skipped;
        if skipped <= first.len() && other <= second.len() {
            if in_step(&first[skipped..], &second[other..]) {
                return Some(Places {
                    first: skipped,
                    second: other,
                });
            }
        }
    }
    None
}

// The places behind which the lists are in step where the fewest items are passed over, but one at least.
fn step_behind(first: &[Arc<Item>], second: &[Arc<Item>]) -> Option<Places>
    ensures { IfSome result (AreIn (map prims_of first.now) (map prims_of second.now)) }
{
    for passed in 1..WIDEST {
        if let Some(places) = in_step_behind(first, second, passed) {
            return Some(places);
        }
    }
    None
}

/// Past the items from the given places on that are equal, and then past those that differ: the places
/// where the lists are in step again. None where more items differ than may.
pub fn next_step(first: &[Arc<Item>], second: &[Arc<Item>], from: Places) -> Option<Places>
    requires { AreIn (map prims_of first.now) (map prims_of second.now) from }
    ensures { IfSome result (AreIn (map prims_of first.now) (map prims_of second.now)) }
{
    let equal = common_front(&first[from.first..], &second[from.second..]);
    let from_first = from.first + equal;
    let from_second = from.second + equal;
    match step_behind(&first[from_first..], &second[from_second..]) {
        Some(step) => Some(Places {
            first: from_first + step.first,
            second: from_second + step.second,
        }),
        None => None,
    }
}
