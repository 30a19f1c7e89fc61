//! How far two lists of items are equal from the front on, and from the back on.

ghost use Rattle.std.specs.Prelude.{◌≤◌, length, map};
ghost use Rattle.ps_reach.specs.Runs.{prims_of};
ghost use Rattle.ps_local.specs.Cuts.{IsFront, IsBack};

use super::equality::same_item;
use ps_prim::Item;
use std::sync::Arc;

/// How many items are equal from the front on.
pub fn common_front(first: &[Arc<Item>], second: &[Arc<Item>]) -> usize
    ensures { IsFront (map prims_of first.now) (map prims_of second.now) result }
{
    let most = first.len().min(second.len());
    for i in 0..most {
        if !same_item(&first[i], &second[i]) {
            return i;
        }
    }
    most
}

/// How many items are equal from the back on, of those behind the first `front` of each list.
pub fn common_back(first: &[Arc<Item>], second: &[Arc<Item>], front: usize) -> usize
    requires first { front ≤ length first.now }
    requires second { front ≤ length second.now }
    ensures { IsBack (map prims_of first.now) (map prims_of second.now) front result }
{
    let most = (first.len() - front).min(second.len() - front);
    for i in 0..most {
        if !same_item(&first[first.len() - 1 - i], &second[second.len() - 1 - i]) {
            return i;
        }
    }
    most
}
