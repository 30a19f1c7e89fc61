//! Two lists of items, cut where they part.

ghost use Rattle.std.specs.Prelude.{◌≡◌, ◌≤◌, length, map, reverse, IfOk};
ghost use Rattle.ps_reach.specs.Runs.{prims_of};
ghost use Rattle.ps_local.specs.Cuts.{from_back, IsCut};

use super::cut::Cut;
use super::ends::{common_back, common_front};
use super::fronts::split_front;
use ps_prim::Item;
use ps_reach::Items;
use std::alloc::{AllocError, Global};
use std::sync::Arc;

// The items without the last ones, from the last one on.
fn turned(items: Vec<Arc<Item>>, back: usize) -> Vec<Arc<Item>>
    requires { back ≤ length items.items }
    ensures { map prims_of result.items ≡ from_back (map prims_of items.items) back }
{
    let mut items = items;
    items.truncate(items.len() - back);
    items.reverse();
    items
}

// The items that were read from the last one on.
fn turned_back(items: Vec<Arc<Item>>) -> Items
    ensures { reverse result ≡ map prims_of items.items }
{
    let mut items = items;
    items.reverse();
    Items::from_vec(items)
}

/// Cuts off both lists what they have in common in front, and then what they have in common at the back, where
/// neighbours without a common qubit may stand in either order. `AllocError` is want of memory.
pub fn cut_of(alloc: Global, first: &Items, second: &Items) -> Result<Cut, AllocError>
    ensures { IfOk result (λ c. IsCut first.now second.now c) }
{
    let first = first.as_slice();
    let second = second.as_slice();
    let front = common_front(first, second);
    let fronts = split_front(alloc, &first[front..], &second[front..])?;
    let back = common_back(&fronts.first, &fronts.second, 0);
    let before = turned(fronts.first, back);
    let behind = turned(fronts.second, back);
    let backs = split_front(alloc, &before, &behind)?;
    Ok(Cut {
        front: front + fronts.count,
        back: back + backs.count,
        first: turned_back(backs.first),
        second: turned_back(backs.second),
    })
}
