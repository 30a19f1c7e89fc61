//! Two lists of items, cut side by side into windows that are decided by themselves.

ghost use Rattle.std.specs.Prelude.{◌≡◌, ◌≤◌, ℕ, map, IsTrue, IfOk, IfSome};
ghost use Rattle.ps_reach.specs.Runs.{prims_of};
ghost use Rattle.ps_reach.specs.declared.mode.Mode.TheVariants.{Exact};
ghost use Rattle.ps_normal.specs.Comparing.{IsDecision};
ghost use Rattle.ps_normal.specs.Fillings.{CanRun};
ghost use Rattle.ps_local.specs.Windows.{AreIn, IsNextWindow, AreWindows, AreWindowsTo};

use super::alignment::next_step;
use super::decisions::{is_limit, is_yes};
use super::ends::common_front;
use super::places::Places;
use ps_normal::{Decision, decide};
use ps_prim::Item;
use ps_reach::{Items, Mode};
use std::alloc::{AllocError, Global};
use std::sync::Arc;

/// How many windows, one behind the other, are tried as one where the first isn't one map by itself.
const JOINED: u32 = 16;

/// One more than there can be windows, each of which has an item of one of the lists at least.
const MOST: u32 = 131_073;

// The items as those of a segment, shared.
fn shared(alloc: Global, items: &[Arc<Item>]) -> Result<Arc<Items>, AllocError>
    ensures { IfOk result (λ s. s.value ≡ map prims_of items.now) }
{
    let mut list = Vec::with_capacity(alloc, items.len())?;
    for item in items {
        list.push(Arc::try_clone(item)?)?;
    }
    Ok(Arc::new(alloc, Items::from_vec(list))?)
}

// What comparing the items comes to.
fn compared(
    alloc: Global,
    first: &[Arc<Item>],
    second: &[Arc<Item>],
    n: u32,
) -> Result<Decision, AllocError>
    requires width { (1 ≤ n) × (n ≤ 64) }
    requires first { CanRun n (map prims_of first.now) }
    requires second { CanRun n (map prims_of second.now) }
    ensures { IfOk result (IsDecision n (map prims_of first.now) (map prims_of second.now) Exact) }
{
    let first = shared(alloc, first)?;
    let second = shared(alloc, second)?;
    decide(alloc, &first, &second, n, Mode::Exact)
}

// The end of a window that both lists begin with, and that is one map. Where the first is none, it is
// joined with those behind it, and what is equal between them. None where no such window is found.
fn first_window(
    alloc: Global,
    first: &[Arc<Item>],
    second: &[Arc<Item>],
    n: u32,
) -> Result<Option<Places>, AllocError>
    requires width { (1 ≤ n) × (n ≤ 64) }
    requires first { CanRun n (map prims_of first.now) }
    requires second { CanRun n (map prims_of second.now) }
    ensures { IfOk result (λ o. IfSome o (IsNextWindow n (map prims_of first.now) (map prims_of second.now))) }
{
    let mut end = Places {
        first: 0,
        second: 0,
    };
    for _ in 0..JOINED {
        let Some(next) = next_step(first, second, end) else {
            return Ok(None);
        };
        end = next;
        let decision = compared(alloc, &first[..end.first], &second[..end.second], n)?;
        if is_yes(&decision) {
            return Ok(Some(end));
        }
        if is_limit(&decision) {
            return Ok(None);
        }
    }
    Ok(None)
}

// Past the equal items at these places.
fn past_equal(first: &[Arc<Item>], second: &[Arc<Item>], from: Places) -> Places
    requires { AreIn (map prims_of first.now) (map prims_of second.now) from }
    ensures { (n : ℕ) → AreWindowsTo n (map prims_of first.now) (map prims_of second.now) from → AreWindowsTo n (map prims_of first.now) (map prims_of second.now) result }
{
    let equal = common_front(&first[from.first..], &second[from.second..]);
    Places {
        first: from.first + equal,
        second: from.second + equal,
    }
}

// Past the window at these places, where one is found.
fn past_window(
    alloc: Global,
    first: &[Arc<Item>],
    second: &[Arc<Item>],
    from: Places,
    n: u32,
) -> Result<Option<Places>, AllocError>
    requires width { (1 ≤ n) × (n ≤ 64) }
    requires first { CanRun n (map prims_of first.now) }
    requires second { CanRun n (map prims_of second.now) }
    requires windows { AreWindowsTo n (map prims_of first.now) (map prims_of second.now) from }
    ensures { IfOk result (λ o. IfSome o (AreWindowsTo n (map prims_of first.now) (map prims_of second.now))) }
{
    let end = first_window(alloc, &first[from.first..], &second[from.second..], n)?;
    match end {
        Some(end) => Ok(Some(Places {
            first: from.first + end.first,
            second: from.second + end.second,
        })),
        None => Ok(None),
    }
}

/// Whether the two lists are found to be windows side by side, each of which is one map on `n` qubits: they
/// are aligned from the front on, and each window is compared by itself. `AllocError` is want of memory.
///
/// Condition: 1 to 64 qubits, at most 65,536 items each, all on these qubits.
pub fn found_windows(
    alloc: Global,
    first: &[Arc<Item>],
    second: &[Arc<Item>],
    n: u32,
) -> Result<bool, AllocError>
    requires width { (1 ≤ n) × (n ≤ 64) }
    requires first { CanRun n (map prims_of first.now) }
    requires second { CanRun n (map prims_of second.now) }
    ensures { IfOk result (λ b. IsTrue b → AreWindows n (map prims_of first.now) (map prims_of second.now)) }
{
    let mut at = Places {
        first: 0,
        second: 0,
    };
    for _ in 0..MOST {
        at = past_equal(first, second, at);
        if at.first == first.len() && at.second == second.len() {
            return Ok(true);
        }
        let Some(end) = past_window(alloc, first, second, at, n)? else {
            return Ok(false);
        };
        at = end;
    }
    Ok(false)
}
