//! Whether two lists of items are one linear map, asked of what is left of them.

ghost use Rattle.std.specs.Prelude.{◌≤◌, ◌↔◌, IsTrue, IfOk};
ghost use Rattle.ps_normal.specs.Fillings.{CanRun};
ghost use Rattle.ps_local.specs.Local.{NothingLeft, IsCompared, IsLocal};

use super::cut::Cut;
use super::decisions::is_unknown;
use super::local::{Found, Local};
use super::middles::cut_of;
use super::windows::found_windows;
use ps_normal::decide;
use ps_reach::{Items, Mode};
use std::alloc::{AllocError, Global};
use std::sync::Arc;

// Whether neither list has an item between front and back.
fn nothing_left(cut: &Cut) -> bool
    ensures { IsTrue result ↔ NothingLeft cut.now.first cut.now.second }
{
    cut.first.as_slice().is_empty() && cut.second.as_slice().is_empty()
}

// What comparing two lists of items finds; and where that is neither yes nor no, whether they are windows
// side by side, each of which is one map.
fn found_of(alloc: Global, first: Items, second: Items, n: u32) -> Result<Found, AllocError>
    requires width { (1 ≤ n) × (n ≤ 64) }
    requires first { CanRun n first }
    requires second { CanRun n second }
    ensures { IfOk result (IsCompared n first second) }
{
    let first = Arc::new(alloc, first)?;
    let second = Arc::new(alloc, second)?;
    let decision = decide(alloc, &first, &second, n, Mode::Exact)?;
    if !is_unknown(&decision) {
        return Ok(Found::Decided(decision));
    }
    if found_windows(alloc, first.as_slice(), second.as_slice(), n)? {
        return Ok(Found::Windows);
    }
    Ok(Found::Decided(decision))
}

/// Cuts off what two lists of items on `n` qubits have in common in front, and then at the back, and decides
/// whether what is left of them is one linear map. Where nothing is left of either, that is all. Where what is
/// left comes to neither yes nor no, it is aligned, and the windows in which it differs are decided one by one:
/// where each is one map, so are the lists. `AllocError` is want of memory.
///
/// Condition: 1 to 64 qubits, at most 65,536 items each, all on these qubits.
pub fn decide_local(
    alloc: Global,
    first: &Items,
    second: &Items,
    n: u32,
) -> Result<Local, AllocError>
    requires width { (1 ≤ n) × (n ≤ 64) }
    requires first { CanRun n first.now }
    requires second { CanRun n second.now }
    ensures { IfOk result (IsLocal n first.now second.now) }
{
    let cut = cut_of(alloc, first, second)?;
    let front = cut.front;
    let back = cut.back;
    if nothing_left(&cut) {
        return Ok(Local {
            front,
            back,
            found: Found::Nothing,
        });
    }
    let found = found_of(alloc, cut.first, cut.second, n)?;
    Ok(Local { front, back, found })
}
