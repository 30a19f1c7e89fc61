//! The records of segments.

ghost use Rattle.std.specs.Prelude.{◌≡◌, ℕ, ◌≤◌, ◌<◌, ◌++◌, [], length, map, IfOk, OnOk};
ghost use Rattle.ps_prim.specs.Maps.{AllWithin};
ghost use Rattle.ps_reach.specs.Runs.{prims_of, run_of};
ghost use Rattle.ps_reach.specs.Parts.{outcome_by, IsRight};
ghost use Rattle.ps_reach.specs.Judging.{outcome_of};
ghost use Rattle.ps_reach.specs.Fillings.{raised, Fills};
ghost use Rattle.ps_normal.specs.Keeping.{IsTable};
ghost use Rattle.ps_normal.specs.Takings.{Takes, TakenRose};
ghost use Rattle.ps_normal.specs.Pieces.{PartIs, PartRose};
ghost use Rattle.ps_normal.specs.Fillings.{CanJoin, CanRun, CanFill, IsRecordOf, IsFilled, IsFilledRun, FilledRose, Joined};

use super::children::fill_children;
use super::filled::Filled;
use super::kept::Workspace;
use super::parts::Taken;
use super::takings::take_items;
use ps_io::Stop;
use ps_join::identity;
use ps_reach::{Body, Items, Moves, Record, Task, Work};
use ps_rules::Move;
use std::alloc::{AllocError, Global};
use std::sync::Arc;

/// The record with these parts.
pub fn record(n: u32, items: Arc<Items>, moves: Vec<Move>, body: Body) -> Record
    requires width { (1 ≤ n) × (n ≤ 64) }
    requires run { CanRun n items.value }
    requires right { ∥ IsRight n (run_of items.value) moves.items body ∥₁ }
    ensures qubits { result.n ≡ n }
    ensures items { result.items.value ≡ items.value }
    ensures outcome { outcome_of result ≡ outcome_by moves.items body }
{
    Record {
        n,
        items,
        moves: Moves::from_vec(moves),
        body,
    }
}

// The record of no prim.
fn empty_record(alloc: Global, n: u32, items: Arc<Items>) -> Result<Record, AllocError>
    requires width { (1 ≤ n) × (n ≤ 64) }
    requires run { CanRun n items.value }
    requires none { run_of items.value ≡ [] }
    ensures { IfOk result (λ r. IsRecordOf n items.value (Fills n (run_of items.value)) r) }
{
    let sum = Arc::new(alloc, identity(alloc, n)?)?;
    let mut moves = Vec::new(alloc);
    moves.push(Move::Id)?;
    Ok(record(n, items, moves, Body::Sum(sum)))
}

// The record of what the prims came to.
fn taken_record(
    alloc: Global,
    n: u32,
    items: Arc<Items>,
    moves: Vec<Move>,
    taken: Taken,
) -> Result<Filled, AllocError>
    requires width { (1 ≤ n) × (n ≤ 64) }
    requires run { CanRun n items.value }
    requires taken { Takes n (run_of items.value) [] (length (run_of items.value)) moves.items taken }
    ensures filled { IfOk result (λ f. IsFilledRun n items.value f) }
    ensures stopped { IfOk result (λ f. (old new : ℕ) → TakenRose old new taken → FilledRose old new f) }
{
    match taken {
        Taken::Going(None) => Ok(Filled::Done(empty_record(alloc, n, items)?)),
        Taken::Going(Some(sum)) => {
            let body = Body::Sum(Arc::new(alloc, sum.settled()?)?);
            Ok(Filled::Done(record(n, items, moves, body)))
        }
        Taken::Over(evidence) => Ok(Filled::Done(record(n, items, moves, Body::Passed(evidence)))),
        Taken::Stopped => Ok(Filled::Stopped),
    }
}

/// The record of a segment's items, with leaves that were kept, and those that are met first.
pub(crate) fn fill_with<S: Stop>(
    alloc: Global,
    n: u32,
    items: &Arc<Items>,
    work: &mut Workspace,
    stop: &mut S,
) -> Result<Filled, AllocError>
    requires width { (1 ≤ n) × (n ≤ 64) }
    requires run { CanRun n items.now.value }
    requires table { IsTable n work.old.leaves.items }
    ensures filled { IfOk result (λ f. IsFilledRun n items.now.value f) }
    ensures table { OnOk result (IsTable n work.new.leaves.items) }
    ensures stopped { IfOk result (λ f. FilledRose (S.yeses stop.old) (S.yeses stop.new) f) }
{
    let mut moves = Vec::new(alloc);
    let taken = take_items(alloc, n, items, &mut moves, work, stop)?;
    taken_record(alloc, n, Arc::try_clone(items)?, moves, taken)
}

/// The record of a segment's items.
pub fn fill_items<S: Stop>(
    alloc: Global,
    n: u32,
    items: &Arc<Items>,
    stop: &mut S,
) -> Result<Filled, AllocError>
    requires width { (1 ≤ n) × (n ≤ 64) }
    requires run { CanRun n items.now.value }
    ensures filled { IfOk result (λ f. IsFilledRun n items.now.value f) }
    ensures stopped { IfOk result (λ f. FilledRose (S.yeses stop.old) (S.yeses stop.new) f) }
{
    let mut work = Workspace::new(alloc);
    fill_with(alloc, n, items, &mut work, stop)
}

/// Computes what a segment is made of into its record: the normal sum, or the first limit that is
/// passed on the way.
///
/// The first prim's leaf is reduced, and each next prim's leaf is reduced, put behind, and the result
/// reduced; no prim gives the identity. Of two segments the sums are put together and reduced. It
/// asks whether to stop before each prim and before each step, and nowhere else; `Stopped` comes only
/// where the answer was yes. The reduced leaves of some prims are kept meanwhile, and where one is met
/// again its steps count as steps. `AllocError` is want of memory.
///
/// Condition: 1 to 64 qubits, at most 65,536 items, all on these qubits; and two records are of as
/// many qubits and have sums.
pub fn fill<S: Stop>(alloc: Global, task: &Task, stop: &mut S) -> Result<Filled, AllocError>
    requires width { (1 ≤ task.now.n) × (task.now.n ≤ 64) }
    requires work { CanFill task.now.n task.now.work }
    ensures filled { IfOk result (λ f. IsFilled task.now.n task.now.work f) }
    ensures stopped { IfOk result (λ f. FilledRose (S.yeses stop.old) (S.yeses stop.new) f) }
{
    match &task.work {
        Work::Items(items) => fill_items(alloc, task.n, items, stop),
        Work::Children(first, second) => fill_children(alloc, task.n, first, second, stop),
    }
}
