//! The records of tasks.
ghost use Rattle.std.specs.Prelude.{◌≤◌, IfOk};
ghost use Rattle.ps_normal.specs.Fillings.{CanFill};
ghost use Rattle.ps_worker.specs.Steps.{IsRecordOrNone};

use crate::asking::Asking;
use ps_io::{Gate, Stop};
use ps_normal::{Filled, fill};
use ps_reach::{Record, Task};
use std::alloc::{AllocError, Global};
use std::sync::Arc;

/// The record of a task, filled past the gate; none where the hint asked to stop. `AllocError` is want of memory.
pub fn filled<S: Stop, G: Gate>(
    alloc: Global,
    seat: u32,
    task: &Task,
    hint: &mut S,
    gate: &G,
) -> Result<Option<Arc<Record>>, AllocError>
    requires width { (1 ≤ task.now.n) × (task.now.n ≤ 64) }
    requires work { CanFill task.now.n task.now.work }
    ensures { IfOk result (λ r. IsRecordOrNone task.now.n task.now.work r) }
{
    let mut stop = Asking { hint, gate, seat };
    match fill(alloc, task, &mut stop)? {
        Filled::Done(done) => Ok(Some(Arc::new(alloc, done)?)),
        Filled::Stopped => Ok(None),
    }
}
