//! A worker: step after step, with a rest where there is nothing to do.
ghost use Rattle.std.specs.Prelude.{◌≡◌, true, false, None};
ghost use Rattle.ps_calls.specs.Calls.{Grows, own};
ghost use Rattle.ps_worker.specs.Shifts.{rests, RestEnds, RoundEnds, Works, Adds};

use crate::answers::{Leaving, Work1};
use crate::listening::Listener;
use crate::steps::work_step;
use ps_calls::Turns;
use ps_io::{Flags, Gate};
use std::alloc::Global;
use std::sync::Wait;

/// How many steps a worker takes at most.
const STEPS: u32 = 2730;

/// Takes steps until the bell is found closed, a ticket is refused, or it has taken 2,730 of them. Where a step found
/// nothing to do, or no room or memory, it waits until the bell is rung once more. Its flag is clear before each step,
/// and asks it to stop computing.
pub fn work<T: Turns, G: Gate, R: Wait>(
    alloc: Global,
    turns: &mut T,
    flags: &Flags,
    listener: &mut Listener<'_, R>,
    gate: &G,
) -> Leaving
    // Nothing else of the seat changes.
    ensures grows { Grows (T.view turns.old) (T.view turns.new) }
    // Its steps, a wait behind each that found nothing to do, and why it leaves.
    ensures works { Works result listener.old listener.new (T.view turns.old) (T.view turns.new) }
    // At most 8,190 entries, each a `Next` or a `Publish` of the filled record of the task that was given last, or of none.
    ensures adds { Adds 8190 (own (T.view turns.old)) (own (T.view turns.new)) }
{
    for _ in 0..STEPS {
        if listener.closed() {
            return Leaving::Closed;
        }
        if let Some(leaving) = round(alloc, turns, flags, listener, gate) {
            return leaving;
        }
    }
    Leaving::Spent
}

// A step, and a wait for the bell where there is nothing to do. None where there may be more to do.
fn round<T: Turns, G: Gate, R: Wait>(
    alloc: Global,
    turns: &mut T,
    flags: &Flags,
    listener: &mut Listener<'_, R>,
    gate: &G,
) -> Option<Leaving>
    ensures grows { Grows (T.view turns.old) (T.view turns.new) }
    ensures ends { RoundEnds result listener.old listener.new (T.view turns.old) (T.view turns.new) }
{
    let number = turns.number();
    flags.clear(number);
    let mut hint = flags.hint(number);
    // A ring from here on is not missed.
    let seen = listener.seen();
    match work_step(alloc, turns, &mut hint, gate) {
        Work1::Full => Some(Leaving::Full),
        answer => rest(listener, answer, seen),
    }
}

// Waits until the bell is rung more than `seen` times, where there is nothing to do after a step that was answered so.
// `Closed` where the bell is closed.
fn rest<R: Wait>(listener: &mut Listener<'_, R>, answer: Work1, seen: u64) -> Option<Leaving>
    ensures rested { rests answer ≡ true → RestEnds result listener.old listener.new }
    ensures went_on { rests answer ≡ false → (result ≡ None) × (listener.new ≡ listener.old) }
{
    if !answer.rests() {
        return None;
    }
    if listener.wait_past(seen) {
        Some(Leaving::Closed)
    } else {
        None
    }
}
