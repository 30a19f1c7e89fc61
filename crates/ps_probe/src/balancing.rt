//! Whether phases count to a power of the root of 2.

ghost use Rattle.std.specs.Prelude.{◌≡◌, ℕ, ◌<◌, ◌≤◌, ◌↔◌, IsTrue, IfOk, OnOk, pos, ◌+ℤ◌, ◌-ℤ◌, ◌*ℤ◌};
ghost use Rattle.std.proofs.Math.IntN.{ℤ};
ghost use Rattle.ps_ring.specs.Numbers.{one, root2};
ghost use Rattle.ps_probe.specs.Tallies.{tallied, IsBelowHalf};

use std::alloc::{AllocError, Global};

// Half a turn.
const HALF: u32 = 1 << 31;

// An eighth of a turn.
const EIGHTH: u32 = 1 << 29;

// Phases of less than half a turn, and those that count as their opposites.
#[derive(Drop)]
pub struct Sides {
    pub front: Vec<u32>,
    pub back: Vec<u32>,
}

// The phases of less than half a turn, and the others less half a turn.
fn split_sides(alloc: Global, phases: &[u32]) -> Result<Sides, AllocError>
    ensures front { IfOk result (λ s. IsBelowHalf s.front.items) }
    ensures back { IfOk result (λ s. IsBelowHalf s.back.items) }
    ensures count { IfOk result (λ s. (j : ℤ) → tallied phases.now j +ℤ tallied s.back.items j ≡ tallied s.front.items j) }
{
    let mut front = Vec::new(alloc);
    let mut back = Vec::new(alloc);
    for phase in phases {
        if *phase < HALF {
            front.push(*phase)?;
        } else {
            back.push(*phase - HALF)?;
        }
    }
    Ok(Sides { front, back })
}

// The phase so many times, at the end.
fn push_times(out: &mut Vec<u32>, phase: u32, times: usize) -> Result<(), AllocError>
    requires half { phase < 2147483648 }
    requires small { IsBelowHalf out.old.items }
    ensures small { OnOk result (IsBelowHalf out.new.items) }
    ensures count { OnOk result ((j : ℤ) → tallied out.new.items j ≡ tallied out.old.items j +ℤ pos times *ℤ one (j -ℤ pos phase)) }
{
    for i in 0..times {
        out.push(phase)?;
    }
    Ok(())
}

// Whether both have the same phases, each as often.
fn are_same(mut sides: Sides) -> bool
    requires front { IsBelowHalf sides.front.items }
    requires back { IsBelowHalf sides.back.items }
    ensures { IsTrue result ↔ ((j : ℤ) → tallied sides.front.items j ≡ tallied sides.back.items j) }
{
    sides.front.sort_unstable();
    sides.back.sort_unstable();
    sides.front == sides.back
}

/// Whether the phases count to the k-th power of the root of 2. `AllocError` is want of memory.
pub fn balances(alloc: Global, phases: &[u32], k: u32) -> Result<bool, AllocError>
    requires { k ≤ 33 }
    ensures { IfOk result (λ b. IsTrue b ↔ ((j : ℤ) → tallied phases.now j ≡ root2 k one j)) }
{
    let mut sides = split_sides(alloc, phases)?;
    let times = 1usize << (k / 2);
    if k % 2 == 0 {
        push_times(&mut sides.back, 0, times)?;
    } else {
        push_times(&mut sides.back, EIGHTH, times)?;
        push_times(&mut sides.front, HALF - EIGHTH, times)?;
    }
    Ok(are_same(sides))
}
