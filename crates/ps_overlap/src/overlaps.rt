ghost use Rattle.std.specs.Prelude.{◌≡◌, ℕ, ◌<◌, ◌≤◌, ◌+◌, ◌%◌, Bool, false, List, [], length, IfOk, IfErr, OnOk, pos, negsuc, ◌+ℤ◌, ◌≤ℤ◌};
ghost use Rattle.ps_ring.specs.Truths.{Truths};
ghost use Rattle.ps_ring.specs.Numbers.{SameScaled};
ghost use Rattle.ps_ring.specs.Sums.{signed_count};
ghost use Rattle.ps_ring.specs.Joins.{pairing};
ghost use Rattle.ps_ring.specs.Readings.{moved_name, taken};
ghost use Rattle.ps_phase.specs.Phases.{phase_value, phase_occurs, IsPhasePoly};
ghost use Rattle.ps_prim.specs.declared.prims.Primitive.{Primitive as Prim};
ghost use Rattle.ps_prim.specs.Columns.{inner_over};
ghost use Rattle.ps_prim.specs.Maps.{AllWithin, SameAt, DiffersAt};
ghost use Rattle.ps_prim.specs.Overlaps.{IsOne};
ghost use Rattle.ps_prim.specs.Sums.{Denotes};
ghost use Rattle.ps_sum.specs.Outs.{values};
ghost use Rattle.ps_sum.specs.Sums.{path_values};
ghost use Rattle.ps_overlap.specs.Overlapping.{IsOverlapOf};
ghost use Rattle.ps_overlap.specs.Faults.{IsOverlapFault};

use super::moving::{push_moved, push_negated};
use super::pairing::push_pairings;
use ps_phase::PhasePoly;
use ps_sum::{JoinFault, Outputs, Passed, PathSum, What};
use std::alloc::{AllocError, Global};

// The variables that an overlap may name, the inputs counted twice.
const NAMED: u32 = 512;

/// The overlap of two sums on the same qubits, of which neither is closed: the closed sum that at
/// each input has the inner product of both, over all outputs.
///
/// Its path variables are those of the first, then those of the second, then one for each output.
/// Its phase is the second's less the first's, and half a turn for each output of the two that
/// differs, where the output's variable is 1. `JoinFault::Passed` comes exactly where more than 512
/// variables are named, the inputs counted twice, and tells how many; `JoinFault::Memory` is want of
/// memory.
pub fn overlap(alloc: Global, first: &PathSum, second: &PathSum) -> Result<PathSum, JoinFault>
    requires qubits { first.now.n ≡ second.now.n }
    requires first_open { 0 < length first.now.outs }
    requires second_open { 0 < length second.now.outs }
    requires scaled { (negsuc 1999999999 ≤ℤ (first.now.k +ℤ second.now.k +ℤ pos (first.now.n + first.now.n))) × ((first.now.k +ℤ second.now.k +ℤ pos (first.now.n + first.now.n)) ≤ℤ pos 2000000000) }
    ensures sum { IfOk result (λ s. IsOverlapOf first.now second.now s) }
    ensures inner { IfOk result (λ s. (x : Truths) → length x ≡ first.now.n → SameScaled s.k (signed_count (path_values s) x []) (first.now.k +ℤ second.now.k) (inner_over first.now.n (signed_count (path_values first.now) x) (signed_count (path_values second.now) x))) }
    ensures one { IfOk result (λ s. (A B : List Prim) → Denotes first.now.n (path_values first.now) A → Denotes first.now.n (path_values second.now) B → AllWithin first.now.n A → AllWithin first.now.n B → (x : Truths) → length x ≡ first.now.n → IsOne (path_values s) x → SameAt first.now.n A B x) }
    ensures not_one { IfOk result (λ s. (A B : List Prim) → Denotes first.now.n (path_values first.now) A → Denotes first.now.n (path_values second.now) B → AllWithin first.now.n A → AllWithin first.now.n B → (x : Truths) → length x ≡ first.now.n → ¬ (IsOne (path_values s) x) → DiffersAt first.now.n A B x) }
    ensures fits { OnOk result (first.now.n + first.now.n + first.now.m + second.now.m ≤ 512) }
    ensures passed { IfErr result (λ e. IsOverlapFault first.now second.now e) }
{
    let named = first.n + first.n + first.m + second.m;
    if named > NAMED {
        return Err(JoinFault::Passed(Passed {
            what: What::Variables,
            count: named as u64,
        }));
    }
    let phase = overlap_phase(alloc, first, second)?;
    Ok(PathSum {
        n: first.n,
        m: first.m + second.m + first.n,
        k: overlap_scale(first, second),
        phase,
        outs: Outputs::of(Vec::new(alloc)),
    })
}

// The scale of the overlap.
fn overlap_scale(first: &PathSum, second: &PathSum) -> i32
    requires { (negsuc 1999999999 ≤ℤ (first.now.k +ℤ second.now.k +ℤ pos (first.now.n + first.now.n))) × ((first.now.k +ℤ second.now.k +ℤ pos (first.now.n + first.now.n)) ≤ℤ pos 2000000000) }
    ensures { result ≡ first.now.k +ℤ second.now.k +ℤ pos (first.now.n + first.now.n) }
{
    first.k + second.k + (first.n + first.n) as i32
}

// The phase of the overlap.
fn overlap_phase(alloc: Global, first: &PathSum, second: &PathSum) -> Result<PhasePoly, AllocError>
    requires qubits { first.now.n ≡ second.now.n }
    requires first_open { 0 < length first.now.outs }
    requires second_open { 0 < length second.now.outs }
    requires few { first.now.n + first.now.n + first.now.m + second.now.m ≤ 512 }
    ensures value { IfOk result (λ p. (a : ℕ → Bool) → (phase_value p a + phase_value first.now.phase a) % 4294967296
        ≡ (phase_value second.now.phase (λ v. a (moved_name first.now.n first.now.m v)) + pairing (taken (first.now.n + (first.now.m + second.now.m)) first.now.n a) (values first.now.outs a) (values second.now.outs (λ v. a (moved_name first.now.n first.now.m v)))) % 4294967296) }
    ensures variables { IfOk result (λ p. (v : ℕ) → first.now.n + (first.now.m + second.now.m + first.now.n) ≤ v → phase_occurs v p ≡ false) }
    ensures form { IfOk result (λ p. IsPhasePoly p) }
{
    let n = first.n as u16;
    let by = first.m as u16;
    let lo = n + by + second.m as u16;
    let mut terms = Vec::new(alloc);
    push_moved(&mut terms, second.phase.terms(), n, by)?;
    push_negated(&mut terms, first.phase.terms())?;
    push_pairings(
        &mut terms,
        first.outs.polys(),
        second.outs.polys(),
        lo,
        n,
        by,
    )?;
    PhasePoly::gather(terms)
}
