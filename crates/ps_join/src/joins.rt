ghost use Rattle.std.specs.Prelude.{◌≡◌, ℕ, ◌<◌, ◌≤◌, ◌+◌, ◌*◌, ◌++◌, List, length, IfOk, IfErr, OnOk, Option, pos, negsuc, ◌+ℤ◌, ◌≤ℤ◌};
ghost use Rattle.ps_prim.specs.declared.prims.Primitive.{Primitive as Prim};
ghost use Rattle.ps_prim.specs.Sums.{Denotes};
ghost use Rattle.ps_sum.specs.Sums.{path_values};
ghost use Rattle.ps_join.specs.Joining.{IsJoinOf, JoinFits};
ghost use Rattle.ps_join.specs.Faults.{IsJoinFault};
ghost use Rattle.ps_join.specs.OntoFaults.{IsOntoFault};
ghost use Rattle.ps_join.specs.Parts.{IsParts, OutputParts, Placed};

use super::limits::MOST_VARIABLES;
use super::naming::Names;
use super::onto_fault::OntoFault;
use super::replacing::{replaced_outputs, replaced_phase};
use ps_bool::BoolPoly;
use ps_phase::PhasePoly;
use ps_sum::{JoinFault, Outputs, Passed, PathSum, What};
use std::alloc::{AllocError, Global};

// What the second sum comes to behind the first: its phase, and each of its outputs that is not its
// input.
#[derive(Drop)]
struct Parts {
    phase: PhasePoly,
    outs: Vec<Option<BoolPoly>>,
}

/// The first sum followed by the second, on the same qubits. Neither is closed.
///
/// The path variables of the first come before those of the second. Each input of the second is
/// replaced by the output of the first that has its number: first in the second's phase, then in its
/// outputs in order, and each time all inputs in order. `JoinFault::Passed` comes exactly where both
/// name more than 512 variables, the inputs counted twice, or else where one of these replacements
/// makes more than 65,536 terms, before any are added, and tells the first such number.
/// `JoinFault::Memory` is want of memory.
pub fn join(alloc: Global, first: &PathSum, second: &PathSum) -> Result<PathSum, JoinFault>
    requires qubits { first.now.n ≡ second.now.n }
    requires first_open { 0 < length first.now.outs }
    requires second_open { 0 < length second.now.outs }
    requires scaled { (negsuc 1999999999 ≤ℤ (first.now.k +ℤ second.now.k)) × ((first.now.k +ℤ second.now.k) ≤ℤ pos 2000000000) }
    ensures sum { IfOk result (λ s. IsJoinOf first.now second.now s) }
    ensures fits { OnOk result (JoinFits first.now second.now) }
    ensures denotes { IfOk result (λ s. (A1 A2 : List Prim) → Denotes first.now.n (path_values first.now) A1 → Denotes first.now.n (path_values second.now) A2 → Denotes first.now.n (path_values s) (A1 ++ A2)) }
    ensures wide { IfOk result (λ s. length s.outs ≡ first.now.n) }
    ensures passed { IfErr result (λ e. IsJoinFault first.now second.now e) }
{
    let parts = match replaced_parts(alloc, first, second) {
        Ok(parts) => parts,
        Err(fault) => return Err(fault),
    };
    let copy = copied(alloc, first)?;
    let sum = merged(copy, second, parts)?;
    Ok(sum)
}

/// The same, where the first sum is given away: what the second leaves as it is is moved and not
/// copied. Where a limit is passed, the first sum comes back.
pub fn join_onto(alloc: Global, first: PathSum, second: &PathSum) -> Result<PathSum, OntoFault>
    requires qubits { first.n ≡ second.now.n }
    requires first_open { 0 < length first.outs }
    requires second_open { 0 < length second.now.outs }
    requires scaled { (negsuc 1999999999 ≤ℤ (first.k +ℤ second.now.k)) × ((first.k +ℤ second.now.k) ≤ℤ pos 2000000000) }
    ensures sum { IfOk result (λ s. IsJoinOf first second.now s) }
    ensures fits { OnOk result (JoinFits first second.now) }
    ensures denotes { IfOk result (λ s. (A1 A2 : List Prim) → Denotes first.n (path_values first) A1 → Denotes first.n (path_values second.now) A2 → Denotes first.n (path_values s) (A1 ++ A2)) }
    ensures wide { IfOk result (λ s. length s.outs ≡ first.n) }
    ensures passed { IfErr result (λ e. IsOntoFault first second.now e) }
{
    match replaced_parts(alloc, &first, second) {
        Ok(parts) => match merged(first, second, parts) {
            Ok(sum) => Ok(sum),
            Err(_) => Err(OntoFault::Memory),
        },
        Err(JoinFault::Passed(passed)) => Err(OntoFault::Passed { passed, first }),
        Err(JoinFault::Memory) => Err(OntoFault::Memory),
    }
}

// What the second sum comes to behind the first.
fn replaced_parts(alloc: Global, first: &PathSum, second: &PathSum) -> Result<Parts, JoinFault>
    requires qubits { first.now.n ≡ second.now.n }
    requires first_open { 0 < length first.now.outs }
    requires second_open { 0 < length second.now.outs }
    ensures parts { IfOk result (λ p. IsParts first.now second.now p.phase p.outs.items) }
    ensures fits { OnOk result (JoinFits first.now second.now) }
    ensures passed { IfErr result (λ e. IsJoinFault first.now second.now e) }
{
    let variables = 2 * first.n + first.m + second.m;
    if variables > MOST_VARIABLES {
        return Err(JoinFault::Passed(Passed {
            what: What::Variables,
            count: u64::from(variables),
        }));
    }
    let names = Names::of_sums(first, second);
    let outs = first.outs.polys();
    let polys = second.outs.polys();
    let phase = match replaced_phase(alloc, &names, &second.phase, outs) {
        Ok(phase) => phase,
        Err(fault) => return Err(fault),
    };
    match replaced_outputs(alloc, &names, polys, outs) {
        Ok(outs) => Ok(Parts { phase, outs }),
        Err(fault) => Err(fault),
    }
}

// The first sum with what the second comes to behind it.
fn merged(first: PathSum, second: &PathSum, parts: Parts) -> Result<PathSum, AllocError>
    requires qubits { first.n ≡ second.now.n }
    requires first_open { 0 < length first.outs }
    requires second_open { 0 < length second.now.outs }
    requires named { 2 * first.n + first.m + second.now.m ≤ 512 }
    requires scaled { (negsuc 1999999999 ≤ℤ (first.k +ℤ second.now.k)) × ((first.k +ℤ second.now.k) ≤ℤ pos 2000000000) }
    requires parts { IsParts first second.now parts.phase parts.outs.items }
    ensures sum { IfOk result (λ s. IsJoinOf first second.now s) }
    ensures wide { IfOk result (λ s. length s.outs ≡ first.n) }
{
    let PathSum {
        n,
        m,
        k,
        phase,
        outs,
    } = first;
    let Parts {
        phase: behind,
        outs: changed,
    } = parts;
    let mut sum = phase;
    sum.add_to(&behind)?;
    let outs = placed(outs.into_polys(), changed);
    Ok(PathSum {
        n,
        m: m + second.m,
        k: k + second.k,
        phase: sum,
        outs: Outputs::of(outs),
    })
}

// The outputs, with those that changed in their places.
fn placed(outs: Vec<BoolPoly>, changed: Vec<Option<BoolPoly>>) -> Vec<BoolPoly>
    requires { length changed.items ≡ length outs.items }
    ensures { Placed outs.items changed.items result.items }
{
    let mut outs = outs;
    let mut changed = changed;
    while let Some(change) = changed.pop() {
        let i = changed.len();
        if let Some(output) = change {
            outs[i] = output;
        }
    }
    outs
}

// The same sum, in memory of its own.
fn copied(alloc: Global, sum: &PathSum) -> Result<PathSum, AllocError>
    ensures { IfOk result (λ s. s ≡ sum.now) }
{
    let phase = sum.phase.copy()?;
    let mut outs = Vec::with_capacity(alloc, sum.outs.polys().len())?;
    for output in sum.outs.polys() {
        outs.push(output.copy()?)?;
    }
    Ok(PathSum {
        n: sum.n,
        m: sum.m,
        k: sum.k,
        phase,
        outs: Outputs::of(outs),
    })
}
