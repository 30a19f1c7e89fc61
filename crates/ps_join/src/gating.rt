ghost use Rattle.std.specs.Prelude.{◌≡◌, ◌≢◌, ℕ, ◌<◌, ◌≤◌, ◌+◌, ◌*◌, ◌++◌, List, length, IfOk, IfErr, IfSome, OnOk, Some, None, pos, negsuc, ◌+ℤ◌, ◌≤ℤ◌, false, IsTrue};
ghost use Rattle.ps_prim.specs.declared.prims.Primitive.{Primitive as Prim};
ghost use Rattle.ps_prim.specs.Sums.{Denotes};
ghost use Rattle.ps_phase.specs.Phases.{phase_occurs};
ghost use Rattle.ps_sum.specs.Forms.{AllPolys};
ghost use Rattle.ps_sum.specs.Outs.{outs_occur};
ghost use Rattle.ps_sum.specs.Sums.{path_values};
ghost use Rattle.ps_join.specs.declared.changes.Change.TheVariants.{More};
ghost use Rattle.ps_join.specs.Joining.{IsJoinOf, JoinFits, PhaseChain};
ghost use Rattle.ps_join.specs.OntoFaults.{IsOntoFault};
ghost use Rattle.ps_join.specs.Parts.{PhasePart};
ghost use Rattle.ps_join.specs.Changing.{IsChange, OnlyInput, AllShort};
ghost use Rattle.ps_join.specs.Placing.{Becomes};

use super::changes::Change;
use super::gates::Gate;
use super::limits::{MOST_TERMS, MOST_VARIABLES, SHORT};
use super::naming::{Names, named_phase};
use super::onto_fault::OntoFault;
use super::putting::Output;
use super::running::{Running, join_settled};
use ps_bool::BoolPoly;
use ps_phase::PhasePoly;
use ps_sum::{PathSum, raw_phase, subst_phase};
use std::alloc::{AllocError, Global};

// What a gate's sum comes to behind another: its phase, and the output that it changes, with its place.
#[derive(Drop)]
struct Behind {
    phase: PhasePoly,
    output: Output,
}

// Whether each output is short.
pub(crate) fn all_short(outs: &[BoolPoly]) -> bool
    ensures { IsTrue result → AllShort outs.now }
{
    for output in outs {
        if output.count() >= SHORT {
            return false;
        }
    }
    true
}

// The phase of the second sum, in which of the inputs at most `q` stands, with that input's output in
// its place; `None` where it may be that a limit is passed.
fn lone_phase(
    alloc: Global,
    names: &Names,
    poly: &PhasePoly,
    q: u16,
    outs: &[BoolPoly],
) -> Result<Option<PhasePoly>, AllocError>
    requires below { (v : ℕ) → names.now.n + names.now.m2 ≤ v → phase_occurs v poly.now ≡ false }
    requires wide { length outs.now ≡ names.now.n }
    requires outs_below { (v : ℕ) → names.now.n + names.now.m1 ≤ v → outs_occur v outs.now ≡ false }
    requires inside { q < names.now.n }
    requires only { OnlyInput names.now.n q poly.now }
    ensures part { IfOk result (λ r. IfSome r (λ p. PhasePart names.now.n names.now.m1 names.now.m2 outs.now poly.now p)) }
    ensures fits { IfOk result (λ r. IfSome r (λ p. PhaseChain names.now.n names.now.m1 names.now.m2 outs.now poly.now None)) }
{
    let named = named_phase(alloc, names, poly)?;
    let own = names.own(q);
    let by = &outs[q as usize];
    if named.count() > MOST_TERMS {
        return Ok(None);
    }
    if raw_phase(&named, own, by) > MOST_TERMS {
        return Ok(None);
    }
    let phase = subst_phase(alloc, &named, own, by)?;
    if phase.count() > MOST_TERMS {
        return Ok(None);
    }
    Ok(Some(phase))
}

// The same, where it may not be known which input it is.
fn phase_behind(
    alloc: Global,
    names: &Names,
    poly: &PhasePoly,
    input: Option<u16>,
    outs: &[BoolPoly],
) -> Result<Option<PhasePoly>, AllocError>
    requires below { (v : ℕ) → names.now.n + names.now.m2 ≤ v → phase_occurs v poly.now ≡ false }
    requires wide { length outs.now ≡ names.now.n }
    requires outs_below { (v : ℕ) → names.now.n + names.now.m1 ≤ v → outs_occur v outs.now ≡ false }
    requires lone { (q : ℕ) → input ≡ Some q → (q < names.now.n) × OnlyInput names.now.n q poly.now }
    ensures part { IfOk result (λ r. IfSome r (λ p. PhasePart names.now.n names.now.m1 names.now.m2 outs.now poly.now p)) }
    ensures fits { IfOk result (λ r. IfSome r (λ p. PhaseChain names.now.n names.now.m1 names.now.m2 outs.now poly.now None)) }
{
    if poly.count() == 0 {
        return Ok(Some(PhasePoly::zero(alloc)));
    }
    match input {
        Some(q) => lone_phase(alloc, names, poly, q, outs),
        None => Ok(None),
    }
}

// The output that changes, with its place.
fn new_output(
    alloc: Global,
    names: &Names,
    change: Change,
    polys: &[BoolPoly],
) -> Result<Output, AllocError>
    requires changes { IsChange names.now.n polys.now change }
    requires known { change ≢ More }
    requires below { (v : ℕ) → names.now.n + names.now.m2 ≤ v → outs_occur v polys.now ≡ false }
    ensures { IfOk result (λ r. (fs : List (List (List ℕ))) → Becomes names.now.n names.now.m1 names.now.m2 fs polys.now r) }
{
    match change {
        Change::Stay => Ok(Output::Same),
        Change::Path { q, y } => {
            let poly = BoolPoly::var(alloc, y + names.m1)?;
            Ok(Output::Put { q, poly })
        }
        Change::Flip { q } => Ok(Output::Flipped { q }),
        Change::More => unreachable!(),
    }
}

// What the gate's sum comes to behind the first, where both fit and that is simple.
fn made_behind(alloc: Global, first: &Running, gate: &Gate) -> Result<Option<Behind>, AllocError>
    requires qubits { first.now.n ≡ gate.now.sum.value.n }
    requires first_open { 0 < length first.now.outs }
    requires second_open { 0 < length gate.now.sum.value.outs }
    ensures part { IfOk result (λ r. IfSome r (λ b. PhasePart first.now.n first.now.m gate.now.sum.value.m first.now.outs gate.now.sum.value.phase b.phase)) }
    ensures output { IfOk result (λ r. IfSome r (λ b. Becomes first.now.n first.now.m gate.now.sum.value.m first.now.outs gate.now.sum.value.outs b.output)) }
    ensures fits { IfOk result (λ r. IfSome r (λ b. JoinFits first.now gate.now.sum.value)) }
{
    let second: &PathSum = &gate.sum;
    let sum = first.bare();
    if let Change::More = gate.change {
        return Ok(None);
    }
    if 2 * sum.n + sum.m + second.m > MOST_VARIABLES {
        return Ok(None);
    }
    if !first.is_short() {
        return Ok(None);
    }
    let outs = sum.outs.polys();
    let names = Names::of_sums(sum, second);
    let Some(phase) = phase_behind(alloc, &names, &second.phase, gate.input, outs)? else {
        return Ok(None);
    };
    let output = new_output(alloc, &names, gate.change, second.outs.polys())?;
    Ok(Some(Behind { phase, output }))
}

// The first sum with what the second comes to behind it.
fn gated(
    alloc: Global,
    first: Running,
    second: &PathSum,
    behind: Behind,
) -> Result<Running, AllocError>
    requires qubits { first.n ≡ second.now.n }
    requires first_open { 0 < length first.outs }
    requires second_open { 0 < length second.now.outs }
    requires named { 2 * first.n + first.m + second.now.m ≤ 512 }
    requires scaled { (negsuc 1999999999 ≤ℤ (first.k +ℤ second.now.k)) × ((first.k +ℤ second.now.k) ≤ℤ pos 2000000000) }
    requires part { PhasePart first.n first.m second.now.m first.outs second.now.phase behind.phase }
    requires output { Becomes first.n first.m second.now.m first.outs second.now.outs behind.output }
    ensures sum { IfOk result (λ s. IsJoinOf first second.now s) }
    ensures wide { IfOk result (λ s. length s.outs ≡ first.n) }
{
    let Behind { phase, output } = behind;
    let widened = first.widened(alloc, second, output)?;
    widened.added(alloc, &phase)
}

/// `join_onto` for a sum that is ready. Where it changes at most one output and its phase has at most
/// one input, as with primitive gates, the other outputs stay where they are, and its terms wait.
pub fn join_gate(alloc: Global, first: Running, gate: &Gate) -> Result<Running, OntoFault>
    requires qubits { first.n ≡ gate.now.sum.value.n }
    requires first_open { 0 < length first.outs }
    requires second_open { 0 < length gate.now.sum.value.outs }
    requires scaled { (negsuc 1999999999 ≤ℤ (first.k +ℤ gate.now.sum.value.k)) × ((first.k +ℤ gate.now.sum.value.k) ≤ℤ pos 2000000000) }
    ensures sum { IfOk result (λ s. IsJoinOf first gate.now.sum.value s) }
    ensures fits { OnOk result (JoinFits first gate.now.sum.value) }
    ensures denotes { IfOk result (λ s. (A1 A2 : List Prim) → Denotes first.n (path_values first) A1 → Denotes first.n (path_values gate.now.sum.value) A2 → Denotes first.n (path_values s) (A1 ++ A2)) }
    ensures wide { IfOk result (λ s. length s.outs ≡ first.n) }
    ensures passed { IfErr result (λ e. IsOntoFault first gate.now.sum.value e) }
{
    match made_behind(alloc, &first, gate) {
        Ok(Some(behind)) => match gated(alloc, first, &gate.sum, behind) {
            Ok(sum) => Ok(sum),
            Err(_) => Err(OntoFault::Memory),
        },
        Ok(None) => join_settled(alloc, first, &gate.sum),
        Err(_) => Err(OntoFault::Memory),
    }
}
