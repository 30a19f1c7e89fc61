//! Applications and barriers.

ghost use Rattle.std.specs.Prelude.{◌≡◌, ◌+◌, ◌≤◌, ℕ, ◌<◌, ◌++◌, true, length, List, All, OnOk, IfOk, IfSome, Result};
ghost use Rattle.ps_prim.specs.declared.prims.Primitive.{Primitive as Prim};
ghost use Rattle.ps_prim.specs.Maps.{AllWithin, IsWithin};
ghost use Rattle.qasm_parse.specs.Places.{ArgIn, CallIn};
ghost use Rattle.qasm_expand.specs.declared.fault.ReadFault.{ReadFault};
ghost use Rattle.qasm_expand.specs.Maps.{prims_in};
ghost use Rattle.qasm_expand.specs.Tables.{all_different, registers_sound};
ghost use Rattle.qasm_expand.specs.Bodies.{on_qubits, all_on};
ghost use Rattle.qasm_expand.specs.Checks.{of_angle as angle_fault, Known};
ghost use Rattle.qasm_expand.specs.Names.{checked};
ghost use Rattle.qasm_expand.specs.States.{IsSound, Became, in_block};
ghost use Rattle.qasm_expand.specs.Targets.{targets_of, index_count as indices, qubits_at, items_from, expression_at as offset_of, broken_at as fault_of_broken, Applies};
ghost use Rattle.qasm_expand.specs.Statements.{behind};
ghost use Rattle.qasm_expand.specs.Aims.{Within};
ghost use Rattle.qasm_expand.specs.Ready.{AreExpansions};

use crate::bodies::comes;
use crate::bounds::Bounds;
use crate::broken::Broken;
use crate::defs::Defs;
use crate::fault::{FaultName, ReadFault};
use crate::item_list::Items;
use crate::ready::Ready;
use crate::registers::Registers;
use crate::shared::{is_placed, slot_of};
use crate::target::Target;
use crate::targets::{aim, index_count, qubit, targets};
use ps_prim::{Item, Prim};
use qasm_angle::AngleFault;
use qasm_parse::{Arg, Call, Formula};
use std::alloc::{AllocError, Global};
use std::sync::Arc;

/// A prim on the qubits of targets at an index.
fn placed(targets: &[Target], index: u32, prim: Prim) -> Prim
    requires targets { All (Within 64 index) targets.now }
    requires prim { IsWithin (length targets.now) prim }
    ensures { result ≡ on_qubits (qubits_at targets.now index) prim }
{
    match prim {
        Prim::U {
            theta,
            phi,
            lambda,
            q,
        } => Prim::U {
            theta,
            phi,
            lambda,
            q: qubit(targets[q as usize], index),
        },
        Prim::Cx { c, t } => Prim::Cx {
            c: qubit(targets[c as usize], index),
            t: qubit(targets[t as usize], index),
        },
    }
}

/// Prims on the qubits of targets at an index.
fn all_placed(
    alloc: Global,
    targets: &[Target],
    index: u32,
    prims: &[Prim],
) -> Result<Vec<Prim>, AllocError>
    requires targets { All (Within 64 index) targets.now }
    requires prims { AllWithin (length targets.now) prims.now }
    ensures { IfOk result (λ v. v.items ≡ all_on (qubits_at targets.now index) prims.now) }
{
    let mut out = Vec::with_capacity(alloc, prims.len())?;
    for prim in prims {
        out.push(placed(targets, index, *prim))?;
    }
    Ok(out)
}

// The slot of the item that prims come to at an index.
fn slot(targets: &[Target], index: u32, prims: &[Prim]) -> usize
    requires targets { All (Within 64 index) targets.now }
    requires prims { AllWithin (length targets.now) prims.now }
    ensures { result < 4096 }
{
    if prims.is_empty() {
        return 0;
    }
    slot_of(placed(targets, index, prims[0]))
}

// A pointer to the item that was made last for the slot, where it is what the prims come to at an index.
fn shared(
    items: &Items,
    slot: usize,
    targets: &[Target],
    index: u32,
    prims: &[Prim],
) -> Result<Option<Arc<Item>>, AllocError>
    requires targets { All (Within 64 index) targets.now }
    requires prims { AllWithin (length targets.now) prims.now }
    ensures { IfOk result (λ o. IfSome o (λ a. prims_in a ≡ all_on (qubits_at targets.now index) prims.now)) }
{
    let Some(item) = items.made(slot) else {
        return Ok(None);
    };
    if !is_placed(item.prims.as_slice(), targets, index, prims) {
        return Ok(None);
    }
    let item = Arc::try_clone(item)?;
    Ok(Some(item))
}

// The item that prims come to at an index, kept in the slot.
fn new_item(
    alloc: Global,
    items: &mut Items,
    slot: usize,
    targets: &[Target],
    index: u32,
    prims: &[Prim],
) -> Result<Arc<Item>, AllocError>
    requires slot { slot < 4096 }
    requires few { length prims.now ≤ 4096 }
    requires prims { AllWithin (length targets.now) prims.now }
    requires targets { All (Within 64 index) targets.now }
    requires different { all_different (qubits_at targets.now index) ≡ true }
    ensures item { IfOk result (λ a. prims_in a ≡ all_on (qubits_at targets.now index) prims.now) }
    ensures same { items.new ≡ items.old }
{
    let item = Arc::new(alloc, Item::new(all_placed(alloc, targets, index, prims)?))?;
    let kept = Arc::try_clone(&item)?;
    items.keep(slot, kept)?;
    Ok(item)
}

// The item that prims come to at an index: one that was made before, or a new one.
fn item_at(
    alloc: Global,
    items: &mut Items,
    targets: &[Target],
    index: u32,
    prims: &[Prim],
) -> Result<Arc<Item>, AllocError>
    requires few { length prims.now ≤ 4096 }
    requires prims { AllWithin (length targets.now) prims.now }
    requires targets { All (Within 64 index) targets.now }
    requires different { all_different (qubits_at targets.now index) ≡ true }
    ensures item { IfOk result (λ a. prims_in a ≡ all_on (qubits_at targets.now index) prims.now) }
    ensures same { items.new ≡ items.old }
{
    let slot = slot(targets, index, prims);
    if let Some(item) = shared(items, slot, targets, index, prims)? {
        return Ok(item);
    }
    let item = new_item(alloc, items, slot, targets, index, prims)?;
    Ok(item)
}

/// An item more for each index below a count.
fn add(
    alloc: Global,
    items: &mut Items,
    targets: &[Target],
    count: u32,
    prims: &[Prim],
) -> Result<(), AllocError>
    requires few { length prims.now ≤ 4096 }
    requires prims { AllWithin (length targets.now) prims.now }
    requires targets { (i : ℕ) → i < count → All (Within 64 i) targets.now }
    requires different { (i : ℕ) → i < count → all_different (qubits_at targets.now i) ≡ true }
    ensures { OnOk result (items.new ≡ items.old ++ items_from prims.now targets.now 0 count) }
{
    for index in 0..count {
        let item = item_at(alloc, items, targets, index, prims)?;
        items.push(item)?;
    }
    Ok(())
}

/// The first byte of an expression, and 0 past the last.
fn expression_at(formulas: &[Formula], at: usize) -> u32
    ensures { result ≡ offset_of formulas.now at }
{
    match formulas.get(at) {
        Some(formula) => formula.from,
        None => 0,
    }
}

/// The fault of an expression, at a byte.
pub fn of_angle(fault: AngleFault, offset: u32) -> ReadFault
    ensures { result ≡ angle_fault fault offset }
{
    let name = match fault {
        AngleFault::NotDyadic => FaultName::NotDyadic,
        AngleFault::AngleRange => FaultName::AngleRange,
        AngleFault::NoParameter => FaultName::NoParameter,
        AngleFault::Function => FaultName::Function,
        AngleFault::ByZero => FaultName::ByZero,
        AngleFault::Memory => return ReadFault::Memory,
    };
    ReadFault::Fault { name, offset }
}

/// The fault of an application: of an own expression at its first byte, of one in a body at the gate.
fn broken_at(call: &Call, broken: Broken) -> ReadFault
    ensures { result ≡ fault_of_broken call.now broken }
{
    match broken {
        Broken::Own(stop) => of_angle(stop.fault, expression_at(call.params.items(), stop.at)),
        Broken::Inside(fault) => of_angle(fault, call.at.from),
    }
}

/// Applies a gate: behind the items there is one more for each index. What a gate without parameters
/// comes to is kept for the next time.
pub fn apply(
    alloc: Global,
    bytes: &[u8],
    registers: &Registers,
    defs: &Defs,
    bound: &Bounds,
    ready: &mut Ready,
    items: &mut Items,
    call: &Call,
) -> Result<(), ReadFault>
    requires sound { IsSound (in_block registers.now defs.now bound.now items.old) }
    requires inside { CallIn bytes.now call.now }
    requires ready { AreExpansions defs.now ready.old.slots.items }
    ensures applies { Became result (in_block registers.now defs.now bound.now items.new) (λ r. (o : Result (List (List Prim)) ReadFault) × Applies bytes.now registers.now defs.now bound.now (length items.old) call.now o × (r ≡ behind (in_block registers.now defs.now bound.now items.old) o)) }
    ensures sound { OnOk result (IsSound (in_block registers.now defs.now bound.now items.new)) }
    ensures ready { OnOk result (AreExpansions defs.now ready.new.slots.items) }
{
    let aimed = aim(alloc, bytes, registers, defs, bound, items, call)?;
    let formulas = call.params.items();
    let targets = aimed.targets.as_slice();
    let count = index_count(targets);
    if let Some(prims) = ready.prims(aimed.gate, formulas) {
        add(alloc, items, targets, count, prims)?;
        return Ok(());
    }
    let prims = match comes(alloc, defs, aimed.gate, formulas) {
        Ok(prims) => prims,
        Err(broken) => return Err(broken_at(call, broken)),
    };
    add(alloc, items, targets, count, &prims)?;
    ready.keep(aimed.gate, formulas, prims)?;
    Ok(())
}

/// Passes over a barrier, whose arguments have to be there.
pub fn barrier(
    alloc: Global,
    bytes: &[u8],
    registers: &Registers,
    args: &[Arg],
) -> Result<(), ReadFault>
    requires qubits { registers_sound registers.now ≡ true }
    requires inside { All (ArgIn bytes.now) args.now }
    ensures { Known result (λ r. r ≡ checked (targets_of bytes.now registers.now args.now)) }
{
    targets(alloc, bytes, registers, args)?;
    Ok(())
}
