//! Arguments of applications: qubits, and registers taken index by index.

ghost use Rattle.std.specs.Prelude.{◌≡◌, ◌+◌, ◌<◌, ◌≤◌, ℕ, true, length, get_or, None, [], Ok, All};
ghost use Rattle.qasm_parse.specs.Places.{ArgIn, CallIn};
ghost use Rattle.qasm_expand.specs.declared.fault.FaultName.TheVariants.{Sizes, RepeatedQubit};
ghost use Rattle.qasm_expand.specs.Tables.{registers_sound};
ghost use Rattle.qasm_expand.specs.Checks.{Known, unless};
ghost use Rattle.qasm_expand.specs.Gates.{arg_names};
ghost use Rattle.qasm_expand.specs.Targets.{target_of, targets_of, first_uneven as uneven, index_count as indices, qubit_at, qubits_at, repeat_at, repeat_from, too_many as is_too_many, aimed};
ghost use Rattle.qasm_expand.specs.Aims.{agrees as is_even, size_after, of_extent, Fits, Within};

use crate::bounds::Bounds;
use crate::calls::{called, shape_of, wrong_arity};
use crate::defs::{Called, Defs};
use crate::fault::{FaultName, ReadFault};
use crate::item_list::Items;
use crate::numbers::number;
use crate::registers::{Extent, Registers};
use crate::spelling::{fault, spelled};
use crate::target::{Aimed, Target, Targets};
use qasm_parse::{Arg, Call, Span};
use std::alloc::Global;

/// The qubit or the register that an argument of a register is.
fn place(bytes: &[u8], register: Extent, arg: Arg) -> Result<Target, ReadFault>
    requires inside { ArgIn bytes.now arg }
    requires few { register.quantum ≡ true → register.first + register.size ≤ 64 }
    ensures { result ≡ of_extent register bytes.now arg }
{
    if !register.quantum {
        return Err(fault(FaultName::Unknown, arg.name));
    }
    match arg.index {
        None => Ok(Target::Whole(register.first, register.size)),
        Some(index) => {
            let place = number(spelled(bytes, index));
            if register.size as u64 <= place {
                return Err(fault(FaultName::Range, arg.name));
            }
            Ok(Target::Single(register.first + place as u32))
        }
    }
}

/// The qubit or the register that an argument is.
fn target(bytes: &[u8], registers: &Registers, arg: Arg) -> Result<Target, ReadFault>
    requires sound { registers_sound registers.now ≡ true }
    requires inside { ArgIn bytes.now arg }
    ensures { result ≡ target_of bytes.now registers.now arg }
{
    match registers.get(spelled(bytes, arg.name)) {
        Some(register) => place(bytes, register, arg),
        None => Err(fault(FaultName::Unknown, arg.name)),
    }
}

/// What arguments are, or the first fault.
pub fn targets(
    alloc: Global,
    bytes: &[u8],
    registers: &Registers,
    args: &[Arg],
) -> Result<Targets, ReadFault>
    requires sound { registers_sound registers.now ≡ true }
    requires inside { All (ArgIn bytes.now) args.now }
    ensures { Known result (λ r. r ≡ targets_of bytes.now registers.now args.now) }
{
    let mut out = Vec::with_capacity(alloc, args.len())?;
    for arg in args {
        out.push(target(bytes, registers, *arg)?)?;
    }
    Ok(Targets::from_vec(out))
}

/// Whether a target has the size of the registers before it, if it has one.
fn agrees(size: Option<u32>, target: Target) -> bool
    ensures { result ≡ is_even size target }
{
    match target {
        Target::Single(_) => true,
        Target::Whole(_, more) => match size {
            Some(size) => size == more,
            None => true,
        },
    }
}

/// The size of the registers up to a target.
fn size_with(size: Option<u32>, target: Target) -> Option<u32>
    ensures { result ≡ size_after size target }
{
    match target {
        Target::Single(_) => size,
        Target::Whole(_, more) => match size {
            Some(size) => Some(size),
            None => Some(more),
        },
    }
}

/// The first register whose size is not that of the registers before it.
fn first_uneven(targets: &[Target], args: &[Arg]) -> Option<Span>
    requires { length targets.now ≡ length args.now }
    ensures { result ≡ uneven None targets.now (arg_names args.now) }
{
    let mut size = None;
    for k in 0..targets.len() {
        let target = targets[k];
        if !agrees(size, target) {
            return Some(args[k].name);
        }
        size = size_with(size, target);
    }
    None
}

/// How often the gate is applied: as often as a register has places, or once.
pub fn index_count(targets: &[Target]) -> u32
    ensures { result ≡ indices targets.now }
{
    for target in targets {
        if let Target::Whole(_, size) = *target {
            return size;
        }
    }
    1
}

/// The qubit of a target at an index.
pub fn qubit(target: Target, index: u32) -> u32
    requires { Within 64 index target }
    ensures value { result ≡ qubit_at index target }
    ensures within { result < 64 }
{
    match target {
        Target::Single(qubit) => qubit,
        Target::Whole(first, _) => first + index,
    }
}

/// The first argument whose qubit at an index stands before it.
fn repeated(targets: &[Target], args: &[Arg], index: u32) -> Option<Span>
    requires same { length targets.now ≡ length args.now }
    requires within { All (Within 64 index) targets.now }
    ensures { result ≡ repeat_at [] (qubits_at targets.now index) (arg_names args.now) }
{
    let mut seen = [false; 64];
    for k in 0..targets.len() {
        let qubit = qubit(targets[k], index) as usize;
        if seen[qubit] {
            return Some(args[k].name);
        }
        seen[qubit] = true;
    }
    None
}

/// Of the indices below a count, the first at which a qubit is repeated.
fn first_repeated(targets: &[Target], args: &[Arg], count: u32) -> Option<Span>
    requires same { length targets.now ≡ length args.now }
    requires within { (i : ℕ) → i < count → All (Within 64 i) targets.now }
    ensures { result ≡ repeat_from targets.now (arg_names args.now) 0 count }
{
    for index in 0..count {
        match repeated(targets, args, index) {
            Some(place) => return Some(place),
            None => {}
        }
    }
    None
}

/// How often a gate is applied to targets whose sizes agree, with no qubit twice at an index.
fn count(targets: &[Target], args: &[Arg]) -> Result<u32, ReadFault>
    requires same { length targets.now ≡ length args.now }
    requires within { All (Fits 64) targets.now }
    ensures { result ≡ unless Sizes (uneven None targets.now (arg_names args.now)) (unless RepeatedQubit (repeat_from targets.now (arg_names args.now) 0 (indices targets.now)) (Ok (indices targets.now))) }
{
    match first_uneven(targets, args) {
        Some(place) => return Err(fault(FaultName::Sizes, place)),
        None => {}
    }
    let count = index_count(targets);
    match first_repeated(targets, args, count) {
        Some(place) => Err(fault(FaultName::RepeatedQubit, place)),
        None => Ok(count),
    }
}

/// Whether the prims of a gate, or the items with those that are made already, are too many.
fn too_many(defs: &Defs, gate: Called, made: usize, more: u32) -> bool
    requires { made ≤ 65536 }
    ensures { result ≡ is_too_many defs.now gate made more }
{
    shape_of(defs, gate).size > 4096 || made as u64 + more as u64 > 65536
}

/// The gate and the targets of an application behind these items, or its first fault.
pub fn aim(
    alloc: Global,
    bytes: &[u8],
    registers: &Registers,
    defs: &Defs,
    bound: &Bounds,
    items: &Items,
    call: &Call,
) -> Result<Aimed, ReadFault>
    requires qubits { registers_sound registers.now ≡ true }
    requires few { length items.now ≤ 65536 }
    requires inside { CallIn bytes.now call.now }
    ensures { Known result (λ r. r ≡ aimed bytes.now registers.now defs.now bound.now (length items.now) call.now) }
{
    let gate = called(bytes, bound, call.gate, call.at)?;
    let args = call.args.items();
    if wrong_arity(defs, gate, call.params.items().len(), args.len()) {
        return Err(fault(FaultName::Arity, call.at));
    }
    let targets = targets(alloc, bytes, registers, args)?;
    let count = count(targets.as_slice(), args)?;
    if too_many(defs, gate, items.as_slice().len(), count) {
        return Err(fault(FaultName::TooMany, call.at));
    }
    Ok(Aimed { gate, targets })
}
