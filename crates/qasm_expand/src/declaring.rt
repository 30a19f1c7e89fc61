//! Declarations of registers.

ghost use Rattle.std.specs.Prelude.{◌≡◌, ◌+◌, ◌≤◌, ◌&&◌, nat_lt, OnOk, if◌then◌else◌};
ghost use Rattle.qasm_parse.specs.Places.{SpanIn};
ghost use Rattle.qasm_expand.specs.States.{IsSound, Became};
ghost use Rattle.qasm_expand.specs.Statements.{declared_as};

use crate::fault::{FaultName, ReadFault};
use crate::numbers::number;
use crate::registers::Extent;
use crate::spelling::{fault, spelled};
use crate::state::State;
use qasm_parse::Span;
use std::alloc::Global;

// Whether a quantum register of this size makes the qubits more than 64.
fn too_many(quantum: bool, first: u32, size: u64) -> bool
    requires { size ≤ 4294967295 }
    ensures { result ≡ (quantum && nat_lt 64 (first + size)) }
{
    quantum && first as u64 + size > 64
}

// The places of a register behind so many qubits.
fn extent(quantum: bool, first: u32, size: u32) -> Extent
    ensures { result ≡ record { quantum = quantum; first = if quantum then first else 0; size = size } }
{
    Extent {
        quantum,
        first: if quantum { first } else { 0 },
        size,
    }
}

/// Declares a register of qubits, or a classical one.
pub fn declare(
    alloc: Global,
    bytes: &[u8],
    state: &mut State,
    quantum: bool,
    name: Span,
    size: Span,
) -> Result<(), ReadFault>
    requires sound { IsSound state.old }
    requires name { SpanIn bytes.now name }
    requires size { SpanIn bytes.now size }
    ensures declared { Became result state.new (λ r. r ≡ declared_as quantum bytes.now state.old name size) }
    ensures sound { OnOk result (IsSound state.new) }
{
    let word = spelled(bytes, name);
    if state.registers.get(word).is_some() {
        return Err(fault(FaultName::Redeclared, name));
    }
    let places = number(spelled(bytes, size));
    if places == 0 || places > 4294967295 {
        return Err(fault(FaultName::Range, size));
    }
    let first = state.registers.qubits();
    if too_many(quantum, first, places) {
        return Err(fault(FaultName::TooMany, size));
    }
    let extent = extent(quantum, first, places as u32);
    state.registers.push(alloc, word, extent)?;
    Ok(())
}
