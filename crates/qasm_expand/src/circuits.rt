//! Circuits of whole texts.

ghost use Rattle.std.specs.Prelude.{◌≡◌, ◌≤◌, length, Result, Ok, IfErr};
ghost use Rattle.qasm_expand.specs.declared.fault.ReadFault.{ReadFault};
ghost use Rattle.qasm_expand.specs.States.{IsSound};
ghost use Rattle.qasm_expand.specs.Circuits.{CircuitOf, nothing_yet, closed, ReadsText};
ghost use Rattle.qasm_expand.specs.Reading.{CircuitTold};
ghost use Rattle.qasm_expand.specs.Places.{IsPlaced};

use crate::bounds::Bounds;
use crate::defs::Defs;
use crate::expanding::expand;
use crate::fault::{FaultName, ReadFault};
use crate::item_list::Items;
use crate::programs::text_program;
use crate::registers::Registers;
use crate::state::State;
use crate::tables::{Circuit, Table};
use std::alloc::Global;
use std::sync::Arc;

// Nothing is declared, and no gate is known.
fn nothing(alloc: Global) -> State
    ensures value { result ≡ nothing_yet }
    ensures sound { IsSound result }
{
    State {
        registers: Registers::new(alloc),
        defs: Defs::from_vec(Vec::new(alloc)),
        bound: Bounds::new(alloc),
        library: None,
        items: Items::new(alloc),
    }
}

// The circuit at the end of a text.
fn ended(alloc: Global, text: &[u8], state: State) -> Result<Circuit, ReadFault>
    requires small { length text.now ≤ 16777216 }
    requires sound { IsSound state }
    ensures { CircuitTold result (λ r. r ≡ closed text.now (Ok state)) }
{
    let qubits = state.registers.qubits();
    if qubits == 0 {
        return Err(ReadFault::Fault {
            name: FaultName::NoQubits,
            offset: text.len() as u32,
        });
    }
    let table = Table {
        registers: state.registers,
        defs: state.defs,
        bound: state.bound,
    };
    Ok(Circuit {
        qubits,
        table: Arc::new(alloc, table)?,
        items: state.items,
    })
}

/// The circuit of a whole text of at most 16,777,216 bytes, or its first fault.
///
/// All faults of tokens come before those of the grammar, and these before those of the statements,
/// which are taken in order. `NoQubits` is at the end of the text, and every other fault within it. The library has no
/// fault, so none is told of it. `Memory` can come in place of any answer.
pub fn circuit(alloc: Global, text: &[u8]) -> Result<Circuit, ReadFault>
    requires { length text.now ≤ 16777216 }
    // The answer is the circuit of the text, or its first fault by offset.
    ensures reads { CircuitTold result (ReadsText text.now) }
    // No other circuit and no other fault is that of the text.
    ensures only { CircuitTold result (λ a. (b : Result CircuitOf ReadFault) → ReadsText text.now b → b ≡ a) }
    // A fault is within the text, and NoQubits at its end.
    ensures placed { IfErr result (IsPlaced text.now) }
{
    let program = match text_program(alloc, text) {
        Ok(program) => program,
        Err(fault) => return Err(fault),
    };
    let mut state = nothing(alloc);
    match expand(alloc, text, &mut state, program.statements()) {
        Ok(()) => ended(alloc, text, state),
        Err(fault) => Err(fault),
    }
}
