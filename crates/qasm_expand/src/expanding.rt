//! Statements, one after the other.

ghost use Rattle.std.specs.Prelude.{◌≡◌, OnOk, All, List};
ghost use Rattle.qasm_parse.specs.Places.{StatementIn};
ghost use Rattle.qasm_expand.specs.States.{IsSound, Became};
ghost use Rattle.qasm_expand.specs.Statements.{Takes, Expands};
ghost use Rattle.qasm_expand.specs.Ready.{AreExpansions};

use crate::applying::{apply, barrier};
use crate::declaring::declare;
use crate::fault::ReadFault;
use crate::including::{definition, include};
use crate::ready::Ready;
use crate::state::State;
use qasm_parse::Statement;
use std::alloc::Global;

/// Takes a statement. What gates come to is forgotten where there may be other gates.
fn take(
    alloc: Global,
    bytes: &[u8],
    state: &mut State,
    ready: &mut Ready,
    statement: &Statement,
) -> Result<(), ReadFault>
    requires sound { IsSound state.old }
    requires inside { StatementIn bytes.now statement.now }
    requires ready { AreExpansions state.old.defs ready.old.slots.items }
    ensures taken { Became result state.new (Takes bytes.now state.old statement.now) }
    ensures sound { OnOk result (IsSound state.new) }
    ensures ready { OnOk result (AreExpansions state.new.defs ready.new.slots.items) }
{
    match statement {
        Statement::Include(_) => {
            ready.clear();
            include(alloc, state)
        }
        Statement::Qreg { name, size } => {
            ready.clear();
            declare(alloc, bytes, state, true, *name, *size)
        }
        Statement::Creg { name, size } => {
            ready.clear();
            declare(alloc, bytes, state, false, *name, *size)
        }
        Statement::Gate {
            name,
            params,
            args,
            body,
        } => {
            ready.clear();
            definition(
                alloc,
                bytes,
                state,
                *name,
                params.items(),
                args.items(),
                body.items(),
            )
        }
        Statement::Apply(call) => apply(
            alloc,
            bytes,
            &state.registers,
            &state.defs,
            &state.bound,
            ready,
            &mut state.items,
            call,
        ),
        Statement::Barrier(args) => barrier(alloc, bytes, &state.registers, args.items()),
    }
}

/// Takes statements in order, up to the first fault.
pub fn expand(
    alloc: Global,
    bytes: &[u8],
    state: &mut State,
    statements: &[Statement],
) -> Result<(), ReadFault>
    requires sound { IsSound state.old }
    requires inside { All (StatementIn bytes.now) statements.now }
    ensures expanded { Became result state.new (Expands bytes.now state.old statements.now) }
    ensures sound { OnOk result (IsSound state.new) }
{
    let mut ready = Ready::new(alloc);
    for statement in statements {
        match take(alloc, bytes, state, &mut ready, statement) {
            Ok(()) => {}
            Err(fault) => return Err(fault),
        }
    }
    Ok(())
}
