//! Items of blocks behind a text.

ghost use Rattle.std.specs.Prelude.{◌≡◌, ◌≤◌, length, List, Result, All, OnOk, IfOk, IfErr};
ghost use Rattle.ps_prim.specs.declared.prims.Primitive.{Primitive as Prim};
ghost use Rattle.qasm_parse.specs.Places.{StatementIn};
ghost use Rattle.qasm_expand.specs.declared.fault.ReadFault.{ReadFault};
ghost use Rattle.qasm_expand.specs.Tables.{qubit_count};
ghost use Rattle.qasm_expand.specs.States.{IsSound, Became, ItemsWithin};
ghost use Rattle.qasm_expand.specs.Statements.{Takes, Expands};
ghost use Rattle.qasm_expand.specs.Circuits.{ReadsBlock};
ghost use Rattle.qasm_expand.specs.Reading.{table_in, ItemsTold};
ghost use Rattle.qasm_expand.specs.Places.{IsInside};
ghost use Rattle.qasm_expand.specs.Blocks.{IsPlain, known_with};
ghost use Rattle.qasm_expand.specs.Ready.{AreExpansions};

use crate::applying::{apply, barrier};
use crate::fault::ReadFault;
use crate::item_list::Items;
use crate::programs::block_program;
use crate::ready::Ready;
use crate::tables::Table;
use qasm_parse::Statement;
use std::alloc::Global;

// Takes an application or a barrier.
fn take(
    alloc: Global,
    bytes: &[u8],
    table: &Table,
    ready: &mut Ready,
    items: &mut Items,
    statement: &Statement,
) -> Result<(), ReadFault>
    requires sound { IsSound (known_with table.now items.old) }
    requires inside { StatementIn bytes.now statement.now }
    requires plain { IsPlain statement.now }
    requires ready { AreExpansions table.now.defs ready.old.slots.items }
    ensures taken { Became result (known_with table.now items.new) (Takes bytes.now (known_with table.now items.old) statement.now) }
    ensures sound { OnOk result (IsSound (known_with table.now items.new)) }
    ensures ready { OnOk result (AreExpansions table.now.defs ready.new.slots.items) }
{
    match statement {
        Statement::Apply(call) => apply(
            alloc,
            bytes,
            &table.registers,
            &table.defs,
            &table.bound,
            ready,
            items,
            call,
        ),
        Statement::Barrier(args) => barrier(alloc, bytes, &table.registers, args.items()),
        _ => unreachable!(),
    }
}

// Takes applications and barriers in order, up to the first fault.
fn expand(
    alloc: Global,
    bytes: &[u8],
    table: &Table,
    items: &mut Items,
    statements: &[Statement],
) -> Result<(), ReadFault>
    requires sound { IsSound (known_with table.now items.old) }
    requires inside { All (StatementIn bytes.now) statements.now }
    requires plain { All IsPlain statements.now }
    ensures expanded { Became result (known_with table.now items.new) (Expands bytes.now (known_with table.now items.old) statements.now) }
    ensures sound { OnOk result (IsSound (known_with table.now items.new)) }
{
    let mut ready = Ready::new(alloc);
    for statement in statements {
        match take(alloc, bytes, table, &mut ready, items, statement) {
            Ok(()) => {}
            Err(fault) => return Err(fault),
        }
    }
    Ok(())
}

/// The items of a block of at most 16,777,216 bytes behind a text, whose registers, gates and bound
/// names are in the table; or the first fault of the block, by its offset in the block.
///
/// A block has applications and barriers alone; `include`, `qreg`, `creg` and `gate` are `Syntax` at
/// their word. The items are those of the block, at most 65,536, in order, each on qubits of the table's
/// registers; a block without an application has none.
///
/// All faults of tokens come before those of the grammar, and these before those of the statements,
/// which are taken in order. There is no `Version`, `Include`, `Redeclared` and `NoQubits`. `Memory` can
/// come in place of any answer.
pub fn items(alloc: Global, table: &Table, block: &[u8]) -> Result<Items, ReadFault>
    requires { length block.now ≤ 16777216 }
    // The answer is the items of the block behind the table, or its first fault by offset.
    ensures reads { ItemsTold result (ReadsBlock (table_in table.now) block.now) }
    // No other items and no other fault are those of the block.
    ensures only { ItemsTold result (λ a. (b : Result (List (List Prim)) ReadFault) → ReadsBlock (table_in table.now) block.now b → b ≡ a) }
    // There are at most 65,536 items.
    ensures few { IfOk result (λ is. length is ≤ 65536) }
    // Each is on qubits of the table's registers.
    ensures within { IfOk result (λ is. ItemsWithin (qubit_count table.now.registers) is) }
    // A fault is within the block, and is not NoQubits.
    ensures inside { IfErr result (IsInside block.now) }
{
    let program = match block_program(alloc, block) {
        Ok(program) => program,
        Err(fault) => return Err(fault),
    };
    let mut items = Items::new(alloc);
    match expand(alloc, block, table, &mut items, program.statements()) {
        Ok(()) => Ok(items),
        Err(fault) => Err(fault),
    }
}
