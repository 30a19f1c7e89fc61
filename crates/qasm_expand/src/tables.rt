//! Circuits, and what is known at the end of their texts.

ghost use Rattle.std.specs.Prelude.{◌≡◌, ◌≤◌, true, length};
ghost use Rattle.qasm_expand.specs.Tables.{defs_sound, bound_sound, registers_sound};
ghost use Rattle.qasm_expand.specs.States.{ItemsWithin, ItemsWithin-prop};

use crate::bounds::Bounds;
use crate::defs::Defs;
use crate::item_list::Items;
use crate::registers::Registers;
use std::sync::Arc;

/// The registers, the gates in the order in which they were read, and the bound names.
///
/// Each bound name means one of the gates. Each application in a body has as many parameters and
/// arguments as its gate takes, which stands earlier; its arguments are different places of the
/// body's arguments, and its identifiers are parameters of the body's gate. The quantum registers
/// follow each other from qubit 0, and have at most 64 qubits in all.
#[derive(Drop)]
pub struct Table {
    pub registers: Registers,
    pub defs: Defs,
    pub bound: Bounds,
    pub ghost gates: { defs_sound defs ≡ true },
    pub ghost names: { bound_sound (length defs) bound ≡ true },
    pub ghost qubits: { registers_sound registers ≡ true },
}

/// A circuit: how many qubits it has, from 1 to 64; the registers and gates at the end of its text; and
/// its items in order, at most 65,536, each on these qubits.
#[derive(Drop)]
pub struct Circuit {
    pub qubits: u32,
    pub table: Arc<Table>,
    pub items: Items,
    pub ghost width: { (1 ≤ qubits) × (qubits ≤ 64) },
    pub ghost few: { length items ≤ 65536 },
    pub ghost within: { ItemsWithin qubits items } by { ItemsWithin-prop qubits items },
}
