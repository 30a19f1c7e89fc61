//! Two circuits that were read.

ghost use Rattle.std.specs.Prelude.{◌≤◌, length};
ghost use Rattle.qasm_expand.specs.States.{ItemsWithin, ItemsWithin-prop};

use super::refusals::Refusal;
use qasm_expand::Items;

/// Two circuits on the same qubits, 1 to 64 of them, each of at most 65,536 items.
#[derive(Drop)]
pub struct Pair {
    pub qubits: u32,
    pub first: Items,
    pub second: Items,
    pub ghost width: { (1 ≤ qubits) × (qubits ≤ 64) },
    pub ghost first_few: { length first ≤ 65536 },
    pub ghost second_few: { length second ≤ 65536 },
    pub ghost first_within: { ItemsWithin qubits first } by { ItemsWithin-prop qubits first },
    pub ghost second_within: { ItemsWithin qubits second } by { ItemsWithin-prop qubits second },
}

/// What two texts are.
#[derive(Drop)]
pub enum TwoTexts {
    /// Two circuits.
    Both(Pair),
    /// They are refused, at this byte of the input.
    Refuses { why: Refusal, at: u64 },
}
