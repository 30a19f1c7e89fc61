ghost use Rattle.std.specs.Prelude.{◌≤◌};

use ps_mono::Bits;

/// An input of basis states.
#[derive(Clone, Copy)]
pub struct Input {
    /// How many qubits, at most 64.
    pub qubits: u32,
    /// The qubits that are 1; what it says of others counts for nothing.
    pub at: Bits,
    ghost few: { qubits ≤ 64 },
}
