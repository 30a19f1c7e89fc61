//! What statements are read from, and what registers hold.

/// What statements are read from.
#[derive(Clone, Copy, Debug, PartialEq, Eq)]
pub enum Whence {
    /// A whole text.
    Text,
    /// A block, in which nothing is declared.
    Block,
}

/// What a register holds.
#[derive(Clone, Copy, Debug, PartialEq, Eq)]
pub enum Bits {
    /// Qubits.
    Quantum,
    /// Bits.
    Classical,
}
