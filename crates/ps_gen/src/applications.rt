//! Applications of gates of the library to one qubit or to two.

/// A gate that is drawn, or one that undoes such a gate.
#[derive(Clone, Copy, Debug, PartialEq, Eq)]
pub enum Gate {
    X,
    S,
    Sdg,
    T,
    Tdg,
    Cx,
    Cz,
    Swap,
}

/// A gate on the qubit `first`, or on `first` and `second` where it takes two.
#[derive(Clone, Copy, Debug, PartialEq, Eq)]
pub struct Application {
    pub gate: Gate,
    pub first: u32,
    pub second: u32,
}
