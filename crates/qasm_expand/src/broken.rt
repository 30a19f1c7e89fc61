//! Faults of expressions and of bodies.

use qasm_angle::AngleFault;

/// A fault, and the number of the expression that has it, from 0.
#[derive(Clone, Copy, Debug, PartialEq, Eq)]
pub struct Stop {
    pub at: usize,
    pub fault: AngleFault,
}

/// A fault of one of the own expressions of an application, or of one in a body.
#[derive(Clone, Copy, Debug, PartialEq, Eq)]
pub enum Broken {
    /// Of an own expression.
    Own(Stop),
    /// Of one in a body.
    Inside(AngleFault),
}
