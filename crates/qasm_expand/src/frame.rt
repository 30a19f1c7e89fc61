//! What is left to do of a body.

use ps_prim::Prim;
use qasm_angle::Pair;

/// The applications of a gate's body from a place on, with the values of the gate's parameters
/// and the outermost gate's arguments that stand for its arguments.
#[derive(Drop)]
pub struct Frame {
    pub def: u32,
    pub next: usize,
    pub values: Vec<Pair>,
    pub places: Vec<u32>,
}

/// What an application in a body comes to.
#[derive(Drop)]
pub enum Outcome {
    /// No gate.
    Nothing,
    /// One gate on arguments of the outermost gate.
    Prim(Prim),
    /// A body that is still to be done.
    Body(Frame),
}
