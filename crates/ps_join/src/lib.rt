//! The path sums of primitive gates, and path sums one after the other.
#![tactic(auto)]

pub mod changes;
pub mod gates;
mod gating;
pub mod joins;
pub mod laws;
pub mod leaves;
mod limits;
mod naming;
pub mod onto_fault;
mod plains;
mod putting;
mod replacing;
pub mod running;

pub use changes::Change;
pub use gates::Gate;
pub use gating::join_gate;
pub use joins::{join, join_onto};
pub use leaves::{identity, leaf};
pub use onto_fault::OntoFault;
pub use plains::join_prim;
pub use running::Running;

#[cfg(test)]
mod tests;
