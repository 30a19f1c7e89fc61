//! Questions about an edit: two lists of items are cut where they part, and what is left of them is compared.
#![tactic(auto)]

mod alignment;
pub mod cut;
mod decisions;
mod ends;
mod equality;
pub mod fronts;
pub mod laws;
pub mod local;
pub mod middles;
pub mod places;
mod qubits;
pub mod questions;
mod windows;
mod wires;

pub use cut::Cut;
pub use local::{Found, Local};
pub use middles::cut_of;
pub use questions::decide_local;
