//! The laws of lists of gates that are taken apart: what a part tells of the whole, how gates are undone,
//! and which may stand in either order.
#![tactic(auto)]

pub mod laws;
