//! Circuits of programs in the unitary part of OpenQASM 2.0: gates, the library, and applications to registers.
#![tactic(auto)]

pub mod applying;
pub mod blocks;
pub mod bodies;
pub mod bounds;
pub mod broken;
pub mod calls;
pub mod circuits;
pub mod declaring;
pub mod defs;
pub mod expanding;
pub mod fault;
pub mod formals;
mod frame;
pub mod gates;
pub mod including;
pub mod item_list;
pub mod library;
pub mod naming;
pub mod numbers;
pub mod programs;
pub mod ready;
pub mod registers;
pub mod shared;
pub mod spelling;
pub mod state;
pub mod tables;
pub mod target;
pub mod targets;

pub use blocks::items;
pub use bounds::Bounds;
pub use circuits::circuit;
pub use defs::{Body, Called, Def, Defs, Exprs, Inner, Places};
pub use fault::{FaultName, ReadFault};
pub use item_list::Items;
pub use registers::{Extent, Registers};
pub use tables::{Circuit, Table};

#[cfg(test)]
mod tests;
