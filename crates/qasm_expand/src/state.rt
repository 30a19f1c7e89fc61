//! What is known while the statements of a text are taken.

use crate::bounds::Bounds;
use crate::defs::Defs;
use crate::item_list::Items;
use crate::registers::Registers;

/// The library's gates, from the one number up to the other.
#[derive(Clone, Copy, Debug, PartialEq, Eq)]
pub struct Shelf {
    pub from: u32,
    pub to: u32,
}

/// What is declared and defined so far, and the items so far.
#[derive(Drop)]
pub struct State {
    pub registers: Registers,
    pub defs: Defs,
    pub bound: Bounds,
    /// The library's gates, once they are there.
    pub library: Option<Shelf>,
    pub items: Items,
}
