//! What a table holds, and trees that are not all in it yet.

use crate::node::Node;
use smallvec::SmallVec;

/// The items of a leaf.
pub(crate) type Items = SmallVec<u64, 8>;

/// A node as it lies in the table. A branch knows its number of items and its height.
#[derive(Drop)]
pub(crate) enum Slot {
    Leaf(Items),
    Branch(Node, Node, u32, u32),
}

/// A tree over a table, the new nodes of which are not in the table yet.
#[derive(Drop)]
pub(crate) enum Draft {
    Old(Node),
    Leaf(Items),
    Branch(Box<Draft>, Box<Draft>, u32, u32),
}

/// A draft with its two sides, where it has them.
#[derive(Drop)]
pub(crate) enum Opened {
    Leaf(Draft),
    Branch(Draft, Draft),
}
