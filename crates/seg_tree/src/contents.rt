//! The items of a tree, read without taking memory.
ghost use Rattle.std.specs.Prelude.{◌≡◌, ◌<◌, ◌≤◌, ◌↔◌, IsTrue, length, take, drop};
ghost use Rattle.seg_tree.specs.Trees.{run};
ghost use Rattle.seg_tree.specs.Table.{tree};

use crate::node::{Node, Seen};
use crate::nodes::Nodes;

impl Nodes {
    /// Whether these are the items of a node's tree, in order.
    pub fn is_run(&self, node: Node, items: &[u64]) -> bool
        requires { node < length self.now }
        ensures { IsTrue result ↔ (items.now ≡ run (tree self.now node)) }
    {
        if items.len() != self.len(node) as usize {
            return false;
        }
        match self.look(node) {
            Seen::Leaf(own) => items == own,
            Seen::Branch(left, right) => {
                let (front, back) = items.split_at(self.len(left) as usize);
                self.is_run(left, front) && self.is_run(right, back)
            }
        }
    }

    /// The items of a node's tree from a place on, as far as the leaf reaches that the place is in. A place below the
    /// length.
    pub fn leaf_from(&self, node: Node, place: u32) -> &[u64]
        requires there { node < length self.now }
        requires within { place < length (run (tree self.now node)) }
        ensures items { result.now ≡ take (length result.now) (drop place (run (tree self.now node))) }
        ensures some { 0 < length result.now }
        ensures few { length result.now ≤ 8 }
    {
        match self.look(node) {
            Seen::Leaf(items) => &items[place as usize..],
            Seen::Branch(left, right) => {
                let len = self.len(left);
                if place < len {
                    self.leaf_from(left, place)
                } else {
                    self.leaf_from(right, place - len)
                }
            }
        }
    }
}
