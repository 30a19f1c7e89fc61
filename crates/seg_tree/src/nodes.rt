//! The table, and what is read from it.
ghost use Rattle.std.specs.Prelude.{◌≡◌, ◌*◌, ◌^◌, ◌<◌, ◌≤◌, ◌++◌, [], ◌∷◌, length, take, IfOk, OnOk};
ghost use Rattle.seg_tree.specs.Trees.{run, height};
ghost use Rattle.seg_tree.specs.Measures.{IsBalanced, leaves, IsWhole};
ghost use Rattle.seg_tree.specs.Seen.{Shows};
ghost use Rattle.seg_tree.specs.Table.{tree, planted, root_tree, IsRoot, IsWholeRoot, Stands};
ghost use Rattle.seg_tree.specs.Drafts.{Describes, IsDraft, IsMaybe};
ghost use Rattle.seg_tree.specs.Growth.{Extends};
ghost use Rattle.seg_tree.specs.Older.{IsForest};

use crate::drafts::{Draft, Slot};
use crate::node::{Node, Seen};
use std::alloc::{AllocError, Global};
use std::marker::Model;

/// An append-only table of the nodes of trees, seen as the list of the nodes' trees.
#[derive(Drop)]
pub struct Nodes {
    slots: Vec<Slot>,
}

impl Model for Nodes {
    ghost use Rattle.std.specs.Prelude.{List, ℕ};
    ghost use Rattle.std.specs.Coded.{coded_list, coded_ℕ};
    ghost use Rattle.seg_tree.specs.Trees.{Tree};
    ghost use Rattle.seg_tree.specs.Coding.{tree_code};

    ghost Value = { List (Tree ℕ) };

    ghost coded = { coded_list (tree_code coded_ℕ) };

    ghost use Rattle.seg_tree.specs.Table.{forest, IsSound};

    ghost view = { λ a. forest a.slots.items };

    ghost invariant = { λ a. IsSound a.slots.items };
}

impl Nodes {
    /// A table with no node.
    pub fn new(alloc: Global) -> Nodes
        ensures { result ≡ [] }
    {
        Nodes {
            slots: Vec::new(alloc),
        }
    }

    /// The allocator of the table.
    pub(crate) fn alloc(&self) -> Global {
        *self.slots.allocator()
    }

    pub(crate) fn slot(&self, node: Node) -> &Slot
        requires { node < length self.now }
        ensures { Describes self.now node result.now }
    {
        &self.slots[node.number() as usize]
    }

    /// What a node is: a leaf with its items, or a branch with its two sides.
    pub fn look(&self, node: Node) -> Seen<'_>
        requires { node < length self.now }
        ensures { Shows self.now node result }
    {
        match self.slot(node) {
            Slot::Leaf(items) => Seen::Leaf(items.as_slice()),
            Slot::Branch(left, right, _, _) => Seen::Branch(*left, *right),
        }
    }

    /// The number of items of a node's tree.
    pub fn len(&self, node: Node) -> u32
        requires { node < length self.now }
        ensures value { result ≡ length (run (tree self.now node)) }
        ensures some { 0 < result }
        ensures short { result ≤ 65536 }
    {
        match self.slot(node) {
            Slot::Leaf(items) => items.len() as u32,
            Slot::Branch(_, _, len, _) => *len,
        }
    }

    /// The height of a node's tree: 0 of a leaf, and of a branch one more than that of its higher side. Each tree of the
    /// table is a leaf, or a branch of the trees of older nodes.
    pub fn height(&self, node: Node) -> u32
        requires { node < length self.now }
        ensures value { result ≡ height (tree self.now node) }
        ensures balanced { IsBalanced (tree self.now node) }
        ensures bound { 2 ^ result ≤ leaves (tree self.now node) * leaves (tree self.now node) }
        ensures filled { leaves (tree self.now node) ≤ length (run (tree self.now node)) }
        ensures whole { IsWhole node (tree self.now node) }
        ensures forest { IsForest self.now }
    {
        let draft = self.draft(node);
        self.height_of(&draft)
    }

    /// The items of a node's tree, in order.
    pub fn run_of(&self, node: Node) -> Result<Vec<u64>, AllocError>
        requires { node < length self.now }
        ensures { IfOk result (λ v. v.items ≡ run (tree self.now node)) }
    {
        let mut out = Vec::with_capacity(self.alloc(), self.len(node) as usize)?;
        self.read(node, &mut out)?;
        Ok(out)
    }

    /// Appends the items of a node's tree.
    fn read(&self, node: Node, out: &mut Vec<u64>) -> Result<(), AllocError>
        requires { node < length self.now }
        ensures { OnOk result (out.new.items ≡ out.old.items ++ run (tree self.now node)) }
    {
        match self.slot(node) {
            Slot::Leaf(items) => out.extend_from_slice(items.as_slice()),
            Slot::Branch(left, right, _, _) => {
                self.read(*left, out)?;
                self.read(*right, out)
            }
        }
    }

    /// The draft of a node.
    pub(crate) fn draft(&self, node: Node) -> Draft
        requires { node < length self.now }
        ensures draft { IsDraft self.now (tree self.now node) result }
        ensures whole { IsWhole node (tree self.now node) }
        ensures forest { IsForest self.now }
    {
        let _ = &self.slots;
        Draft::Old(node)
    }

    /// The draft of a root, where there is one.
    pub(crate) fn draft_of(&self, root: Option<Node>) -> Option<Draft>
        requires { IsRoot self.now root }
        ensures draft { IsMaybe self.now (root_tree self.now root) result }
        ensures whole { IsWholeRoot self.now root }
    {
        match root {
            None => None,
            Some(node) => Some(self.draft(node)),
        }
    }

    /// The number of nodes in the table.
    pub fn count(&self) -> u64
        ensures { result ≡ length self.now }
    {
        self.slots.len() as u64
    }

    /// One more node.
    pub(crate) fn push(&mut self, slot: Slot) -> Result<Node, AllocError>
        requires { Stands self.old (length self.old) slot }
        ensures front { Extends self.old self.new }
        ensures tree { IfOk result (λ k. (self.new ≡ self.old ++ planted self.old slot ∷ []) × (k ≡ length self.old)) }
    {
        let node = Node::at(self.count());
        self.slots.push(slot)?;
        Ok(node)
    }

    /// Gives up the nodes from a place on.
    pub(crate) fn truncate(&mut self, count: u64)
        requires { count ≤ length self.old }
        ensures { self.new ≡ take count self.old }
    {
        self.slots.truncate(count as usize);
    }
}
