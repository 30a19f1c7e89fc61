//! The items of segments.
ghost use Rattle.std.specs.Prelude.{◌≡◌, ◌≤◌, ◌<◌, ◌++◌, ◌↔◌, true, map, length, IsTrue, IsSome, IfOk, OnOk};
ghost use Rattle.std.specs.List.{list_all};
ghost use Rattle.seg_tree.specs.Trees.{run, run_maybe};
ghost use Rattle.seg_tree.specs.Table.{tree, root_tree};
ghost use Rattle.ps_reach.specs.Runs.{prims_of};
ghost use Rattle.ps_versions.specs.Lookup.{root_of};
ghost use Rattle.ps_views.specs.Views.{items_in, item_at, run_at, run_of_leaf};
ghost use Rattle.ps_views.specs.Fields.{held_at, are_below};
ghost use Rattle.ps_book.specs.Runs.{HasRun};

use crate::equality::same_item;
use crate::service::Service;
use ps_prim::Item;
use ps_reach::Items;
use ps_script::Place;
use seg_tree::{Node, Seen};
use std::alloc::AllocError;
use std::sync::Arc;

impl Service {
    /// The number of items of a version, which exists.
    pub(crate) fn len_at(&self, place: &Place) -> u32
        requires { IsSome (held_at self.now.versions place.now) }
        ensures value { result ≡ length (run_maybe (root_tree self.now.versions.nodes (root_of (held_at self.now.versions place.now)))) }
        ensures short { result ≤ 65536 }
    {
        match self.versions.root(place) {
            None => 0,
            Some(root) => self.versions.nodes().len(root),
        }
    }

    /// The item of a number.
    fn item(&self, number: u64) -> &Arc<Item>
        requires { number < length self.now.items.items }
        ensures { prims_of result.now ≡ item_at (items_in self.now.items.items) number }
    {
        &self.items[number as usize]
    }

    /// Appends the items of a leaf, for which there is room.
    fn append_leaf(&self, numbers: &[u64], out: &mut Vec<Arc<Item>>) -> Result<(), AllocError>
        requires { are_below (length self.now.items.items) numbers.now ≡ true }
        ensures { OnOk result (map prims_of out.new.items ≡ map prims_of out.old.items ++ run_of_leaf (items_in self.now.items.items) numbers.now) }
    {
        for number in numbers {
            out.push(Arc::try_clone(self.item(*number))?)?;
        }
        Ok(())
    }

    /// Appends the items of a segment.
    fn append(&self, node: Node, out: &mut Vec<Arc<Item>>) -> Result<(), AllocError>
        requires { node < length self.now.versions.nodes }
        ensures { OnOk result (map prims_of out.new.items ≡ map prims_of out.old.items ++ run_at (items_in self.now.items.items) self.now.versions.nodes node) }
    {
        match self.versions.nodes().look(node) {
            Seen::Leaf(numbers) => self.append_leaf(numbers, out),
            Seen::Branch(left, right) => {
                self.append(left, out)?;
                self.append(right, out)
            }
        }
    }

    /// The items of a segment, to be shared.
    pub(crate) fn items_of(&self, node: Node) -> Result<Arc<Items>, AllocError>
        requires { node < length self.now.versions.nodes }
        ensures { IfOk result (λ a. a.value ≡ run_at (items_in self.now.items.items) self.now.versions.nodes node) }
    {
        let len = self.versions.nodes().len(node) as usize;
        let mut out = Vec::with_capacity(self.alloc(), len)?;
        self.append(node, &mut out)?;
        Ok(Arc::new(self.alloc(), Items::from_vec(out))?)
    }

    /// Whether the items of a leaf are these.
    fn is_leaf(&self, numbers: &[u64], items: &[Arc<Item>]) -> bool
        requires { are_below (length self.now.items.items) numbers.now ≡ true }
        ensures { IsTrue result ↔ (map prims_of items.now ≡ run_of_leaf (items_in self.now.items.items) numbers.now) }
    {
        if numbers.len() != items.len() {
            return false;
        }
        for i in 0..numbers.len() {
            if !same_item(self.item(numbers[i]), &items[i]) {
                return false;
            }
        }
        true
    }

    /// Whether the items of a segment are these.
    pub(crate) fn is_run(&self, node: Node, items: &[Arc<Item>]) -> bool
        requires { node < length self.now.versions.nodes }
        ensures { IsTrue result ↔ (map prims_of items.now ≡ run_at (items_in self.now.items.items) self.now.versions.nodes node) }
    {
        match self.versions.nodes().look(node) {
            Seen::Leaf(numbers) => self.is_leaf(numbers, items),
            Seen::Branch(left, right) => {
                let front = self.versions.nodes().len(left) as usize;
                if front > items.len() {
                    return false;
                }
                self.is_run(left, &items[..front]) && self.is_run(right, &items[front..])
            }
        }
    }

    /// Whether a segment of a node's tree has these items.
    pub(crate) fn has_run(&self, node: Node, items: &[Arc<Item>]) -> bool
        requires { node < length self.now.versions.nodes }
        ensures { IsTrue result ↔ HasRun (items_in self.now.items.items) (tree self.now.versions.nodes node) (map prims_of items.now) }
    {
        if (self.versions.nodes().len(node) as usize) < items.len() {
            return false;
        }
        if self.is_run(node, items) {
            return true;
        }
        match self.versions.nodes().look(node) {
            Seen::Leaf(_) => false,
            Seen::Branch(left, right) => self.has_run(left, items) || self.has_run(right, items),
        }
    }
}
