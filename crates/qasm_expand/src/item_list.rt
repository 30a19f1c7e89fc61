//! The items of a circuit.

ghost use Rattle.std.specs.Prelude.{◌≡◌, ◌<◌, ◌++◌, ◌∷◌, [], map, length, OnOk, OnErr};
ghost use Rattle.qasm_expand.specs.Maps.{prims_in};

use ps_prim::Item;
use std::alloc::{AllocError, Global};
use std::marker::Model;
use std::sync::Arc;

/// Items in order, of which equal ones may be shared. Clauses see the list of their lists of prims.
#[derive(Drop)]
pub struct Items {
    list: Vec<Arc<Item>>,
    // items that were made, each in its slot, where the last one stays
    made: Vec<Option<Arc<Item>>>,
}

impl Model for Items {
    ghost use Rattle.std.specs.Prelude.{List, map};
    ghost use Rattle.ps_prim.specs.declared.prims.Primitive.{Primitive as Prim};
    ghost use Rattle.qasm_expand.specs.Maps.{prims_in};

    ghost Value = { List (List Prim) };

    ghost view = { λ s. map prims_in s.list.items };
}

impl Items {
    /// No item.
    pub fn new(alloc: Global) -> Items
        ensures { result ≡ [] }
    {
        Items {
            list: Vec::new(alloc),
            made: Vec::new(alloc),
        }
    }

    /// The items in order. Takes no memory.
    pub fn as_slice(&self) -> &[Arc<Item>]
        ensures { map prims_in result.now ≡ self.now }
    {
        &self.list
    }

    /// The items in order, as a vector. Takes no memory.
    pub fn into_vec(self) -> Vec<Arc<Item>>
        ensures { map prims_in result.items ≡ self }
    {
        self.list
    }

    /// The item that was made last for the slot.
    pub(crate) fn made(&self, slot: usize) -> Option<&Arc<Item>> {
        match self.made.get(slot) {
            Some(Some(item)) => Some(item),
            _ => None,
        }
    }

    /// Keeps the item in the slot. The table is as long as the slots that were met need.
    pub(crate) fn keep(&mut self, slot: usize, item: Arc<Item>) -> Result<(), AllocError>
        requires { slot < 4096 }
        ensures { self.new ≡ self.old }
    {
        'slots: while self.made.len() <= slot {
            self.made.push(None)?;
        }
        self.made[slot] = Some(item);
        Ok(())
    }

    /// One item more.
    pub(crate) fn push(&mut self, item: Arc<Item>) -> Result<(), AllocError>
        ensures { OnOk result (self.new ≡ self.old ++ prims_in item ∷ []) }
    {
        self.list.push(item)?;
        Ok(())
    }
}
