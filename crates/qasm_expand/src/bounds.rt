//! Names of gates, and the gates that they mean.

ghost use Rattle.std.specs.Prelude.{◌≡◌, [], OnOk, OnErr, length, slice_get};
ghost use Rattle.qasm_expand.specs.Tables.{meaning, rebound};
ghost use Rattle.qasm_expand.specs.Library.{kept_or, with_all};
ghost use Rattle.qasm_expand.specs.Names.{kept_at};

use indexmap::IndexMap;
use std::alloc::{AllocError, Global};
use std::marker::Model;

/// Bound names, each once, in the order in which they were first bound, with the gate that each now means.
#[derive(Drop)]
pub struct Bounds {
    table: IndexMap<Vec<u8>, u32>,
}

impl Model for Bounds {
    ghost use Rattle.std.specs.Prelude.{List, map};
    ghost use Rattle.qasm_expand.specs.Tables.{Bound};
    ghost use Rattle.qasm_expand.specs.Maps.{bound_of};

    ghost Value = { List Bound };

    ghost view = { λ s. map bound_of s.table.entries };
}

impl Bounds {
    /// No name.
    pub fn new(alloc: Global) -> Bounds
        ensures { result ≡ [] }
    {
        Bounds {
            table: IndexMap::new(alloc),
        }
    }

    /// The gate that a name means, by its number.
    pub fn meaning(&self, name: &[u8]) -> Option<u32>
        ensures { result ≡ meaning self.now name.now }
    {
        self.table.get(name).copied()
    }

    /// Binds a name to a gate.
    pub(crate) fn rebind(&mut self, alloc: Global, name: &[u8], def: u32) -> Result<(), AllocError>
        ensures bound { OnOk result (self.new ≡ rebound self.old name.now def) }
    {
        self.table.insert(name.to_vec(alloc)?, def)?;
        Ok(())
    }

    /// How many names are bound.
    fn len(&self) -> usize
        ensures { result ≡ length self.now }
    {
        self.table.len()
    }

    /// Binds a name to a gate, unless it means one already.
    fn keep(&mut self, alloc: Global, name: &[u8], def: u32) -> Result<(), AllocError>
        ensures bound { OnOk result (self.new ≡ kept_or (meaning self.old name.now) self.old (record { name = name.now; def = def })) }
    {
        match self.meaning(name) {
            Some(_) => Ok(()),
            None => self.rebind(alloc, name, def),
        }
    }

    /// Binds the name at a place of others, unless it means a gate already.
    fn keep_at(&mut self, alloc: Global, others: &Bounds, at: usize) -> Result<(), AllocError>
        ensures bound { OnOk result (self.new ≡ kept_at (slice_get others.now at) self.old) }
    {
        match others.table.get_index(at) {
            Some((name, def)) => self.keep(alloc, name.as_slice(), *def),
            None => Ok(()),
        }
    }

    /// Binds the names of others, in their order, that mean no gate yet.
    pub(crate) fn keep_all(&mut self, alloc: Global, others: &Bounds) -> Result<(), AllocError>
        ensures bound { OnOk result (self.new ≡ with_all self.old others.now) }
    {
        for at in 0..others.len() {
            self.keep_at(alloc, others, at)?;
        }
        Ok(())
    }
}
