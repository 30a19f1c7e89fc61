//! Registers by name.

ghost use Rattle.std.specs.Prelude.{◌≡◌, ◌+◌, ◌≤◌, ◌++◌, ◌∷◌, [], true, None, option_map, OnOk, if◌then◌else◌};
ghost use Rattle.qasm_expand.specs.Tables.{Register, register_of, qubit_count};
ghost use Rattle.qasm_expand.specs.Maps.{extent_of};

use indexmap::IndexMap;
use std::alloc::{AllocError, Global};
use std::marker::Model;

/// The places of a register. A classical one has no qubits, and its first is 0.
#[derive(Clone, Copy, Debug, PartialEq, Eq)]
pub struct Extent {
    /// Whether it is a quantum register.
    pub quantum: bool,
    /// Its first qubit.
    pub first: u32,
    /// How many places it has.
    pub size: u32,
}

impl Extent {
    /// How many qubits it has.
    pub fn qubits(&self) -> u32
        ensures { result ≡ (if self.now.quantum then self.now.size else 0) }
    {
        if self.quantum { self.size } else { 0 }
    }
}

/// Registers by name, in order of declaration.
#[derive(Drop)]
pub struct Registers {
    table: IndexMap<Vec<u8>, Extent>,
    // How many qubits they have.
    qubits: u32,
}

impl Model for Registers {
    ghost use Rattle.std.specs.Prelude.{◌≡◌, List, map};
    ghost use Rattle.qasm_expand.specs.Tables.{Register, qubit_count};
    ghost use Rattle.qasm_expand.specs.Maps.{register_with};

    ghost Value = { List Register };

    ghost view = { λ s. map register_with s.table.entries };

    ghost invariant = { λ s. s.qubits ≡ qubit_count (map register_with s.table.entries) };
}

impl Registers {
    /// No register.
    pub fn new(alloc: Global) -> Registers
        ensures { result ≡ [] }
    {
        Registers {
            table: IndexMap::new(alloc),
            qubits: 0,
        }
    }

    /// How many qubits they have. Counts none again.
    pub fn qubits(&self) -> u32
        ensures { result ≡ qubit_count self.now }
    {
        self.qubits
    }

    /// The places of the register of a name.
    pub fn get(&self, name: &[u8]) -> Option<Extent>
        ensures { result ≡ option_map extent_of (register_of self.now name.now) }
    {
        self.table.get(name).copied()
    }

    /// Declares a register whose name is new. There are at most 64 qubits with those of a quantum register.
    pub(crate) fn push(
        &mut self,
        alloc: Global,
        name: &[u8],
        extent: Extent,
    ) -> Result<(), AllocError>
        requires new { register_of self.old name.now ≡ None }
        requires few { extent.quantum ≡ true → qubit_count self.old + extent.size ≤ 64 }
        ensures { OnOk result (self.new ≡ self.old ++ record { name = name.now; quantum = extent.quantum; first = extent.first; size = extent.size } ∷ []) }
    {
        self.table.insert(name.to_vec(alloc)?, extent)?;
        self.qubits += extent.qubits();
        Ok(())
    }
}
