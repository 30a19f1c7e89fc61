//! The qubits of items, a bit for each.

ghost use Rattle.std.specs.Prelude.{◌≡◌, ◌<◌, ◌↔◌, IsTrue};
ghost use Rattle.std.specs.Int.{bit_at};
ghost use Rattle.ps_prim.specs.Maps.{IsWithin};
ghost use Rattle.ps_local.specs.Qubits.{IsMask, IsOneMore};

use ps_prim::{Item, Prim};

// The mask with the qubits of the prim.
fn with_prim(mask: u64, prim: &Prim) -> u64
    requires { IsWithin 64 prim.now }
    ensures { IsOneMore mask prim.now result }
{
    match *prim {
        Prim::U { q, .. } => mask | 1 << q,
        Prim::Cx { c, t } => mask | 1 << c | 1 << t,
    }
}

/// The qubits of an item.
pub fn qubits_of(item: &Item) -> u64
    ensures { IsMask result item.now.prims }
{
    let mut mask = 0;
    for prim in item.prims.as_slice() {
        mask = with_prim(mask, prim);
    }
    mask
}

/// Whether a qubit is one of the mask.
pub fn has(mask: u64, qubit: usize) -> bool
    requires { qubit < 64 }
    ensures { IsTrue result ↔ (bit_at mask qubit ≡ 1) }
{
    mask >> qubit & 1 == 1
}
