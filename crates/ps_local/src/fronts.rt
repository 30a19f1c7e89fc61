//! The front that two lists of items have in common up to exchanging neighbours without a common qubit.

ghost use Rattle.std.specs.Prelude.{◌≡◌, ◌≤◌, ℕ, List, length, map, IfOk};
ghost use Rattle.ps_prim.specs.declared.prims.Primitive.{Primitive as Prim};
ghost use Rattle.ps_reach.specs.Runs.{prims_of, run_of};
ghost use Rattle.ps_local.specs.Qubits.{IsMask};
ghost use Rattle.ps_local.specs.Wires.{AreMasks, kept};
ghost use Rattle.ps_local.specs.Exchanges.{Comes, IsSplit};

use super::equality::same_item;
use super::qubits::qubits_of;
use super::wires::{Wires, rest};
use ps_prim::Item;
use std::alloc::{AllocError, Global};
use std::sync::Arc;

/// What two lists of items come to where their front is taken off.
#[derive(Drop)]
pub struct Split {
    /// How many items the front has.
    pub count: usize,
    /// The items of the first list that stay, in order.
    pub first: Vec<Arc<Item>>,
    /// The items of the second list that stay, in order.
    pub second: Vec<Arc<Item>>,
}

// Whether the item is next on all its qubits in both lists; then it comes out of the second. The blocked
// qubits are those of the items that stay before it in the first.
fn comes(wires: &mut Wires, second: &[Arc<Item>], item: &Item, mask: u64, blocked: u64) -> bool
    requires masks { AreMasks wires.old.qubits.items (map prims_of second.now) }
    requires len { length wires.old.qubits.items ≡ length second.now }
    requires mask { IsMask mask item.now.prims }
    ensures qubits { wires.new.qubits.items ≡ wires.old.qubits.items }
    ensures comes { (stays : List (List Prim)) → IsMask blocked (run_of stays) → Comes result stays item.now.prims (kept wires.old.out.items (map prims_of second.now)) (kept wires.new.out.items (map prims_of second.now)) }
{
    if mask == 0 {
        return false;
    }
    if mask & blocked != 0 {
        return false;
    }
    let place = wires.first_of(mask);
    if place == second.len() {
        return false;
    }
    if !same_item(&second[place], item) {
        return false;
    }
    wires.take(place);
    true
}

/// Takes off the front that two lists of items have in common, where neighbours without a common qubit may
/// stand in either order.
pub fn split_front(
    alloc: Global,
    first: &[Arc<Item>],
    second: &[Arc<Item>],
) -> Result<Split, AllocError>
    ensures few { IfOk result (λ s. s.count ≤ length first.now) }
    ensures split { IfOk result (λ s. IsSplit (map prims_of first.now) (map prims_of second.now) s.count (map prims_of s.first.items) (map prims_of s.second.items)) }
{
    let mut wires = Wires::new(alloc, second)?;
    let mut stays = Vec::new(alloc);
    let mut blocked = 0;
    let mut count = 0;
    for item in first {
        let mask = qubits_of(item);
        if comes(&mut wires, second, item, mask, blocked) {
            count += 1;
        } else {
            blocked |= mask;
            stays.push(Arc::try_clone(item)?)?;
        }
    }
    let second = rest(alloc, &wires.out, second)?;
    Ok(Split {
        count,
        first: stays,
        second,
    })
}
