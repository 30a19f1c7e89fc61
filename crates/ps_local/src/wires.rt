//! A list of items that come out of it, and how far each qubit was looked for.

ghost use Rattle.std.specs.Prelude.{◌≡◌, ◌≢◌, ℕ, ◌<◌, ◌≤◌, Bool, true, false, List, length, get_or, set, map, replicate, bit_and, IfOk};
ghost use Rattle.std.specs.Int.{bit_at};
ghost use Rattle.ps_reach.specs.Runs.{prims_of};
ghost use Rattle.ps_local.specs.Wires.{IsClear, AreClear, AreInside, AreMasks, kept};

use super::qubits::{has, qubits_of};
use ps_prim::Item;
use std::alloc::{AllocError, Global};
use std::sync::Arc;

/// The qubits of a list of items, which of the items have come out, and for each of the 64 qubits a place
/// before which no item has it but those that have come out.
#[derive(Drop)]
pub struct Wires {
    pub qubits: Vec<u64>,
    pub out: Vec<bool>,
    pub next: Vec<usize>,
    pub ghost outs: { length out.items ≡ length qubits.items },
    pub ghost wires: { length next.items ≡ 64 },
    pub ghost inside: { AreInside qubits.items next.items },
    pub ghost clear: { AreClear qubits.items out.items next.items },
}

// The qubits of each item.
fn masks(alloc: Global, items: &[Arc<Item>]) -> Result<Vec<u64>, AllocError>
    ensures masks { IfOk result (λ v. AreMasks v.items (map prims_of items.now)) }
    ensures len { IfOk result (λ v. length v.items ≡ length items.now) }
{
    let mut masks = Vec::with_capacity(alloc, items.len())?;
    for item in items {
        masks.push(qubits_of(item))?;
    }
    Ok(masks)
}

impl Wires {
    /// The items, of which none has come out.
    pub fn new(alloc: Global, items: &[Arc<Item>]) -> Result<Wires, AllocError>
        ensures masks { IfOk result (λ w. AreMasks w.qubits.items (map prims_of items.now)) }
        ensures len { IfOk result (λ w. length w.qubits.items ≡ length items.now) }
        ensures none { IfOk result (λ w. w.out.items ≡ replicate (length items.now) false) }
    {
        let qubits = masks(alloc, items)?;
        let out = vec![in alloc; false; items.len()]?;
        let next = vec![in alloc; 0usize; 64]?;
        Ok(Wires { qubits, out, next })
    }

    // The place of the next item on a qubit, or the length of the list.
    fn next_on(&mut self, qubit: usize) -> usize
        requires { qubit < 64 }
        ensures qubits { self.new.qubits.items ≡ self.old.qubits.items }
        ensures out { self.new.out.items ≡ self.old.out.items }
        ensures inside { result ≤ length self.old.qubits.items }
        ensures clear { IsClear self.old.qubits.items self.old.out.items qubit result }
        ensures stands { result < length self.old.qubits.items → get_or self.old.out.items result true ≡ false }
        ensures on { result < length self.old.qubits.items → bit_at (get_or self.old.qubits.items result 0) qubit ≡ 1 }
    {
        let mut place = self.next[qubit];
        while place < self.qubits.len() && (self.out[place] || !has(self.qubits[place], qubit)) {
            place += 1;
        }
        self.next[qubit] = place;
        place
    }

    /// The place of the first item that has not come out and has a qubit of the mask, or the length of the
    /// list.
    pub fn first_of(&mut self, mask: u64) -> usize
        ensures qubits { self.new.qubits.items ≡ self.old.qubits.items }
        ensures out { self.new.out.items ≡ self.old.out.items }
        ensures inside { result ≤ length self.old.qubits.items }
        ensures before { (k : ℕ) → k < result → get_or self.old.out.items k true ≡ false → bit_and (get_or self.old.qubits.items k 0) mask ≡ 0 }
        ensures stands { result < length self.old.qubits.items → get_or self.old.out.items result true ≡ false }
        ensures meets { result < length self.old.qubits.items → bit_and (get_or self.old.qubits.items result 0) mask ≢ 0 }
    {
        let mut first = self.qubits.len();
        for qubit in 0..64 {
            if has(mask, qubit) {
                first = first.min(self.next_on(qubit));
            }
        }
        first
    }

    /// Takes the item at a place out.
    pub fn take(&mut self, place: usize)
        requires { place < length self.old.out.items }
        ensures qubits { self.new.qubits.items ≡ self.old.qubits.items }
        ensures out { self.new.out.items ≡ set self.old.out.items place true }
    {
        self.out[place] = true;
    }
}

/// The items that have not come out, in order, shared.
pub fn rest(alloc: Global, out: &[bool], items: &[Arc<Item>]) -> Result<Vec<Arc<Item>>, AllocError>
    requires { length out.now ≡ length items.now }
    ensures { IfOk result (λ v. map prims_of v.items ≡ kept out.now (map prims_of items.now)) }
{
    let mut list = Vec::new(alloc);
    for i in 0..items.len() {
        if !out[i] {
            list.push(Arc::try_clone(&items[i])?)?;
        }
    }
    Ok(list)
}
