//! How circuits are opened, and what a fault of a text is told as.
ghost use Rattle.std.specs.Prelude.{ℕ, ◌≡◌, ◌<◌, ◌≤◌, ◌+◌, ◌++◌, true, length, Some, None, IsSome, IfOk, OnOk, OnErr, vec_len, vec_capacity};
ghost use Rattle.std.specs.List.{range_with_len};
ghost use Rattle.qasm_expand.specs.Reading.{circuit_in};
ghost use Rattle.ps_versions.specs.Lookup.{circuit_at, root_of};
ghost use Rattle.ps_versions.specs.Questions.{missing};
ghost use Rattle.ps_journal.specs.Plain.{is_plain};
ghost use Rattle.ps_journal.specs.State.{State};
ghost use Rattle.ps_views.specs.Older.{IsForest};
ghost use Rattle.ps_views.specs.Fields.{held_at};
ghost use Rattle.ps_views.specs.Stands.{Stands, Leaves};
ghost use Rattle.ps_book.specs.Services.{fields_of};
ghost use Rattle.ps_book.specs.Wanting.{OpensOr};
ghost use Rattle.ps_book.specs.Additions.{TellsFault, AddsCircuit, OpensRead};

use crate::service::Service;
use ps_journal::Reply;
use ps_prim::Item;
use ps_script::{Name, Place, Text};
use ps_versions::Versions;
use ps_views::Filed;
use qasm_expand::{Circuit, ReadFault, circuit};
use qasm_lex::place;
use std::alloc::{AllocError, Global};
use std::sync::Arc;

impl Service {
    /// Opens a circuit, by entry `number`.
    pub(crate) fn open(&mut self, number: u32, name: Name, text: &Text) -> Reply
        ensures leaves { (t : State) → Stands (fields_of self.old) t → Leaves (λ new. OpensOr t number name text.now result new) (fields_of self.new) }
        ensures plain { is_plain result ≡ true }
    {
        match self.versions.circuit_of(name) {
            Some(about) => Reply::NameTaken(about.opened),
            None => {
                if self.versions.count() >= 256 {
                    return Reply::CircuitsFull;
                }
                match circuit(self.alloc(), text.as_slice()) {
                    Ok(circuit) => self.open_read(number, name, circuit),
                    Err(fault) => fault_reply(text.as_slice(), fault),
                }
            }
        }
    }

    /// Opens a circuit that was read. Its name is new, and fewer than 256 are there.
    fn open_read(&mut self, number: u32, name: Name, circuit: Circuit) -> Reply
        requires new { circuit_at self.old.versions.circuits name ≡ None }
        requires few { length self.old.versions.circuits < 256 }
        ensures leaves { (t : State) → Stands (fields_of self.old) t → Leaves (λ new. OpensRead t number name (circuit_in circuit) result new) (fields_of self.new) }
        ensures plain { is_plain result ≡ true }
    {
        match self.add_circuit(number, name, circuit) {
            Ok(()) => {
                let missing = self.missing_of(&Place { name, version: 1 });
                Reply::Opened { missing }
            }
            Err(_) => Reply::Memory,
        }
    }

    /// One circuit more.
    fn add_circuit(&mut self, number: u32, name: Name, circuit: Circuit) -> Result<(), AllocError>
        requires new { circuit_at self.old.versions.circuits name ≡ None }
        requires few { length self.old.versions.circuits < 256 }
        ensures added { OnOk result (AddsCircuit (fields_of self.old) name (circuit_in circuit) number (fields_of self.new)) }
        ensures err { OnErr result (fields_of self.new ≡ fields_of self.old) }
    {
        let Circuit {
            qubits,
            table,
            items,
        } = circuit;
        let items = items.into_vec();
        let numbers = make_room(self.alloc(), &mut self.items, items.len())?;
        self.tables.reserve(1)?;
        self.versions.open(name, qubits, &numbers, number)?;
        look_at(&self.versions, &Place { name, version: 1 });
        self.tables.push_reserved(table);
        add_items(&mut self.items, items);
        Ok(())
    }

    /// How many segments of a version, which exists, have no record.
    pub(crate) fn missing_of(&self, place: &Place) -> u32
        requires { IsSome (held_at self.now.versions place.now) }
        ensures { Some result ≡ missing self.now.versions (held_at self.now.versions place.now) }
    {
        match self.versions.missing(place) {
            Some(missing) => missing,
            None => unreachable!(),
        }
    }
}

/// Looks at the nodes of a version, which exists: each is made of older ones. It is called for that fact alone.
pub(crate) fn look_at(versions: &Versions<Filed>, place: &Place)
    requires { IsSome (held_at versions.now place.now) }
    ensures { (root : ℕ) → root_of (held_at versions.now place.now) ≡ Some root → IsForest versions.now.nodes }
{
    match versions.root(place) {
        None => (),
        Some(root) => {
            let _ = versions.nodes().height(root);
        }
    }
}

/// Room for so many items more, and their numbers.
pub(crate) fn make_room(
    alloc: Global,
    items: &mut Vec<Arc<Item>>,
    more: usize,
) -> Result<Vec<u64>, AllocError>
    ensures items { items.new.items ≡ items.old.items }
    ensures room { OnOk result (vec_len items.new + more ≤ vec_capacity items.new) }
    ensures numbers { IfOk result (λ v. v.items ≡ range_with_len (vec_len items.old) more) }
{
    items.reserve(more)?;
    let first = items.len();
    let mut numbers = Vec::with_capacity(alloc, more)?;
    for number in first..first + more {
        numbers.push_reserved(number as u64);
    }
    Ok(numbers)
}

/// More items, for which there is room.
pub(crate) fn add_items(items: &mut Vec<Arc<Item>>, more: Vec<Arc<Item>>)
    requires { vec_len items.old + vec_len more ≤ vec_capacity items.old }
    ensures { items.new.items ≡ items.old.items ++ more.items }
{
    let mut more = more;
    match items.append(&mut more) {
        Ok(()) => (),
        Err(_) => unreachable!(),
    }
}

/// What the first fault of a text or a block is told as.
pub(crate) fn fault_reply(bytes: &[u8], fault: ReadFault) -> Reply
    requires { length bytes.now ≤ 16777216 }
    ensures told { TellsFault bytes.now fault result }
    ensures plain { is_plain result ≡ true }
{
    match fault {
        ReadFault::Fault { name, offset } => {
            let (line, column) = place(bytes, (offset as usize).min(bytes.len()) as u32);
            Reply::Bad { name, line, column }
        }
        ReadFault::Memory => Reply::Memory,
    }
}
