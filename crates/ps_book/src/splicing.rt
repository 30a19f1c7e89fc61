//! How circuits get their next versions.
ghost use Rattle.std.specs.Prelude.{◌≡◌, ◌≤◌, ◌+◌, ◌-◌, true, map, vec_len, IfOk, OnErr};
ghost use Rattle.ps_reach.specs.Runs.{prims_of};
ghost use Rattle.ps_journal.specs.Plain.{is_plain};
ghost use Rattle.ps_journal.specs.State.{State};
ghost use Rattle.ps_views.specs.Stands.{Stands, Leaves};
ghost use Rattle.ps_book.specs.Services.{fields_of};
ghost use Rattle.ps_book.specs.Wanting.{SplicesOr};
ghost use Rattle.ps_book.specs.Numbers.{HasNumbers};
ghost use Rattle.ps_book.specs.Additions.{HasRange, AddsVersion, SplicesBlock, SplicesItems};

use crate::opening::{add_items, fault_reply, look_at, make_room};
use crate::service::Service;
use ps_journal::Reply;
use ps_prim::Item;
use ps_script::{Name, Place, Text};
use qasm_expand::items;
use std::alloc::AllocError;
use std::sync::Arc;

/// The range of items that is replaced, in a version with `len` of them.
#[derive(Clone, Copy)]
struct Range {
    from: u32,
    to: u32,
    len: u32,
}

impl Service {
    /// Makes the next version of a circuit, if its latest one is the base.
    pub(crate) fn splice(
        &mut self,
        name: Name,
        base: u32,
        from: u32,
        to: u32,
        block: &Text,
    ) -> Reply
        requires { HasNumbers (fields_of self.old) }
        ensures leaves { (t : State) → Stands (fields_of self.old) t → Leaves (λ new. SplicesOr t name base from to block.now result new) (fields_of self.new) }
        ensures plain { is_plain result ≡ true }
    {
        match self.versions.circuit_of(name) {
            None => Reply::NoCircuit,
            Some(about) => {
                if base != about.latest {
                    return Reply::Stale(about.latest);
                }
                let len = self.len_at(&Place {
                    name,
                    version: base,
                });
                if from > to || to > len {
                    return Reply::Span(len);
                }
                self.splice_block(name, Range { from, to, len }, block)
            }
        }
    }

    /// The same, where the range is in the latest version.
    fn splice_block(&mut self, name: Name, range: Range, block: &Text) -> Reply
        requires { HasRange (fields_of self.old) name range.from range.to range.len }
        ensures leaves { SplicesBlock (fields_of self.old) name range.from range.to block.now result (fields_of self.new) }
        ensures plain { is_plain result ≡ true }
    {
        match self.versions.place_of(&name) {
            None => unreachable!(),
            Some(index) => match items(self.alloc(), &self.tables[index], block.as_slice()) {
                Ok(items) => self.splice_items(name, range, items.into_vec()),
                Err(fault) => fault_reply(block.as_slice(), fault),
            },
        }
    }

    /// The same with the items of the block.
    fn splice_items(&mut self, name: Name, range: Range, items: Vec<Arc<Item>>) -> Reply
        requires range { HasRange (fields_of self.old) name range.from range.to range.len }
        requires few { vec_len items ≤ 65536 }
        ensures leaves { SplicesItems (fields_of self.old) name range.from range.to (map prims_of items.items) result (fields_of self.new) }
        ensures plain { is_plain result ≡ true }
    {
        let count = range.len - (range.to - range.from) + items.len() as u32;
        if count > 65_536 {
            return Reply::TooLong(count);
        }
        if range.from == range.to && items.is_empty() {
            return Reply::Nothing;
        }
        match self.add_version(name, range, items) {
            Ok(version) => Reply::Committed {
                version,
                missing: self.missing_of(&Place { name, version }),
            },
            Err(_) => Reply::Memory,
        }
    }

    /// One version more of a circuit, and its number.
    fn add_version(
        &mut self,
        name: Name,
        range: Range,
        items: Vec<Arc<Item>>,
    ) -> Result<u32, AllocError>
        requires range { HasRange (fields_of self.old) name range.from range.to range.len }
        requires few { vec_len items ≤ 65536 }
        requires fits { range.len - (range.to - range.from) + vec_len items ≤ 65536 }
        ensures added { IfOk result (λ number. AddsVersion (fields_of self.old) name range.from range.to (map prims_of items.items) number (fields_of self.new)) }
        ensures err { OnErr result (fields_of self.new ≡ fields_of self.old) }
    {
        let numbers = make_room(self.alloc(), &mut self.items, items.len())?;
        let version = self.versions.splice(name, range.from, range.to, &numbers)?;
        look_at(&self.versions, &Place { name, version });
        add_items(&mut self.items, items);
        Ok(version)
    }
}
