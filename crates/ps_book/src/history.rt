//! How a book begins, and what its journal tells.
ghost use Rattle.std.specs.Prelude.{◌≡◌, [], IfOk};
ghost use Rattle.ps_journal.specs.State.{State};
ghost use Rattle.ps_journal.specs.History.{LeadsTo, IsLegal};
ghost use Rattle.ps_history.specs.Commits.{CommitsWithin};
ghost use Rattle.ps_book.specs.Books.{entries, Misses};

use crate::book::Book;
use crate::service::Service;
use ps_journal::Entry;
use ps_script::{Name, Place};
use std::alloc::{AllocError, Global};

/// How many entries a journal holds.
const MOST_ENTRIES: usize = 262_144;

impl Book {
    /// A service with no circuit, and an empty journal with all the room that it will have.
    pub fn new(alloc: Global) -> Result<Book, AllocError>
        ensures { IfOk result (λ b. entries b ≡ []) }
    {
        let journal = Vec::with_capacity(alloc, MOST_ENTRIES)?;
        Ok(Book {
            service: Service::new(alloc),
            journal,
        })
    }

    /// The entries so far, the oldest first. They are a legal history, in which each committed splice left few segments
    /// without a record: at most those of its base, 64 for each level of its trees and 2 for each item. Takes no memory.
    pub fn journal(&self) -> &[Entry]
        ensures value { result.now ≡ entries self.now }
        ensures legal { IsLegal result.now }
        ensures bounded { CommitsWithin result.now }
    {
        &self.journal
    }

    /// The entries, the oldest first. They are a legal history, in which each committed splice left few segments without
    /// a record, as [`Book::journal`] says. Takes no memory.
    pub fn into_journal(self) -> Vec<Entry>
        ensures value { result.items ≡ entries self }
        ensures legal { IsLegal result.items }
        ensures bounded { CommitsWithin result.items }
    {
        self.journal
    }

    /// How many segments of a version have no record, or None exactly where there is no such version. Of a version that
    /// is not kept it is at most the number of its segments. Takes no memory.
    pub fn missing(&self, name: Name, version: u32) -> Option<u32>
        ensures { (t : State) → LeadsTo (entries self.now) t → Misses t name version result }
    {
        self.service.versions.missing(&Place { name, version })
    }
}
