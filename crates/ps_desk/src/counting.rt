//! The least that a desk can serve.
ghost use Rattle.std.specs.Prelude.{◌≡◌, ℕ, ◌+◌, ◌-◌, ◌<◌, ◌≤◌, List, [], ◌∷◌, ◌++◌, refl, IfOk, vec_len, vec_capacity};
ghost use Rattle.ps_desk.specs.Counting.{IsCounted};

use crate::entry::Entry;
use crate::object::Object;
use std::alloc::{AllocError, Global};

/// An object that counts: each command, whatever it is, is told how many came before it.
#[derive(Drop)]
pub struct Counting {
    journal: Vec<Entry<u64, u64>>,
}

impl Counting {
    /// One with no entry, and with room for so many.
    pub fn new(alloc: Global, room: usize) -> Result<Counting, AllocError>
        ensures { IfOk result (λ c. (c.journal.items ≡ []) × (room ≤ vec_capacity c.journal)) }
    {
        let journal = Vec::with_capacity(alloc, room)?;
        Ok(Counting { journal })
    }

    /// Its entries, the oldest first.
    pub fn journal(&self) -> &[Entry<u64, u64>]
        ensures { result.now ≡ self.now.journal.items }
    {
        self.journal.as_slice()
    }
}

#[tactic(auto, using(crate::proofs::CountLemmas::is_counted_append))]
impl Object for Counting {
    type Cmd = u64;

    type Reply = u64;

    ghost journal = { λ c. c.journal.items };

    ghost spare = { λ c. vec_capacity c.journal - vec_len c.journal };

    ghost legal = { IsCounted };

    fn apply(&mut self, seat: u32, cmd: u64) -> u64 {
        let reply = self.journal.len() as u64;
        self.journal.push_reserved(Entry { seat, cmd, reply });
        reply
    }

    ghost empty_is_legal = { refl };
}
