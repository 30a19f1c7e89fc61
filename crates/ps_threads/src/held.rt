//! A book that is handed from turn to turn without being copied.

use ps_book::Book;
use ps_desk::Object;
use ps_journal::{Cmd, Reply};

/// A book in a place of its own: what a desk hands on is where it stands.
#[derive(Drop)]
pub struct Held {
    pub book: Box<Book>,
}

impl Object for Held {
    ghost use Rattle.ps_journal.specs.History.{IsLegal, nothing_is_legal};
    ghost use Rattle.ps_book.specs.Books.{entries, room_left};

    type Cmd = Cmd;

    type Reply = Reply;

    ghost journal = { λ h. entries h.book.value };

    ghost spare = { λ h. room_left h.book.value };

    ghost legal = { IsLegal };

    fn apply(&mut self, seat: u32, cmd: Cmd) -> Reply {
        self.book.apply(seat, cmd)
    }

    ghost empty_is_legal = { nothing_is_legal };
}
