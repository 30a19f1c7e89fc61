//! A seat that takes turns at a book by itself.
ghost use Rattle.std.specs.Prelude.{◌≡◌, ℕ, ◌<◌, ◌≤◌, length, Some};
ghost use Rattle.ps_book.specs.Books.{entries};

use ps_book::Book;
use ps_calls::Turns;
use ps_desk::{Full, Object};
use ps_journal::{Cmd, Reply};

/// How many entries a journal holds.
const MOST_ENTRIES: usize = 262_144;

/// The ticket that is refused: as many turns were taken before it.
const REFUSED: u64 = 262_144;

/// A seat at a book that is lent to it, at which nobody else takes turns meanwhile. A turn is refused exactly where the
/// journal has 262,144 entries.
#[derive(Drop)]
pub struct Alone<'a> {
    pub book: &'a mut Book,
    pub number: u32,
    /// The ticket that was refused.
    pub refused: Option<u64>,
    pub ghost below: { number < 64 },
    // a ticket is refused only where the journal is full
    pub ghost late: { (t : ℕ) → refused ≡ Some t → (t ≡ 262144) × (262144 ≤ length (entries book.now)) },
}

impl<'a> Turns for Alone<'a> {
    ghost use Rattle.std.specs.Prelude.{true, None};
    ghost use Rattle.ps_calls.specs.Turns.{lent};

    ghost view = { λ a. record {
      number = a.number;
      over = lent a.book.ghost_name;
      alone = true;
      rest = None;
      seen = entries a.book.now;
      refused = a.refused;
    } };

    fn number(&self) -> u32 {
        self.number
    }

    fn turn(&mut self, cmd: Cmd) -> Result<Reply, Full> {
        // The journal is legal, and so is the one with the next entry.
        if self.book.journal().len() >= MOST_ENTRIES {
            self.refused = Some(REFUSED);
            return Err(Full { ticket: REFUSED });
        }
        Ok(self.book.apply(self.number, cmd))
    }
}
