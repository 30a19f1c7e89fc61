//! One turn of the service.
ghost use Rattle.std.specs.Prelude.{◌≡◌, ◌<◌};
ghost use Rattle.ps_journal.specs.State.{State};
ghost use Rattle.ps_journal.specs.Step.{Step};
ghost use Rattle.ps_views.specs.Stands.{Stands, Leaves};
ghost use Rattle.ps_book.specs.Services.{fields_of};
ghost use Rattle.ps_book.specs.Numbers.{HasNumbers};

use crate::book::Book;
use crate::service::Service;
use crate::told::Told;
use ps_desk::Object;
use ps_journal::{Cmd, Entry, Reply};
use ps_script::Place;

impl Service {
    /// Does one command of a seat, as entry `number`.
    fn serve(&mut self, number: u32, seat: u32, cmd: &Cmd) -> Told
        requires near { seat < 64 }
        requires few { HasNumbers (fields_of self.old) }
        ensures { (t : State) → Stands (fields_of self.old) t → Leaves (λ new. Step t number seat cmd.now result.reply new) (fields_of self.new) }
    {
        match cmd {
            Cmd::Open { name, text } => Told::plain(self.open(number, *name, text)),
            Cmd::Splice {
                name,
                base,
                from,
                to,
                block,
            } => Told::plain(self.splice(*name, *base, *from, *to, block)),
            Cmd::Retire { name, version } => Told::plain(self.retire(
                number,
                &Place {
                    name: *name,
                    version: *version,
                },
            )),
            Cmd::Pin { first, second } => Told::plain(self.pin(number, seat, *first, *second)),
            Cmd::Next { pinned } => self.next(number, seat, *pinned),
            Cmd::Publish { kept } => Told::plain(self.publish(number, seat, kept)),
            Cmd::Answer { outcome } => self.answer(number, seat, outcome),
            Cmd::Read { place } => self.read(place),
            Cmd::Sum { outcome } => self.sum(number, seat, outcome),
        }
    }
}

impl Object for Book {
    ghost use Rattle.ps_journal.specs.History.{IsLegal, nothing_is_legal};
    ghost use Rattle.ps_book.specs.Books.{entries, room_left};

    type Cmd = Cmd;

    type Reply = Reply;

    ghost journal = { entries };

    ghost spare = { room_left };

    ghost legal = { IsLegal };

    fn apply(&mut self, seat: u32, cmd: Cmd) -> Reply {
        let number = self.journal.len() as u32;
        let Told { reply, copy } = self.service.serve(number, seat, &cmd);
        self.journal.push_reserved(Entry {
            seat,
            cmd,
            reply: copy,
        });
        reply
    }

    ghost empty_is_legal = { nothing_is_legal };
}
