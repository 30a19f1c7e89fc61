//! How questions about two versions end.
ghost use Rattle.std.specs.Prelude.{◌≡◌, ◌<◌, true, false, None, IfOk};
ghost use Rattle.ps_journal.specs.declared.commands.Outcome.TheVariants.{Crowded};
ghost use Rattle.ps_journal.specs.declared.replies.Reply.TheVariants.{Answered};
ghost use Rattle.ps_journal.specs.Plain.{is_plain};
ghost use Rattle.ps_journal.specs.Summing.{GivesUp};
ghost use Rattle.ps_journal.specs.State.{State};
ghost use Rattle.ps_views.specs.Stands.{Stands, Leaves};
ghost use Rattle.ps_book.specs.Services.{fields_of};
ghost use Rattle.ps_book.specs.Wanting.{AnswersOr};
ghost use Rattle.ps_views.specs.Pinned.{KeptAt, HasPinned};
ghost use Rattle.ps_book.specs.Conclusions.{counted, Fits, Concludes, TellsOne, TellsPair};

use crate::service::{MOST_TERMS, Service};
use crate::told::Told;
use ps_journal::{Outcome, Pin, Reply, Shared};
use ps_reach::{Judged, Record};
use ps_script::Place;
use ps_views::is_passed;
use std::alloc::AllocError;
use std::sync::Arc;

impl Service {
    /// Ends a question about the two versions that a seat has pinned, by entry `number`.
    pub(crate) fn answer(&mut self, number: u32, seat: u32, outcome: &Outcome) -> Told
        requires { seat < 64 }
        ensures { (t : State) → Stands (fields_of self.old) t → Leaves (λ new. AnswersOr t number seat outcome.now result.reply new) (fields_of self.new) }
    {
        match self.pins[seat as usize] {
            None => Told::plain(Reply::NoPin),
            Some(pin) => {
                let told = self.answer_told(&pin, outcome);
                self.release(number, seat);
                self.count_answered(&told.reply);
                told
            }
        }
    }

    /// What a question under a pin is answered.
    fn answer_told(&self, pin: &Pin, outcome: &Outcome) -> Told
        requires { HasPinned (fields_of self.now) pin.now }
        ensures { Concludes (fields_of self.now) pin.now outcome.now result.reply }
    {
        match outcome {
            Outcome::Judged { judged, proof } => self.judged_told(pin, judged, *proof),
            Outcome::Done => Told::plain(Reply::OtherRun),
            Outcome::Starved => Told::plain(Reply::Memory),
            Outcome::Crowded => Told::plain(crowded_reply(pin)),
        }
    }

    /// What a comparison of two records under a pin is answered.
    fn judged_told(&self, pin: &Pin, judged: &Arc<Judged>, proof: bool) -> Told
        requires { HasPinned (fields_of self.now) pin.now }
        ensures { Concludes (fields_of self.now) pin.now (Outcome.Judged judged.now proof) result.reply }
    {
        if !self.are_pinned(pin, judged) {
            return Told::plain(Reply::OtherRun);
        }
        let total = self.terms + judged.size();
        if total > MOST_TERMS {
            return Told::plain(Reply::NoRoom(total));
        }
        match verdict_told(judged, proof) {
            Ok(told) => told,
            Err(_) => Told::plain(Reply::Memory),
        }
    }

    /// Whether both records belong to the versions that a pin names, each in its place.
    fn are_pinned(&self, pin: &Pin, judged: &Judged) -> bool
        requires { HasPinned (fields_of self.now) pin.now }
        ensures one_alone { pin.now.second ≡ None → result ≡ false }
        ensures both { TellsPair (fields_of self.now) pin.now judged.now result }
    {
        match &pin.second {
            None => false,
            Some(second) => {
                self.belongs(&pin.first, &judged.first) && self.belongs(second, &judged.second)
            }
        }
    }

    /// Whether a record is of all items of a version, which exists; or tells of a limit that was passed at one of its
    /// segments.
    fn belongs(&self, place: &Place, record: &Record) -> bool
        requires { KeptAt (fields_of self.now) place.now }
        ensures { TellsOne (fields_of self.now) place.now «record».now result }
    {
        if record.n != self.qubits_at(place) {
            return false;
        }
        let items = record.items.as_slice();
        match self.versions.root(place) {
            None => items.is_empty(),
            Some(root) => {
                self.is_run(root, items) || (is_passed(record) && self.has_run(root, items))
            }
        }
    }

    /// The terms of a verdict that was told are kept.
    fn count_answered(&mut self, reply: &Reply)
        requires { Fits self.old.terms reply.now }
        ensures { (t : State) → Stands (fields_of self.old) t → Stands (fields_of self.new) (counted reply.now t) }
    {
        match reply {
            Reply::Answered { judged, .. } => self.terms += judged.get().size(),
            _ => (),
        }
    }
}

/// A verdict as it is told.
fn verdict_told(judged: &Arc<Judged>, proof: bool) -> Result<Told, AllocError>
    ensures { IfOk result (λ told. told.reply ≡ Answered judged.now.value proof) }
{
    let judged = Shared::of(Arc::try_clone(judged)?);
    Told::shared(Reply::Answered { judged, proof })
}

/// The total that was refused under a pin.
pub(crate) fn crowded_reply(pin: &Pin) -> Reply
    ensures told { GivesUp pin.now Crowded result }
    ensures plain { is_plain result ≡ true }
{
    match pin.refused {
        Some(total) => Reply::NoRoom(total),
        None => Reply::NotCrowded,
    }
}
