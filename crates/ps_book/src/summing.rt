//! What settled versions come to, and how questions about one version end.
ghost use Rattle.std.specs.Prelude.{◌≡◌, ◌<◌, ◌≤◌, true, Some, IfOk};
ghost use Rattle.ps_versions.specs.Lookup.{root_of};
ghost use Rattle.ps_journal.specs.Summing.{ComesToAt, IsIdentity};
ghost use Rattle.ps_views.specs.Fields.{held_at};
ghost use Rattle.ps_views.specs.Pinned.{KeptAt, HasPinned};
ghost use Rattle.ps_journal.specs.State.{State};
ghost use Rattle.ps_views.specs.Stands.{Stands, Leaves};
ghost use Rattle.ps_book.specs.Services.{fields_of};
ghost use Rattle.ps_book.specs.Wanting.{SumsOr};
ghost use Rattle.ps_book.specs.Lightest.{is_settled_at};
ghost use Rattle.ps_book.specs.Conclusions.{ConcludesSum, ConcludesDone, TellsSum, IsDeciding};

use crate::judging::crowded_reply;
use crate::service::Service;
use crate::told::Told;
use ps_join::identity;
use ps_journal::{Outcome, Pin, Reply, Shared};
use ps_reach::{Body, Items, Moves, Record};
use ps_rules::Move;
use ps_script::Place;
use seg_tree::Node;
use std::alloc::{AllocError, Global};
use std::sync::Arc;

impl Service {
    /// Ends a question about the first version that a seat has pinned, by entry `number`.
    pub(crate) fn sum(&mut self, number: u32, seat: u32, outcome: &Outcome) -> Told
        requires { seat < 64 }
        ensures { (t : State) → Stands (fields_of self.old) t → Leaves (λ new. SumsOr t number seat outcome.now result.reply new) (fields_of self.new) }
    {
        match self.pins[seat as usize] {
            None => Told::plain(Reply::NoPin),
            Some(pin) => {
                let told = self.sum_told(&pin, outcome);
                self.release(number, seat);
                told
            }
        }
    }

    /// What a question under a pin is answered.
    fn sum_told(&self, pin: &Pin, outcome: &Outcome) -> Told
        requires { HasPinned (fields_of self.now) pin.now }
        ensures { ConcludesSum (fields_of self.now) pin.now outcome.now result.reply }
    {
        match outcome {
            Outcome::Judged { .. } => Told::plain(Reply::OtherRun),
            Outcome::Done => self.done_told(&pin.first),
            Outcome::Starved => Told::plain(Reply::Memory),
            Outcome::Crowded => Told::plain(crowded_reply(pin)),
        }
    }

    /// What a version comes to, if it is settled.
    fn done_told(&self, place: &Place) -> Told
        requires { KeptAt (fields_of self.now) place.now }
        ensures { ConcludesDone (fields_of self.now) place.now result.reply }
    {
        if !self.versions.settled(place) {
            return Told::plain(Reply::Unsettled(self.missing_of(place)));
        }
        match self.record_told(place) {
            Ok(told) => told,
            Err(_) => Told::plain(Reply::Memory),
        }
    }

    /// What a version, which is settled, comes to.
    fn record_told(&self, place: &Place) -> Result<Told, AllocError>
        requires kept { KeptAt (fields_of self.now) place.now }
        requires settled { is_settled_at self.now.versions place.now ≡ true }
        ensures { IfOk result (λ told. TellsSum (fields_of self.now) place.now told.reply) }
    {
        let record = self.whole_at(place)?;
        Told::shared(Reply::SumIs(Shared::of(record)))
    }

    /// The record that a version, which is settled, comes to.
    pub(crate) fn whole_at(&self, place: &Place) -> Result<Arc<Record>, AllocError>
        requires kept { KeptAt (fields_of self.now) place.now }
        requires settled { is_settled_at self.now.versions place.now ≡ true }
        ensures { IfOk result (λ a. (t : State) → Stands (fields_of self.now) t → ComesToAt t place.now a.value) }
    {
        match self.versions.root(place) {
            None => identity_record(self.alloc(), self.qubits_at(place)),
            Some(root) => self.record_of(self.deciding(place, root)),
        }
    }

    /// The segment whose record settles a version: its root, or the first at which a limit was passed.
    fn deciding(&self, place: &Place, root: Node) -> Node
        requires kept { KeptAt (fields_of self.now) place.now }
        requires settled { is_settled_at self.now.versions place.now ≡ true }
        requires root { root_of (held_at self.now.versions place.now) ≡ Some root }
        ensures { IsDeciding (fields_of self.now) place.now result }
    {
        // For the fact that all segments below one with a record have sums.
        let _ = self.versions.kept_at(root);
        match self.versions.first_passed(place) {
            None => root,
            Some(node) => node,
        }
    }
}

/// The record of no item on so many qubits.
fn identity_record(alloc: Global, n: u32) -> Result<Arc<Record>, AllocError>
    requires { (1 ≤ n) × (n ≤ 64) }
    ensures { IfOk result (λ a. IsIdentity n a.value) }
{
    let sum = Arc::new(alloc, identity(alloc, n)?)?;
    let items = Arc::new(alloc, Items::from_vec(Vec::new(alloc)))?;
    let mut moves = Vec::new(alloc);
    moves.push(Move::Id)?;
    let record = Record {
        n,
        items,
        moves: Moves::from_vec(moves),
        body: Body::Sum(sum),
    };
    Ok(Arc::new(alloc, record)?)
}
