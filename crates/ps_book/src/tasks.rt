//! Which segment a seat computes next.
ghost use Rattle.std.specs.Prelude.{ℕ, ◌≡◌, ◌<◌, ◌&&◌, true, length, Some, None, is_none, IsSome, IfSome, IfOk};
ghost use Rattle.seg_tree.specs.Table.{tree};
ghost use Rattle.ps_versions.specs.Held.{Circuit};
ghost use Rattle.ps_versions.specs.Lookup.{circuit_at};
ghost use Rattle.ps_versions.specs.Records.{record_at};
ghost use Rattle.ps_versions.specs.Questions.{is_ready};
ghost use Rattle.ps_versions.specs.Choices.{lightest};
ghost use Rattle.ps_views.specs.Fields.{held_at, passed};
ghost use Rattle.ps_views.specs.Pinned.{KeptAt, HasPinned};
ghost use Rattle.ps_views.specs.OpenWhere.{open_pinned, AreSettledAt};
ghost use Rattle.ps_views.specs.Readiness.{IsReadyAt};
ghost use Rattle.ps_views.specs.Tasks.{unclaims, Gives, IsWorkAt, TellsTask, SecondComesIn, TellsBoth, SettlesIn};
ghost use Rattle.ps_script.specs.declared.name.Place.{Place};
ghost use Rattle.ps_journal.specs.Claiming.{claims_node};
ghost use Rattle.ps_views.specs.declared.filed.Filed.{Filed};
ghost use Rattle.ps_journal.specs.State.{State, unclaimed};
ghost use Rattle.ps_views.specs.Stands.{Stands, Leaves};
ghost use Rattle.ps_book.specs.Services.{fields_of};
ghost use Rattle.ps_book.specs.Wanting.{NextsOr};
ghost use Rattle.ps_book.specs.Counts.{claims_of};
ghost use Rattle.ps_book.specs.Lightest.{lightest_of, is_settled_at};

use crate::claims::Claims;
use crate::service::Service;
use crate::told::Told;
use ps_journal::{Claim, Pin, Reply, Shared};
use ps_reach::{Record, Task, Work};
use ps_script::Place;
use ps_versions::{Ready, Weights};
use seg_tree::{Node, Seen};
use std::alloc::AllocError;
use std::sync::Arc;

impl Service {
    /// Gives a segment to a seat, as entry `number`, or tells that none is left. The old claim ends first.
    pub(crate) fn next(&mut self, number: u32, seat: u32, pinned: bool) -> Told
        requires { seat < 64 }
        ensures { (t : State) → Stands (fields_of self.old) t → Leaves (λ new. NextsOr t number seat pinned result.reply new) (fields_of self.new) }
    {
        self.unclaim(seat);
        if pinned {
            self.next_pinned(number, seat)
        } else {
            match self.versions.lightest(&self.claims) {
                None => Told::plain(Reply::Idle),
                Some(ready) => self.give(number, seat, ready),
            }
        }
    }

    /// The same of the versions that the seat has pinned.
    fn next_pinned(&mut self, number: u32, seat: u32) -> Told
        requires { seat < 64 }
        ensures { (t : State) → Stands (fields_of self.old) (unclaimed seat t) → Leaves (λ new. NextsOr t number seat true result.reply new) (fields_of self.new) }
    {
        match self.pins[seat as usize] {
            None => Told::plain(Reply::NoPin),
            Some(pin) => match self.lightest_of(&pin) {
                None => self.settled_reply(&pin),
                Some(ready) => self.give(number, seat, ready),
            },
        }
    }

    /// The first ready segment with the fewest claims, of the versions that a pin names.
    fn lightest_of(&self, pin: &Pin) -> Option<Ready>
        requires { HasPinned (fields_of self.now) pin.now }
        ensures value { result ≡ lightest (claims_of self.now.claims) (open_pinned self.now.versions pin.now) }
        ensures ready { IfSome result (IsReadyAt (fields_of self.now)) }
        ensures settled { result ≡ None → AreSettledAt (fields_of self.now) pin.now }
    {
        match &pin.second {
            None => self.versions.lightest_at(&pin.first, &self.claims, None),
            Some(second) => {
                if self.versions.comes_before(second, &pin.first) {
                    self.lightest_of_two(second, &pin.first)
                } else {
                    self.lightest_of_two(&pin.first, second)
                }
            }
        }
    }

    /// The same of two versions, in this order.
    fn lightest_of_two(&self, first: &Place, second: &Place) -> Option<Ready>
        requires first { IsSome (held_at self.now.versions first.now) }
        requires second { IsSome (held_at self.now.versions second.now) }
        ensures value { result ≡ lightest_of self.now.claims self.now.versions first.now second.now }
        ensures none { is_none result ≡ (is_settled_at self.now.versions first.now && is_settled_at self.now.versions second.now) }
    {
        let best = self.versions.lightest_at(first, &self.claims, None);
        self.versions.lightest_at(second, &self.claims, best)
    }

    /// Gives a ready segment to a seat.
    fn give(&mut self, number: u32, seat: u32, ready: Ready) -> Told
        requires near { seat < 64 }
        requires there { IsReadyAt (fields_of self.old) ready }
        ensures { Gives (fields_of self.old) number seat ready result.reply (fields_of self.new) }
    {
        match self.task_told(number, seat, &ready) {
            Err(_) => Told::plain(Reply::Memory),
            Ok(told) => {
                self.claims.seats[seat as usize] = Some(Claim {
                    place: ready.place,
                    node: ready.node,
                    entry: number,
                });
                told
            }
        }
    }

    /// What computes a ready segment.
    fn task_told(&self, number: u32, seat: u32, ready: &Ready) -> Result<Told, AllocError>
        requires { IsReadyAt (fields_of self.now) ready.now }
        ensures { IfOk result (λ told. TellsTask (fields_of self.now) number seat ready.now told.reply) }
    {
        let work = self.work(ready.node)?;
        let task = Task {
            seat,
            claim: number,
            n: self.qubits_at(&ready.place),
            work,
        };
        Told::shared(Reply::Task(Shared::new(self.alloc(), task)?))
    }

    /// The number of qubits of a circuit, which is there.
    pub(crate) fn qubits_at(&self, place: &Place) -> u32
        requires { IsSome (circuit_at self.now.versions.circuits place.now.name) }
        ensures { (c : Circuit) → circuit_at self.now.versions.circuits place.now.name ≡ Some c → result ≡ c.qubits }
    {
        match self.versions.circuit_of(place.name) {
            None => unreachable!(),
            Some(about) => about.qubits,
        }
    }

    /// The items of a leaf, or the records of the two sides.
    fn work(&self, node: Node) -> Result<Work, AllocError>
        requires there { node < length self.now.versions.nodes }
        requires ready { is_ready self.now.versions.kept passed (tree self.now.versions.nodes node) ≡ true }
        ensures { IfOk result (λ w. IsWorkAt (fields_of self.now) (tree self.now.versions.nodes node) w) }
    {
        match self.versions.nodes().look(node) {
            Seen::Leaf(_) => Ok(Work::Items(self.items_of(node)?)),
            Seen::Branch(left, right) => {
                let first = self.record_of(left)?;
                let second = self.record_of(right)?;
                Ok(Work::Children(first, second))
            }
        }
    }

    /// The record of a segment that has one, to be shared.
    pub(crate) fn record_of(&self, node: Node) -> Result<Arc<Record>, AllocError>
        requires { IsSome (record_at self.now.versions.kept node) }
        ensures { IfOk result (λ a. (e : ℕ × Filed) → record_at self.now.versions.kept node ≡ Some e → a.value ≡ e.1.shared.value) }
    {
        match self.versions.kept_at(node) {
            None => unreachable!(),
            Some((_, filed)) => Ok(Arc::try_clone(&filed.shared)?),
        }
    }

    /// That all versions of a pin are settled, and what they come to.
    fn settled_reply(&self, pin: &Pin) -> Told
        requires pinned { HasPinned (fields_of self.now) pin.now }
        requires settled { AreSettledAt (fields_of self.now) pin.now }
        ensures { SettlesIn (fields_of self.now) pin.now result.reply }
    {
        match self.both_told(pin) {
            Ok(told) => told,
            Err(_) => Told::plain(Reply::Memory),
        }
    }

    /// What the versions of a pin, which are settled, come to.
    fn both_told(&self, pin: &Pin) -> Result<Told, AllocError>
        requires pinned { HasPinned (fields_of self.now) pin.now }
        requires settled { AreSettledAt (fields_of self.now) pin.now }
        ensures { IfOk result (λ told. TellsBoth (fields_of self.now) pin.now told.reply) }
    {
        let first = Shared::of(self.whole_at(&pin.first)?);
        let second = self.whole_maybe(&pin.second)?;
        Told::shared(Reply::Settled { first, second })
    }

    /// What a version, which is settled, comes to, where there is one.
    fn whole_maybe(&self, place: &Option<Place>) -> Result<Option<Shared<Record>>, AllocError>
        requires kept { (p : Place) → place.now ≡ Some p → KeptAt (fields_of self.now) p }
        requires settled { (p : Place) → place.now ≡ Some p → is_settled_at self.now.versions p ≡ true }
        ensures { IfOk result (λ b. SecondComesIn (fields_of self.now) place.now b) }
    {
        match place {
            None => Ok(None),
            Some(place) => {
                let record = self.whole_at(place)?;
                Ok(Some(Shared::of(record)))
            }
        }
    }

    /// The seat has no claim any more.
    pub(crate) fn unclaim(&mut self, seat: u32)
        requires { seat < 64 }
        ensures { fields_of self.new ≡ unclaims seat (fields_of self.old) }
    {
        self.claims.seats[seat as usize] = None;
    }
}

impl Weights for Claims {
    ghost weight = { claims_of };

    /// How many claims name a node.
    fn weight(&self, node: Node) -> u32 {
        let mut count = 0;
        for claim in &self.seats {
            if is_of(claim, node) {
                count += 1;
            }
        }
        count
    }
}

/// Whether a claim names a node.
fn is_of(claim: &Option<Claim>, node: Node) -> bool
    ensures { result ≡ claims_node (Some node) claim.now }
{
    match claim {
        None => false,
        Some(claim) => claim.node.number() == node.number(),
    }
}
