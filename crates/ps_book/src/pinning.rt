//! What the seats have pinned.
ghost use Rattle.std.specs.Prelude.{◌≡◌, ◌<◌, MatchResult, IfErr, Some, true};
ghost use Rattle.ps_journal.specs.Plain.{is_plain};
ghost use Rattle.ps_journal.specs.State.{State};
ghost use Rattle.ps_views.specs.Stands.{Stands, Leaves};
ghost use Rattle.ps_book.specs.Services.{fields_of};
ghost use Rattle.ps_journal.specs.Pinning.{Pins};
ghost use Rattle.ps_journal.specs.Keeping.{unpinned};
ghost use Rattle.ps_views.specs.Living.{LivesAt, RefusesAt};
ghost use Rattle.ps_journal.specs.Pinning.{new_pin, pinned};
ghost use Rattle.ps_journal.specs.declared.replies.Reply.TheVariants.{Pinned};
ghost use Rattle.ps_views.specs.Counts.{pins_by};
ghost use Rattle.ps_views.specs.Changes.{IsLiveAt, IsLiveAtMaybe, Becomes, Fades, Rises, Carries, HasRoom};
ghost use Rattle.ps_book.specs.Releases.{Releases};

use crate::service::Service;
use ps_journal::{Pin, Reply};
use ps_script::Place;
use ps_versions::Versions;
use ps_views::Filed;

impl Service {
    /// The number of qubits of a live version, or why there is none at the place.
    pub(crate) fn live_at(&self, place: &Place) -> Result<u32, Reply>
        ensures told { MatchResult result (LivesAt (fields_of self.now) place.now) (RefusesAt (fields_of self.now) place.now) }
        ensures plain { IfErr result (λ r. is_plain r ≡ true) }
    {
        match self.versions.circuit_of(place.name) {
            None => Err(Reply::NoCircuit),
            Some(about) => {
                if !self.versions.exists(place) {
                    return Err(Reply::NoVersion(about.latest));
                }
                match self.versions.state(place).retired {
                    Some(entry) => Err(Reply::WasRetired(entry)),
                    None => Ok(about.qubits),
                }
            }
        }
    }

    /// Pins one version or two for a seat, by entry `number`.
    pub(crate) fn pin(
        &mut self,
        number: u32,
        seat: u32,
        first: Place,
        second: Option<Place>,
    ) -> Reply
        requires { seat < 64 }
        ensures leaves { (t : State) → Stands (fields_of self.old) t → Leaves (λ new. Pins t number seat first second result new) (fields_of self.new) }
        ensures plain { is_plain result ≡ true }
    {
        match self.live_at(&first) {
            Err(reply) => reply,
            Ok(qubits) => match second {
                None => self.hold(number, seat, first, None),
                Some(other) => match self.live_at(&other) {
                    Err(reply) => reply,
                    Ok(others) => {
                        if qubits != others {
                            return Reply::Widths(qubits, others);
                        }
                        self.hold(number, seat, first, Some(other))
                    }
                },
            },
        }
    }

    /// Pins live versions for a seat in place of what it had pinned.
    fn hold(&mut self, number: u32, seat: u32, first: Place, second: Option<Place>) -> Reply
        requires near { seat < 64 }
        requires live { IsLiveAt self.old.versions first }
        requires also { IsLiveAtMaybe self.old.versions second }
        ensures stands { (t : State) → Stands (fields_of self.old) t → Stands (fields_of self.new) (pinned number seat first second t) }
        ensures reply { result ≡ Pinned }
    {
        self.release(number, seat);
        self.pins[seat as usize] = Some(Pin {
            first,
            second,
            refused: None,
        });
        pin_both(&mut self.versions, &first, &second);
        Reply::Pinned
    }

    /// Releases what a seat has pinned, by entry `number`.
    pub(crate) fn release(&mut self, number: u32, seat: u32)
        requires { seat < 64 }
        ensures releases { Releases number seat (fields_of self.old) (fields_of self.new) }
        ensures stands { (t : State) → Stands (fields_of self.old) t → Stands (fields_of self.new) (unpinned number seat t) }
        ensures terms { self.new.terms ≡ self.old.terms }
    {
        match self.pins[seat as usize] {
            None => (),
            Some(pin) => {
                self.pins[seat as usize] = None;
                unpin_both(&mut self.versions, &pin, number);
            }
        }
    }
}

/// Puts a pin on one live version or two.
fn pin_both(versions: &mut Versions<Filed>, first: &Place, second: &Option<Place>)
    requires room { HasRoom versions.old }
    requires live { IsLiveAt versions.old first.now }
    requires also { IsLiveAtMaybe versions.old second.now }
    ensures { Becomes (λ q x y. Rises (pins_by q (Some (new_pin first.now second.now))) x y) versions.old versions.new }
{
    versions.pin(first);
    match second {
        None => (),
        Some(second) => versions.pin(second),
    }
}

/// Takes the pins off that one pin of a seat has put on, by entry `number`.
fn unpin_both(versions: &mut Versions<Filed>, pin: &Pin, number: u32)
    requires { Carries versions.old (Some pin.now) }
    ensures { Becomes (λ q x y. Fades number (pins_by q (Some pin.now)) x y) versions.old versions.new }
{
    versions.unpin(&pin.first, number);
    match &pin.second {
        None => (),
        Some(second) => versions.unpin(second, number),
    }
}
