//! How versions are retired.
ghost use Rattle.std.specs.Prelude.{◌≡◌, true};
ghost use Rattle.ps_journal.specs.Plain.{is_plain};
ghost use Rattle.ps_journal.specs.State.{State};
ghost use Rattle.ps_journal.specs.Retiring.{Retires};
ghost use Rattle.ps_views.specs.Stands.{Stands, Leaves};
ghost use Rattle.ps_book.specs.Services.{fields_of};

use crate::service::Service;
use ps_journal::Reply;
use ps_script::Place;

impl Service {
    /// Retires a version, by entry `number`.
    pub(crate) fn retire(&mut self, number: u32, place: &Place) -> Reply
        ensures leaves { (t : State) → Stands (fields_of self.old) t → Leaves (λ new. Retires t number place.now result new) (fields_of self.new) }
        ensures plain { is_plain result ≡ true }
    {
        match self.versions.circuit_of(place.name) {
            None => Reply::NoCircuit,
            Some(about) => {
                if !self.versions.exists(place) {
                    return Reply::NoVersion(about.latest);
                }
                if place.version == about.latest {
                    return Reply::IsLatest;
                }
                match self.versions.state(place).retired {
                    Some(entry) => Reply::WasRetired(entry),
                    None => {
                        self.versions.retire(place, number);
                        Reply::Retired {
                            claims: self.claims.on(place),
                        }
                    }
                }
            }
        }
    }
}
