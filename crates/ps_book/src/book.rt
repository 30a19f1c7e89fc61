//! The service with the journal of all that it was asked and answered.
ghost use Rattle.std.specs.Prelude.{◌≤◌, length, vec_capacity};
ghost use Rattle.ps_views.specs.Fields.{fields};
ghost use Rattle.ps_book.specs.Lawful.{IsLawful};

use crate::service::Service;
use ps_journal::Entry;

/// The service, and its journal, which has room for 262,144 entries from the start.
#[derive(Drop)]
pub struct Book {
    pub(crate) service: Service,
    pub(crate) journal: Vec<Entry>,
    pub(crate) ghost few: { length journal.items ≤ 262144 },
    pub(crate) ghost room: { 262144 ≤ vec_capacity journal },
    pub(crate) ghost lawful: { ∥ IsLawful (fields service.versions service.tables.items service.items.items service.pins service.claims.seats service.terms) journal.items ∥₁ },
}
