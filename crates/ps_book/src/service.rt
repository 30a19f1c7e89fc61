//! What the service holds.
ghost use Rattle.std.specs.Prelude.{◌≡◌, replicate, None};
ghost use Rattle.ps_journal.specs.State.{empty};
ghost use Rattle.ps_views.specs.Fields.{fields, IsSound, IsSound-prop};
ghost use Rattle.ps_views.specs.Stands.{Stands};

use crate::claims::Claims;
use ps_journal::Pin;
use ps_prim::Item;
use ps_versions::Versions;
use ps_views::Filed;
use qasm_expand::Table;
use std::alloc::Global;
use std::sync::Arc;

/// Circuits with their versions and records, their gate tables in order of opening, the items that the segments name by
/// number, and what the seats have pinned and claimed.
#[derive(Drop)]
pub struct Service {
    pub(crate) versions: Versions<Filed>,
    pub(crate) tables: Vec<Arc<Table>>,
    pub(crate) items: Vec<Arc<Item>>,
    pub(crate) pins: [Option<Pin>; 64],
    pub(crate) claims: Claims,
    pub(crate) terms: u64,
    pub(crate) ghost sound: { IsSound (fields versions tables.items items.items pins claims.seats terms) } by { IsSound-prop (fields versions tables.items items.items pins claims.seats terms) },
}

/// The most terms that are kept.
pub(crate) const MOST_TERMS: u64 = 8_388_608;

impl Service {
    /// No circuit, no pin and no claim.
    pub(crate) fn new(alloc: Global) -> Service
        ensures { Stands (fields result.versions result.tables.items result.items.items result.pins result.claims.seats result.terms) empty }
    {
        Service {
            versions: Versions::new(alloc),
            tables: Vec::new(alloc),
            items: Vec::new(alloc),
            pins: no_pins(),
            claims: Claims::new(),
            terms: 0,
        }
    }

    /// The allocator of the service.
    pub(crate) fn alloc(&self) -> Global {
        *self.items.allocator()
    }
}

/// No seat has pinned anything.
fn no_pins() -> [Option<Pin>; 64]
    ensures { result ≡ replicate 64 None }
{
    [None; 64]
}
