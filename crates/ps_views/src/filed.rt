//! Records as they are filed at segments.
ghost use Rattle.std.specs.Prelude.{◌≡◌};
ghost use Rattle.ps_journal.specs.Segments.{is_passed};

use ps_reach::{Body, Record};
use ps_versions::Kept;
use std::sync::Arc;

/// A record that was published for a segment.
#[derive(Drop)]
pub struct Filed {
    pub shared: Arc<Record>,
}

impl Kept for Filed {
    ghost passed = { λ f. is_passed f.shared.value };

    fn is_passed(&self) -> bool {
        is_passed(&self.shared)
    }
}

/// Whether a record tells that a limit was passed.
pub fn is_passed(record: &Record) -> bool
    ensures { result ≡ is_passed record.now }
{
    match &record.body {
        Body::Sum(_) => false,
        Body::Passed(_) => true,
    }
}
