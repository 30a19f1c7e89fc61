use ps_sum::{Passed, PathSum};

/// Why a sum was not put behind one that was given away.
#[derive(Drop)]
pub enum OntoFault {
    /// A limit was passed; the first sum is handed back as it was.
    Passed { passed: Passed, first: PathSum },
    /// Memory was wanting; the first sum is gone.
    Memory,
}
