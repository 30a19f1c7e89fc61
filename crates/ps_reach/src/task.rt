use super::items::Items;
use super::record::Record;
use std::sync::Arc;

/// What is to be computed: for the claim with this number, of this seat, on `n` qubits.
#[derive(Drop)]
pub struct Task {
    pub seat: u32,
    pub claim: u32,
    pub n: u32,
    pub work: Work,
}

/// What a segment is made of.
#[derive(Drop)]
pub enum Work {
    /// Its items.
    Items(Arc<Items>),
    /// The records of two segments, the first before the second.
    Children(Arc<Record>, Arc<Record>),
}
