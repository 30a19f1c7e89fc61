use ps_ring::Phase;

// A term's place, and what is wanted of the term to sort it and to add it up.
#[derive(Clone, Copy)]
pub(crate) struct Seat {
    pub(crate) key: u128,
    pub(crate) phase: Phase,
    pub(crate) place: usize,
}
