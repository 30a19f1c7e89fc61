//! What one turn leaves in a journal.

/// A turn: the number of the seat that took it, below 64, what it asked, and what it was told.
#[derive(Drop)]
pub struct Entry<C, R> {
    pub seat: u32,
    pub cmd: C,
    pub reply: R,
}
