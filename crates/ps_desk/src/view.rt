//! What a seat knows. No value of these types is made: they stand in clauses alone.
use crate::entry::Entry;
use std::collections::LinkedList;

/// A seat that was taken back: its number, its own entries, and the ticket that it was refused.
pub struct Ended<C, R> {
    pub number: u32,
    pub own: LinkedList<Entry<C, R>>,
    pub refused: Option<u64>,
}

/// What a seat knows.
pub struct View<C, R> {
    /// False once another seat has taken it back.
    pub live: bool,
    pub number: u32,
    /// The spare numbers are those from `next` on that are below `end`.
    pub next: u32,
    pub end: u32,
    /// The numbers that were split from it and not joined back, the last one first.
    pub out: LinkedList<u32>,
    /// The seats that came back, in order.
    pub ended: LinkedList<Ended<C, R>>,
    /// The journal as it stood at the end of the last turn, or longer by a join.
    pub seen: LinkedList<Entry<C, R>>,
    /// What a seat that came back has seen, until the next look.
    pub told: LinkedList<Entry<C, R>>,
    /// The entries of this seat.
    pub own: LinkedList<Entry<C, R>>,
    /// The ticket that was drawn and not ended.
    pub ticket: Option<u64>,
    /// The journal that the last look found, while the seat is at its turn.
    pub found: Option<LinkedList<Entry<C, R>>>,
    pub refused: Option<u64>,
}
