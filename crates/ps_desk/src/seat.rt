//! A desk, and the seats at it. Their calls stand in the module `desk`.
ghost use Rattle.std.specs.Prelude.{◌≡◌, ◌≤◌};
ghost use Rattle.ps_desk.specs.Resting.{Rests};

use crate::object::Object;
use crate::sleepers::Sleepers;
use crate::steps::Turns;
use crate::view::View;
use std::alloc::Global;

// What a seat steps with: it has no bytes, and carries what the seat knows.
pub(crate) type Token<O> = atomic_table::Seat<
    Option<O>,
    View<<O as Object>::Cmd, <O as Object>::Reply>,
>;

// The ticket word, the serving word, and the one slot with the object.
pub(crate) type Table<O> = atomic_table::Table<
    Option<O>,
    View<<O as Object>::Cmd, <O as Object>::Reply>,
    u32,
    Turns<O>,
    Global,
>;

/// A place at a desk, for one thread at a time. What it knows is its view (`View`).
#[derive(Drop)]
pub struct Seat<O: Object> {
    pub(crate) token: Token<O>,
    pub(crate) number: u32,
    pub(crate) next: u32,
    pub(crate) end: u32,
    pub(crate) out: u32,
    pub(crate) refused: Option<u64>,
    pub ghost rests: { Rests token.me number next end out refused },
}

/// A desk that serves one object, for at most 64 seats. Threads share it by reference.
#[derive(Drop)]
pub struct Desk<O: Object> {
    pub(crate) table: Table<O>,
    pub(crate) sleepers: Sleepers,
    pub(crate) seats: u32,
    ghost words: { table.shared.table_id.words ≡ 2 },
    ghost slots: { table.shared.table_id.slots ≡ 1 },
    ghost key: { table.shared.key ≡ seats },
}

/// A desk that can't be closed yet, with its first seat: so many seats are still out.
#[derive(Drop)]
pub struct NotClosed<O: Object> {
    pub desk: Desk<O>,
    pub seat: Seat<O>,
    pub out: u32,
}
