//! A desk at which threads take turns with one object. Each turn leaves one entry in the object's journal, and
//! however the turns interleave, what each seat has seen is a beginning of that one journal.
#![tactic(auto)]

mod counting;
mod desk;
mod entry;
mod object;
mod refusals;
mod seat;
mod sleepers;
mod steps;
mod view;

pub use counting::Counting;
pub use entry::Entry;
pub use object::Object;
pub use refusals::{Full, NoSeat};
pub use seat::{Desk, NotClosed, Seat};
pub use view::{Ended, View};

#[cfg(test)]
mod tests;
