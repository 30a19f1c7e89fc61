//! Replaying derivations: whether a text shows that two lists of gates are one linear map.
//!
//! The lines of a derivation are taken one after the other, on a list of entries that is empty at
//! first. An entry is a path sum that stands for a run of consecutive gates of a side, or for none; or
//! it is the overlap of both sides. A line that cannot be taken is told, with its number and why; if all
//! are taken, the last sum says whether the two lists are shown to be one map. Nothing is taken on
//! trust: whoever wrote the text, it is accepted only where they are.
#![tactic(auto)]

mod held;
mod lines;
mod placing;
pub mod replayed;
pub mod replaying;

pub use replayed::{Replayed, Why};
pub use replaying::replay;

#[cfg(test)]
mod tests;
