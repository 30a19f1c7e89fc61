//! The outside as a program sees it: where bytes come from, where they go, and who may hold a thread up or ask it
//! to stop. Each is a trait, with implementations over memory, for tests, and over the standard library's readers
//! and writers.
#![tactic(auto)]

pub mod bell;
pub mod flags;
pub mod gate;
mod listing;
pub mod memory_sink;
pub mod memory_source;
pub mod reading;
pub mod sink;
pub mod source;
pub mod std_sink;
pub mod std_source;
pub mod stop;
pub mod writing;

pub use bell::Bell;
pub use flags::{Flags, Hint};
pub use gate::{Gate, OpenGate, Point};
pub use memory_sink::MemorySink;
pub use memory_source::MemorySource;
pub use reading::{ReadEnd, read_all};
pub use sink::Sink;
pub use source::{Failed, Source};
pub use std_sink::StdSink;
pub use std_source::StdSource;
pub use stop::{NeverStop, Stop};
pub use writing::write_all;

#[cfg(test)]
mod tests;
