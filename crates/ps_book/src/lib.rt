//! The service on one thread: circuits under edit, and one legal history of all that was asked and answered.
#![tactic(auto)]

pub mod book;
pub mod claims;
pub mod equality;
pub mod history;
pub mod judging;
pub mod opening;
pub mod pinning;
pub mod publishing;
pub mod retiring;
pub mod runs;
pub mod service;
pub mod showing;
pub mod splicing;
pub mod summing;
pub mod tasks;
mod told;
pub mod turns;

pub use book::Book;

#[cfg(test)]
mod tests;
