//! Persistent balanced trees of item numbers, in an append-only table.
//!
//! A tree has leaves of 1 to 8 item numbers and branches of two trees, the heights of which differ by at most 1.
//! What is made of trees shares their nodes: a splice of a few items makes tens of new nodes, whatever the length.
#![tactic(auto)]

pub mod calls;
pub mod contents;
pub mod cuts;
pub mod drafts;
pub mod growth;
pub mod node;
pub mod nodes;
pub mod shapes;

pub use node::{Node, Seen};
pub use nodes::Nodes;

#[cfg(test)]
mod tests;
