//! Scripts, and the names and places in them.
//!
//! The lines of a script end with LF or CR LF; the last one may lack that. An empty line and one that begins with
//! `#` is skipped. Any other is a command of a session S, with single spaces between its words:
//!
//! - `S open NAME`, followed by a block;
//! - `S splice NAME BASE FROM TO`, followed by a block;
//! - `S retire NAME VERSION`, `S sum NAME VERSION`, `S show NAME VERSION`;
//! - `S ask NAME VERSION NAME VERSION`, `S ask phase NAME VERSION NAME VERSION`, `S prove NAME VERSION NAME VERSION`.
//!
//! A block is all the bytes up to the next line that is exactly `.`. Sessions are numbered from 0 to 15. A number is
//! below 2^32, spelled with decimal digits, without a sign and without a leading zero but for `0`.
#![tactic(auto)]

pub mod command;
pub mod fault;
mod lines;
pub mod name;
mod order;
mod pieces;
mod reading;
pub mod script;
mod spelling;
pub mod text;

pub use command::Command;
pub use fault::ScriptFault;
pub use name::{Name, Place};
pub use reading::read;
pub use script::{Line, Lines, Script};
pub use text::Text;

#[cfg(test)]
mod tests;
