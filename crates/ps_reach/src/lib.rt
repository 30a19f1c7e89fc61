//! What segments of circuits come to, what comparing them finds, and the types that keep that it is right.
#![tactic(auto)]

pub mod evidence;
pub mod items;
pub mod judged;
pub mod lists;
pub mod mode;
pub mod record;
pub mod sizes;
pub mod task;
pub mod verdict;

pub use evidence::{Body, Evidence};
pub use items::Items;
pub use judged::Judged;
pub use lists::{Moves, Steps};
pub use mode::Mode;
pub use record::Record;
pub use task::{Task, Work};
pub use verdict::Verdict;
