//! Normal sums of segments, and whether two segments are one linear map, or are so up to a phase.
#![tactic(auto)]

mod children;
pub mod comparing;
pub mod decision;
pub mod derivations;
mod evidences;
pub mod filled;
pub mod filling;
mod kept;
mod leaves;
mod parts;
mod prims;
mod reduce;
mod takings;

pub use comparing::{compare, decide, same_gates};
pub use decision::Decision;
pub use derivations::derive;
pub use filled::Filled;
pub use filling::fill;

#[cfg(test)]
mod tests;
