//! Exact values of angle expressions: numbers r + s·pi with dyadic fractions r and s.
//!
//! A dyadic number is a fraction a/2^b in lowest terms with |a| below 2^62 and b from 0 to 62.
//! Nothing is rounded: an operation gives its exact value, or a fault.
#![tactic(auto)]

mod dyadics;
mod evaluation;
mod expr;
mod numbers;
mod pairs;
mod powers;
mod types;
mod units;

pub use evaluation::value;
pub use expr::Expr;
pub use types::{AngleFault, Dyadic, Op, Pair};
pub use units::angle;

#[cfg(test)]
mod tests;
