//! Phase polynomials: how far each assignment of the variables turns the phase, as a sum of terms.
#![tactic(auto)]

mod gathering;
mod inplace;
pub mod merging;
pub mod poly;
mod seating;
mod seats;
mod sorting;
pub mod terms;
mod weaving;

pub use poly::PhasePoly;
pub use terms::Term;

#[cfg(test)]
mod tests;
