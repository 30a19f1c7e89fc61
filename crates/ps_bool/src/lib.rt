//! Boolean polynomials: sums modulo 2 of distinct monomials, kept in the order of monomials.
//!
//! Clauses see a `BoolPoly` as the list of its monomials, each the ascending list of its variables.
//! An assignment is a function from variables to truth values; that of a `Bits` value `b` is
//! `λ v. stands v b`.
#![tactic(auto)]

mod flipping;
mod gather;
mod merge;
pub mod poly;

pub use poly::BoolPoly;

#[cfg(test)]
mod tests;
