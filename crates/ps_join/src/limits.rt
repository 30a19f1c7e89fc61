/// The most variables that a join may name, the inputs of both sums counted.
pub(crate) const MOST_VARIABLES: u32 = 512;

/// The most terms that one replacement may make, before any are added.
pub(crate) const MOST_TERMS: u64 = 65_536;

/// Two polynomials with fewer monomials than this make a sum within the limit.
pub(crate) const SHORT: u64 = 32_768;
