use ps_mono::Mono;
use ps_ring::Phase;

/// A monomial, and the phase that it adds at each assignment at which it holds.
#[derive(Clone, Copy, PartialEq, Eq)]
pub struct Term {
    pub mono: Mono,
    pub phase: Phase,
}
