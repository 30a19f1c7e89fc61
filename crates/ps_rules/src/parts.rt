use ps_bool::BoolPoly;
use ps_mono::Mono;
use ps_phase::{PhasePoly, Term};

// What a step takes out of the phase: its polynomial, and for Hh the terms with the second variable
// and without the first, in which it comes, and how many terms have neither.
#[derive(Drop)]
pub struct Parts {
    pub poly: BoolPoly,
    pub into: PhasePoly,
    pub left: u64,
}

// The same while the terms are read: the monomials are divided by the first variable, in any order.
#[derive(Drop)]
pub struct Parted {
    pub monos: Vec<Mono>,
    pub into: Vec<Term>,
    pub left: u64,
}
