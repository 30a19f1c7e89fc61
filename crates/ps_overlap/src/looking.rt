ghost use Rattle.std.specs.Prelude.{◌≡◌, ℕ, ◌<◌, ◌≤◌, nat_lt, true, IsTrue, ◌↔◌};
ghost use Rattle.ps_mono.specs.Sets.{stands};
ghost use Rattle.ps_overlap.specs.Terms.{IsHalfAtInputs, Looked};

use ps_mono::{Bits, Mono};
use ps_phase::Term;

// Half a turn.
const HALF: u32 = 1 << 31;

/// The variables of a phase's terms: of those that are half a turn and have at most one variable that
/// is no input, and of the others.
#[derive(Clone, Copy)]
pub(crate) struct Seen {
    pub halves: Mono,
    pub others: Mono,
}

// The term is half a turn, and its variables but one are inputs.
fn is_half_at_inputs(term: &Term, inputs: &Bits, n: u32) -> bool
    requires { (v : ℕ) → stands v inputs.now ≡ nat_lt v n }
    ensures { (v : ℕ) → n ≤ v → stands v term.now.mono ≡ true → (IsTrue result ↔ IsHalfAtInputs n v term.now) }
{
    term.mono.known();
    let degree = term.mono.degree();
    if degree == 0 || term.phase.units() != HALF {
        return false;
    }
    let last = term.mono.var_at(degree - 1);
    term.mono.removed(last).holds(inputs)
}

/// The variables of the terms, by their kind.
pub(crate) fn looked(terms: &[Term], inputs: &Bits, n: u32) -> Seen
    requires { (v : ℕ) → stands v inputs.now ≡ nat_lt v n }
    ensures { (v : ℕ) → n ≤ v → Looked n v terms.now (stands v result.halves) (stands v result.others) }
{
    let mut halves = Mono::one();
    let mut others = Mono::one();
    for term in terms {
        if is_half_at_inputs(term, inputs, n) {
            halves = halves.union(&term.mono);
        } else {
            others = others.union(&term.mono);
        }
    }
    Seen { halves, others }
}
