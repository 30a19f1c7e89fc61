ghost use Rattle.std.specs.Prelude.{◌≡◌, ℕ, true, false, List, [], ◌∷◌, ◌++◌, ◌↔◌, IsTrue};
ghost use Rattle.ps_mono.specs.Sets.{stands};
ghost use Rattle.ps_phase.specs.declared.terms.Term.{Term};
ghost use Rattle.ps_phase.specs.Phases.{IsPhasePoly};
ghost use Rattle.ps_sum.specs.Outs.{outs_occur};
ghost use Rattle.ps_rules.specs.Sights.{Seen, IsFresh, IsQuarter, IsQuartered, AllHalves};

use ps_mono::Mono;
use ps_phase::Term;

// Half a turn, and a quarter and three quarters of a turn.
pub const HALF: u32 = 2147483648;

const QUARTER: u32 = 1073741824;

const THREE_QUARTERS: u32 = 3221225472;

// Of which kind the terms are that were read, of those with one variable.
#[derive(Clone, Copy)]
pub enum Kind {
    // There is none.
    Free,
    // Each is half a turn.
    Halves,
    // The variable alone turns by a quarter of a turn or by three, and each other is half a turn.
    Quarter,
    // No step takes the variable away.
    Other,
}

// What is remembered of one variable: the kind of its terms, the variables of those that have two,
// and the variables of the others.
#[derive(Clone, Copy)]
pub struct Sight {
    pub kind: Kind,
    pub pairs: Mono,
    pub wide: Mono,
}

// No term was read; the variable stands in an output, or in none.
pub fn unseen(spoken: bool) -> Sight
    ensures { IsFresh spoken result }
{
    Sight {
        kind: if spoken { Kind::Other } else { Kind::Free },
        pairs: Mono::one(),
        wide: Mono::one(),
    }
}

// The variable of the sight stands in one term more.
pub fn seen(sight: &Sight, term: &Term) -> Sight
    ensures { (v : ℕ) (outs : List (List (List ℕ))) (ts : List Term) → IsPhasePoly (ts ++ term.now ∷ []) → stands v term.now.mono ≡ true → Seen v outs ts sight.now → Seen v outs (ts ++ term.now ∷ []) result }
{
    match sight.kind {
        Kind::Other => *sight,
        Kind::Quarter => with_quarter(sight, term),
        Kind::Free => with_halves(sight, term),
        Kind::Halves => with_halves(sight, term),
    }
}

// Where the variable alone turns by a quarter of a turn or by three.
fn with_quarter(sight: &Sight, term: &Term) -> Sight
    requires { sight.now.kind ≡ Kind.Quarter }
    ensures { (v : ℕ) (outs : List (List (List ℕ))) (ts : List Term) → IsPhasePoly (ts ++ term.now ∷ []) → stands v term.now.mono ≡ true → IsQuartered v outs ts → Seen v outs (ts ++ term.now ∷ []) result }
{
    let mut next = *sight;
    if term.phase.units() != HALF {
        next.kind = Kind::Other;
    }
    next
}

// Whether it is a quarter of a turn or three.
pub fn is_quarter(units: u32) -> bool
    ensures { IsTrue result ↔ IsQuarter units }
{
    units == QUARTER || units == THREE_QUARTERS
}

// Where all terms so far are half a turn.
fn with_halves(sight: &Sight, term: &Term) -> Sight
    ensures { (v : ℕ) (outs : List (List (List ℕ))) (ts : List Term) → IsPhasePoly (ts ++ term.now ∷ []) → stands v term.now.mono ≡ true → AllHalves v outs ts sight.now.pairs sight.now.wide → Seen v outs (ts ++ term.now ∷ []) result }
{
    let mut next = *sight;
    let units = term.phase.units();
    let degree = term.mono.degree();
    if units == HALF {
        next.kind = Kind::Halves;
        if degree == 2 {
            next.pairs = next.pairs.union(&term.mono);
        } else {
            next.wide = next.wide.union(&term.mono);
        }
    } else if degree == 1 && is_quarter(units) {
        next.kind = Kind::Quarter;
    } else {
        next.kind = Kind::Other;
    }
    next
}
