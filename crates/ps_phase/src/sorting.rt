ghost use Rattle.std.specs.Prelude.{IsTrue, IsPermutation, IsSortedByKey};
ghost use Rattle.ps_mono.specs.Sets.{mono_cmp};
ghost use Rattle.ps_phase.specs.Short.{AllShort};

use super::terms::Term;

// Keys pay only where there are more terms.
const FEW: usize = 16;

// The most variables of a monomial with a key of its own.
const SHORT: u32 = 6;

// Whether each monomial has a key of its own.
fn are_short(terms: &[Term]) -> bool
    ensures { IsTrue result → AllShort terms.now }
{
    for term in terms {
        term.mono.known();
        if term.mono.degree() > SHORT {
            return false;
        }
    }
    true
}

// Sorts the terms by the keys of their monomials, and answers whether it has done so. It does not
// where terms are few, where a monomial has no key of its own, and where memory is wanting.
fn sorted_by_keys(terms: &mut Vec<Term>) -> bool
    ensures permutation { IsPermutation terms.old.items terms.new.items }
    ensures sorted { IsTrue result → IsSortedByKey (λ t. t.mono) mono_cmp terms.new.items }
{
    if terms.len() <= FEW || !are_short(terms) {
        return false;
    }
    match terms.sort_by_cached_key(|term| term.mono.order_key()) {
        Ok(()) => true,
        Err(_) => false,
    }
}

// Puts the terms into the order of their monomials. It takes memory where that is at hand, and always
// sorts.
pub(crate) fn sort_terms(terms: &mut Vec<Term>)
    ensures permutation { IsPermutation terms.old.items terms.new.items }
    ensures sorted { IsSortedByKey (λ t. t.mono) mono_cmp terms.new.items }
{
    if !sorted_by_keys(terms) {
        terms.sort_unstable_by(|x, y| x.mono.compare(&y.mono));
    }
}
