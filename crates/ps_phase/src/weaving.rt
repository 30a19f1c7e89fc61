ghost use Rattle.std.specs.Prelude.{set, ◌≡◌, ◌+◌, ◌-◌, ◌<◌, ◌≤◌, List, length, get_or, take, drop, ◌++◌, OnOk, OnErr, IsTrue};
ghost use Rattle.std.specs.declared.cmp.Ordering.TheVariants.{Less};
ghost use Rattle.ps_mono.specs.Sets.{mono_cmp};
ghost use Rattle.ps_phase.specs.declared.terms.Term.{Term};
ghost use Rattle.ps_phase.specs.Phases.{IsPhasePoly};
ghost use Rattle.ps_phase.specs.Adding.{add_terms};
ghost use Rattle.ps_phase.specs.Weaving.{Weaving};

use super::terms::Term;
use ps_mono::Mono;
use std::alloc::AllocError;
use std::cmp::Ordering;

// The others are few where there is less than one of them for so many terms.
const FEW: usize = 16;

// How far two lists have been woven into one, from their ends on: how many terms of each are left, and
// where the terms begin that are in place.
#[derive(Clone, Copy)]
struct Place {
    left: usize,
    more: usize,
    from: usize,
}

// Both lists in order, terms of one monomial added, in the memory of the first. It moves each term at
// most once before the gap is closed, and none that comes before the first of the others. Where these are
// few, the terms between two of them are passed at once.
pub(crate) fn weave(terms: &mut Vec<Term>, others: &[Term]) -> Result<(), AllocError>
    requires form { IsPhasePoly terms.old.items }
    requires order { IsPhasePoly others.now }
    ensures sum { OnOk result (terms.new.items ≡ add_terms terms.old.items others.now) }
    ensures kept { OnErr result (terms.new.items ≡ terms.old.items) }
{
    let left = terms.len();
    let few = others.len() < left / FEW;
    match terms.extend_from_slice(others) {
        Ok(()) => {}
        Err(fault) => return Err(fault),
    }
    let mut place = Place {
        left,
        more: others.len(),
        from: left + others.len(),
    };
    while place.more > 0 {
        let other = &others[place.more - 1];
        place = leapt(terms, place, other, few);
        place = woven(terms, place, other);
    }
    close(terms, place.left, place.from);
    Ok(())
}

// Where the others are few, the terms that are left and come after this one of them, in front of those in
// place.
fn leapt(terms: &mut Vec<Term>, place: Place, other: &Term, few: bool) -> Place
    requires more { 0 < place.more }
    requires left { place.left + place.more ≤ place.from }
    requires room { place.from ≤ length terms.old.items }
    ensures more { result.more ≡ place.more }
    ensures fewer { result.left ≤ place.left }
    ensures left { result.left + result.more ≤ result.from }
    ensures room { result.from ≤ length terms.new.items }
    ensures weaving { (xs ys : List Term) → IsPhasePoly xs → IsPhasePoly ys → ((d : Term) → other.now ≡ get_or ys (place.more - 1) d) → Weaving xs ys place.left place.more place.from terms.old.items
        → Weaving xs ys result.left result.more result.from terms.new.items }
{
    if !few {
        return place;
    }
    let first = first_after(terms, place.left, &other.mono);
    passed(terms, place, first)
}

// The first place among so many terms whose term comes after the monomial, as do then all behind it, and
// the end where there is none: looked for in steps back that double, and then by halves.
fn first_after(terms: &[Term], left: usize, mono: &Mono) -> usize
    requires { left ≤ length terms.now }
    ensures within { result ≤ left }
    ensures after { (d : Term) → result < left → mono_cmp mono.now (get_or terms.now result d).mono ≡ Less }
{
    let high = leap(terms, left, mono);
    let low = high.saturating_sub(left - high);
    halved(terms, low, high, mono)
}

// How far steps back that double come before a term that does not come after the monomial.
fn leap(terms: &[Term], left: usize, mono: &Mono) -> usize
    requires { left ≤ length terms.now }
    ensures within { result ≤ left }
    ensures after { (d : Term) → result < left → mono_cmp mono.now (get_or terms.now result d).mono ≡ Less }
{
    let mut high = left;
    while left - high < high {
        let place = high - (left - high) - 1;
        if !is_after(&terms[place], mono) {
            return high;
        }
        high = place;
    }
    high
}

// A place between two at which the term comes after the monomial, and the upper one where there is none.
fn halved(terms: &[Term], low: usize, high: usize, mono: &Mono) -> usize
    requires { high ≤ length terms.now }
    ensures within { result ≤ high }
    ensures after { (d : Term) → result < high → mono_cmp mono.now (get_or terms.now result d).mono ≡ Less }
{
    let mut from = low;
    let mut to = high;
    while from < to {
        let middle = from + (to - from) / 2;
        if is_after(&terms[middle], mono) {
            to = middle;
        } else {
            from = middle + 1;
        }
    }
    to
}

fn is_after(term: &Term, mono: &Mono) -> bool
    ensures { IsTrue result → mono_cmp mono.now term.now.mono ≡ Less }
{
    mono.compare(&term.mono).is_lt()
}

// The terms that are left from a place on, in front of those in place.
fn passed(terms: &mut Vec<Term>, place: Place, first: usize) -> Place
    requires first { first ≤ place.left }
    requires left { place.left + place.more ≤ place.from }
    requires room { place.from ≤ length terms.old.items }
    ensures left { result.left ≡ first }
    ensures more { result.more ≡ place.more }
    ensures from { result.from + (place.left - first) ≡ place.from }
    ensures terms { terms.new.items ≡ take result.from terms.old.items ++ take (place.left - first) (drop first terms.old.items) ++ drop place.from terms.old.items }
{
    let from = place.from - (place.left - first);
    terms.copy_within(first..place.left, from);
    Place {
        left: first,
        more: place.more,
        from,
    }
}

// One step: the later one of the last term that is left and the last other one goes in front of those
// in place, or the sum of both where they have one monomial.
fn woven(terms: &mut Vec<Term>, place: Place, other: &Term) -> Place
    requires more { 0 < place.more }
    requires left { place.left + place.more ≤ place.from }
    requires room { place.from ≤ length terms.old.items }
    ensures { (xs ys : List Term) → IsPhasePoly xs → IsPhasePoly ys → ((d : Term) → other.now ≡ get_or ys (place.more - 1) d) → Weaving xs ys place.left place.more place.from terms.old.items
        → Weaving xs ys result.left result.more result.from terms.new.items × (result.left + result.more < place.left + place.more) }
{
    if place.left == 0 {
        return put(terms, place, other);
    }
    let last = &terms[place.left - 1];
    match last.mono.compare(&other.mono) {
        Ordering::Less => put(terms, place, other),
        Ordering::Equal => met(terms, place, other),
        Ordering::Greater => moved(terms, place),
    }
}

// The other term in front of those in place.
fn put(terms: &mut Vec<Term>, place: Place, other: &Term) -> Place
    requires more { 0 < place.more }
    requires left { place.left + place.more ≤ place.from }
    requires room { place.from ≤ length terms.old.items }
    ensures left { result.left ≡ place.left }
    ensures more { result.more + 1 ≡ place.more }
    ensures from { result.from + 1 ≡ place.from }
    ensures terms { terms.new.items ≡ set terms.old.items result.from other.now }
{
    let from = place.from - 1;
    terms[from] = *other;
    Place {
        left: place.left,
        more: place.more - 1,
        from,
    }
}

// The last term that is left in front of those in place.
fn moved(terms: &mut Vec<Term>, place: Place) -> Place
    requires some { 0 < place.left }
    requires left { place.left + place.more ≤ place.from }
    requires room { place.from ≤ length terms.old.items }
    ensures left { result.left + 1 ≡ place.left }
    ensures more { result.more ≡ place.more }
    ensures from { result.from + 1 ≡ place.from }
    ensures terms { (d : Term) → terms.new.items ≡ set terms.old.items result.from (get_or terms.old.items result.left d) }
{
    let left = place.left - 1;
    let from = place.from - 1;
    terms[from] = terms[left];
    Place {
        left,
        more: place.more,
        from,
    }
}

// The sum of the last term that is left and the other one, which has its monomial, in front of those
// in place, unless they cancel.
fn met(terms: &mut Vec<Term>, place: Place, other: &Term) -> Place
    requires more { 0 < place.more }
    requires some { 0 < place.left }
    requires left { place.left + place.more ≤ place.from }
    requires room { place.from ≤ length terms.old.items }
    requires same { (d : Term) → (get_or terms.old.items (place.left - 1) d).mono ≡ other.now.mono }
    ensures { (xs ys : List Term) → IsPhasePoly xs → IsPhasePoly ys → ((d : Term) → other.now ≡ get_or ys (place.more - 1) d) → Weaving xs ys place.left place.more place.from terms.old.items
        → Weaving xs ys result.left result.more result.from terms.new.items × (result.left + 1 ≡ place.left) × (result.more + 1 ≡ place.more) }
{
    let left = place.left - 1;
    let more = place.more - 1;
    let phase = terms[left].phase.add(other.phase);
    if phase.units() == 0 {
        return Place {
            left,
            more,
            from: place.from,
        };
    }
    let from = place.from - 1;
    terms[from] = Term {
        mono: other.mono,
        phase,
    };
    Place { left, more, from }
}

// The terms in place put behind those that are left.
fn close(terms: &mut Vec<Term>, left: usize, from: usize)
    requires { (left ≤ from) × (from ≤ length terms.old.items) }
    ensures { terms.new.items ≡ take left terms.old.items ++ drop from terms.old.items }
{
    if left == from {
        return;
    }
    let rest = terms.len() - from;
    terms.copy_within(from.., left);
    terms.truncate(left + rest);
}
