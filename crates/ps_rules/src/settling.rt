ghost use Rattle.std.specs.Prelude.{◌≡◌, ◌<◌, ◌≤◌, ◌+◌, ℕ, true, false, not, ◌&&◌, length, get_or, set};
ghost use Rattle.ps_mono.specs.Sets.{stands};
ghost use Rattle.ps_bool.specs.Polys.{occurs};
ghost use Rattle.ps_phase.specs.Phases.{phase_occurs};
ghost use Rattle.ps_phase.specs.declared.terms.Term.{Term};
ghost use Rattle.ps_sum.specs.Outs.{outs_occur};
ghost use Rattle.ps_rules.specs.Closing.{closed_mono, settled_terms, closed_monos, closed_polys};

use ps_bool::BoolPoly;
use ps_mono::{Closing, ClosingPair, Mono};
use ps_phase::{PhasePoly, Term};
use ps_sum::Outputs;
use std::alloc::Global;
use std::mem;

// Makes the names above the one that is gone one lower; that one does not stand in the monomial.
#[inline]
fn close_mono(mono: &mut Mono, closing: Closing)
    requires apart { stands closing.gone mono.old ≡ false }
    requires below { (w : ℕ) → closing.names ≤ w → stands w mono.old ≡ false }
    ensures { mono.new ≡ closed_mono closing.gone mono.old }
{
    mono.known();
    closing.close(mono);
}

// Closes the names up for both that are gone, where neither stands in the monomial.
#[inline]
fn close_twice(mono: &mut Mono, pair: &ClosingPair)
    requires low { stands pair.now.low mono.old ≡ false }
    requires high { stands pair.now.high mono.old ≡ false }
    requires below { (w : ℕ) → pair.now.names ≤ w → stands w mono.old ≡ false }
    ensures { mono.new ≡ closed_mono pair.now.low (closed_mono pair.now.high mono.old) }
{
    mono.known();
    pair.close(mono);
}

// Copies term i to a place that does not come after it.
#[inline]
fn move_term(terms: &mut Vec<Term>, i: usize, place: usize)
    requires inside { i < length terms.old.items }
    requires order { place ≤ i }
    ensures { (d : Term) → terms.new.items ≡ set terms.old.items place (get_or terms.old.items i d) }
{
    if place < i {
        terms[place] = terms[i];
    }
}

// Drops the terms with the variable that is gone, and closes the names of the others up, in place.
fn close_terms(terms: &mut Vec<Term>, closing: Closing)
    requires { (u : ℕ) → closing.names ≤ u → phase_occurs u terms.old.items ≡ false }
    ensures { terms.new.items ≡ settled_terms closing.gone terms.old.items }
{
    let mut kept = 0;
    for i in 0..terms.len() {
        if !closing.meets(&terms[i].mono) {
            move_term(terms, i, kept);
            close_mono(&mut terms[kept].mono, closing);
            kept += 1;
        }
    }
    terms.truncate(kept);
}

/// The terms without the variable that is gone, with the names above it one lower. It takes no
/// memory.
pub fn closed_phase(phase: PhasePoly, closing: Closing) -> PhasePoly
    requires { (u : ℕ) → closing.names ≤ u → phase_occurs u phase ≡ false }
    ensures { result ≡ settled_terms closing.gone phase }
{
    let mut terms = phase.into_terms();
    close_terms(&mut terms, closing);
    PhasePoly::ordered(terms)
}

// Whether neither variable stands in the monomial.
#[inline]
fn is_apart(mono: &Mono, high: Closing, low: Closing) -> bool
    ensures { result ≡ (not (stands high.gone mono.now) && not (stands low.gone mono.now)) }
{
    !high.meets(mono) && !low.meets(mono)
}

// Drops the terms with either variable, and closes the names of the others up twice, in place.
fn close_terms_twice(terms: &mut Vec<Term>, high: Closing, low: Closing)
    requires order { low.gone < high.gone }
    requires names { high.names ≡ low.names + 1 }
    requires below { (u : ℕ) → high.names ≤ u → phase_occurs u terms.old.items ≡ false }
    ensures { terms.new.items ≡ settled_terms low.gone (settled_terms high.gone terms.old.items) }
{
    let pair = ClosingPair::of(high, low);
    let mut kept = 0;
    for i in 0..terms.len() {
        if is_apart(&terms[i].mono, high, low) {
            move_term(terms, i, kept);
            close_twice(&mut terms[kept].mono, &pair);
            kept += 1;
        }
    }
    terms.truncate(kept);
}

/// What closing the names up for `high` and then for `low` gives, in one pass. It takes no memory.
pub fn closed_phase_twice(phase: PhasePoly, high: Closing, low: Closing) -> PhasePoly
    requires order { low.gone < high.gone }
    requires names { high.names ≡ low.names + 1 }
    requires below { (u : ℕ) → high.names ≤ u → phase_occurs u phase ≡ false }
    ensures { result ≡ settled_terms low.gone (settled_terms high.gone phase) }
{
    let mut terms = phase.into_terms();
    close_terms_twice(&mut terms, high, low);
    PhasePoly::ordered(terms)
}

// Closes the names of each monomial up, in place; the variable that is gone stands in none.
fn close_monos(monos: &mut Vec<Mono>, closing: Closing)
    requires apart { occurs closing.gone monos.old.items ≡ false }
    requires below { (u : ℕ) → closing.names ≤ u → occurs u monos.old.items ≡ false }
    ensures { monos.new.items ≡ closed_monos closing.gone monos.old.items }
{
    for mono in monos.iter_mut() {
        close_mono(mono, closing);
    }
}

// The polynomial with the names above the one that is gone one lower; that one does not stand in it.
fn closed_poly(poly: BoolPoly, closing: Closing) -> BoolPoly
    requires apart { occurs closing.gone poly ≡ false }
    requires below { (u : ℕ) → closing.names ≤ u → occurs u poly ≡ false }
    ensures { result ≡ closed_monos closing.gone poly }
{
    let mut monos = poly.into_monos();
    close_monos(&mut monos, closing);
    BoolPoly::ordered(monos)
}

// The same of each output, in place.
fn close_polys(alloc: Global, polys: &mut Vec<BoolPoly>, closing: Closing)
    requires apart { outs_occur closing.gone polys.old.items ≡ false }
    requires below { (u : ℕ) → closing.names ≤ u → outs_occur u polys.old.items ≡ false }
    ensures { polys.new.items ≡ closed_polys closing.gone polys.old.items }
{
    for poly in polys.iter_mut() {
        let old = mem::replace(poly, BoolPoly::zero(alloc));
        *poly = closed_poly(old, closing);
    }
}

/// The outputs with the names above the one that is gone one lower; that one stands in none. It
/// takes no memory.
pub fn closed_outs(alloc: Global, outs: Outputs, closing: Closing) -> Outputs
    requires apart { outs_occur closing.gone outs ≡ false }
    requires below { (u : ℕ) → closing.names ≤ u → outs_occur u outs ≡ false }
    ensures { result ≡ closed_polys closing.gone outs }
{
    if closing.is_last() {
        return outs;
    }
    let mut polys = outs.into_polys();
    close_polys(alloc, &mut polys, closing);
    Outputs::of(polys)
}

// Closes the names of each monomial up twice, in place; neither variable stands in one.
fn close_monos_twice(monos: &mut Vec<Mono>, high: Closing, low: Closing)
    requires order { low.gone < high.gone }
    requires names { high.names ≡ low.names + 1 }
    requires high { occurs high.gone monos.old.items ≡ false }
    requires low { occurs low.gone monos.old.items ≡ false }
    requires below { (u : ℕ) → high.names ≤ u → occurs u monos.old.items ≡ false }
    ensures { monos.new.items ≡ closed_monos low.gone (closed_monos high.gone monos.old.items) }
{
    let pair = ClosingPair::of(high, low);
    for mono in monos.iter_mut() {
        close_twice(mono, &pair);
    }
}

// The polynomial with the names closed up twice.
fn closed_poly_twice(poly: BoolPoly, high: Closing, low: Closing) -> BoolPoly
    requires order { low.gone < high.gone }
    requires names { high.names ≡ low.names + 1 }
    requires high { occurs high.gone poly ≡ false }
    requires low { occurs low.gone poly ≡ false }
    requires below { (u : ℕ) → high.names ≤ u → occurs u poly ≡ false }
    ensures { result ≡ closed_monos low.gone (closed_monos high.gone poly) }
{
    let mut monos = poly.into_monos();
    close_monos_twice(&mut monos, high, low);
    BoolPoly::ordered(monos)
}

// The same of each output, in place.
fn close_polys_twice(alloc: Global, polys: &mut Vec<BoolPoly>, high: Closing, low: Closing)
    requires order { low.gone < high.gone }
    requires names { high.names ≡ low.names + 1 }
    requires high { outs_occur high.gone polys.old.items ≡ false }
    requires low { outs_occur low.gone polys.old.items ≡ false }
    requires below { (u : ℕ) → high.names ≤ u → outs_occur u polys.old.items ≡ false }
    ensures { polys.new.items ≡ closed_polys low.gone (closed_polys high.gone polys.old.items) }
{
    for poly in polys.iter_mut() {
        let old = mem::replace(poly, BoolPoly::zero(alloc));
        *poly = closed_poly_twice(old, high, low);
    }
}

/// What closing the names of the outputs up for `high` and then for `low` gives, in one pass;
/// neither stands in one. It takes no memory.
pub fn closed_outs_twice(alloc: Global, outs: Outputs, high: Closing, low: Closing) -> Outputs
    requires order { low.gone < high.gone }
    requires names { high.names ≡ low.names + 1 }
    requires high { outs_occur high.gone outs ≡ false }
    requires low { outs_occur low.gone outs ≡ false }
    requires below { (u : ℕ) → high.names ≤ u → outs_occur u outs ≡ false }
    ensures { result ≡ closed_polys low.gone (closed_polys high.gone outs) }
{
    if low.is_last() {
        return outs;
    }
    let mut polys = outs.into_polys();
    close_polys_twice(alloc, &mut polys, high, low);
    Outputs::of(polys)
}
