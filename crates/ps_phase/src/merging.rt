ghost use Rattle.std.specs.Prelude.{◌≡◌, ℕ, ◌<◌, Bool, [], ◌++◌, IfOk, OnOk, false};
ghost use Rattle.std.specs.List.{All};
ghost use Rattle.ps_mono.specs.Sets.{stands};
ghost use Rattle.ps_phase.specs.Adding.{put_term, add_terms, scaled_terms, terms_where};

use super::terms::Term;
use ps_mono::Mono;
use ps_ring::Phase;
use std::alloc::{AllocError, Global};
use std::cmp::Ordering;

// The term at the end, where its phase is not zero.
pub(crate) fn push_term(out: &mut Vec<Term>, mono: &Mono, phase: Phase) -> Result<(), AllocError>
    ensures items { OnOk result (out.new.items ≡ out.old.items ++ put_term mono.now phase []) }
    ensures small { phase < 4294967296 }
{
    if phase.units() != 0 {
        out.push(Term { mono: *mono, phase })?;
    }
    Ok(())
}

// Both lists in order, terms of one monomial added.
pub(crate) fn added(alloc: Global, xs: &[Term], ys: &[Term]) -> Result<Vec<Term>, AllocError>
    ensures { IfOk result (λ v. v.items ≡ add_terms xs.now ys.now) }
{
    let mut out = Vec::with_capacity(alloc, xs.len() + ys.len())?;
    let mut i = 0;
    let mut j = 0;
    while i < xs.len() && j < ys.len() {
        let x = &xs[i];
        let y = &ys[j];
        match x.mono.compare(&y.mono) {
            Ordering::Less => {
                out.push(*x)?;
                i += 1;
            }
            Ordering::Greater => {
                out.push(*y)?;
                j += 1;
            }
            Ordering::Equal => {
                push_term(&mut out, &x.mono, x.phase.add(y.phase))?;
                i += 1;
                j += 1;
            }
        }
    }
    out.extend_from_slice(&xs[i..])?;
    out.extend_from_slice(&ys[j..])?;
    Ok(out)
}

// Each phase so many times, without those that come to zero.
pub(crate) fn scaled(alloc: Global, terms: &[Term], by: u32) -> Result<Vec<Term>, AllocError>
    ensures { IfOk result (λ v. v.items ≡ scaled_terms by terms.now) }
{
    let mut out = Vec::with_capacity(alloc, terms.len())?;
    for term in terms {
        let units = by.wrapping_mul(term.phase.units());
        push_term(&mut out, &term.mono, Phase::of(units))?;
    }
    Ok(out)
}

// The terms of which it is so, or not so, that they contain v.
pub(crate) fn selected(
    alloc: Global,
    terms: &[Term],
    v: u16,
    with: bool,
) -> Result<Vec<Term>, AllocError>
    requires { v < 512 }
    ensures { IfOk result (λ w. w.items ≡ terms_where with v terms.now) }
{
    let mut out = Vec::with_capacity(alloc, if with { 0 } else { terms.len() })?;
    for term in terms {
        if term.mono.contains(v) == with {
            out.push(*term)?;
        }
    }
    Ok(out)
}
