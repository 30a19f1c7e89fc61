use super::*;
use ps_mono::{Bits, Mono};
use ps_ring::Phase;
use std::alloc::{AllocError, Global};
use std::test::Fail;

fn turn(alloc: Global, mono: &Mono, units: u32) -> Result<PhasePoly, AllocError> {
    let mut terms = Vec::new(alloc);
    terms.push(Term {
        mono: *mono,
        phase: Phase::of(units),
    })?;
    PhasePoly::gather(terms)
}

// Half a turn twice is none; an eighth and seven eighths; three times an eighth; the terms with x1
// of 1/2*x0 + 1/4*x0.x1.
#[test]
fn sums(rt: HostRuntime) -> Result<(), Fail> {
    let alloc = rt.alloc();
    let half = PhasePoly::constant(alloc, Phase::of(1 << 31))?;
    assert!(rt; half.add(&half)?.same(&PhasePoly::zero(alloc)));
    let first = Mono::var(0);
    let eighth = turn(alloc, &first, 1 << 29)?;
    assert!(rt; eighth.neg()?.same(&turn(alloc, &first, 7 << 29)?));
    assert!(rt; eighth.scale(3)?.same(&turn(alloc, &first, 3 << 29)?));
    let both = first.union(&Mono::var(1));
    let product = turn(alloc, &both, 1 << 30)?;
    let sum = product.add(&turn(alloc, &first, 1 << 31)?)?;
    assert!(rt; sum.terms_with(1)?.same(&product));
    Ok(())
}

#[test]
fn looks(rt: HostRuntime) -> Result<(), Fail> {
    let alloc = rt.alloc();
    let first = Mono::var(0);
    let both = first.union(&Mono::var(1));
    let mut sum = turn(alloc, &both, 1 << 30)?;
    sum.add_to(&turn(alloc, &first, 1 << 31)?)?;
    assert_eq!(rt; sum.count(), 2);
    assert_eq!(rt; sum.terms().len(), 2);
    let (mono, phase) = sum.term(1);
    assert!(rt; *mono == both);
    assert_eq!(rt; phase.units(), 1 << 30);
    assert_eq!(rt; sum.coefficient(&first).units(), 1 << 31);
    assert_eq!(rt; sum.coefficient(&Mono::one()).units(), 0);
    assert!(rt; sum.contains(1));
    assert!(rt; !sum.contains(2));
    let mut at = Bits::zero();
    at.set(0, true);
    assert_eq!(rt; sum.copy()?.eval(&at).units(), 1 << 31);
    at.set(1, true);
    assert_eq!(rt; sum.eval(&at).units(), 3 << 30);
    assert!(rt; PhasePoly::ordered(sum.copy()?.into_terms()).same(&sum));
    sum.add_to(&turn(alloc, &first, 1 << 31)?)?;
    assert_eq!(rt; sum.count(), 1);
    Ok(())
}

// x9 to x0, x0 to x9, and products of x118 with x9, x9.x8, and so on, which are of up to eleven variables.
fn many(alloc: Global) -> Result<Vec<Term>, AllocError> {
    let mut terms = Vec::new(alloc);
    let mut wide = Mono::var(118);
    for v in 0..10u16 {
        let last = Mono::var(9 - v);
        wide = wide.union(&last);
        terms.push(Term {
            mono: wide,
            phase: Phase::of(1 << 29),
        })?;
        terms.push(Term {
            mono: last,
            phase: Phase::of(1 << 29),
        })?;
        terms.push(Term {
            mono: Mono::var(v),
            phase: Phase::of(1 << 28),
        })?;
    }
    terms.push(Term {
        mono: wide,
        phase: Phase::of(7 << 29),
    })?;
    Ok(terms)
}

// Of 31 terms each of x0 to x9 stands there twice, and the product of all cancels.
#[test]
fn gathers(rt: HostRuntime) -> Result<(), Fail> {
    let alloc = rt.alloc();
    let sum = PhasePoly::gather(many(alloc)?)?;
    assert_eq!(rt; sum.count(), 19);
    let (first, phase) = sum.term(0);
    assert!(rt; *first == Mono::var(0));
    assert_eq!(rt; phase.units(), 3 << 28);
    let pair = Mono::var(118).union(&Mono::var(9));
    let (eleventh, eighth) = sum.term(10);
    assert!(rt; *eleventh == pair);
    assert_eq!(rt; eighth.units(), 1 << 29);
    assert_eq!(rt; sum.coefficient(&Mono::var(7)).units(), 3 << 28);
    let (last, _) = sum.term(18);
    assert_eq!(rt; last.degree(), 10);
    assert!(rt; !last.contains(0));
    Ok(())
}

// The variables from 10 to 58 without 30, each once by the least phase.
fn spread(alloc: Global) -> Result<PhasePoly, AllocError> {
    let mut terms = Vec::new(alloc);
    for v in 10..59u16 {
        if v != 30 {
            terms.push(Term {
                mono: Mono::var(v),
                phase: Phase::of(1),
            })?;
        }
    }
    PhasePoly::gather(terms)
}

// Whether two terms that are added to many in their memory give so many, and the same as beside them.
fn comes_to(
    alloc: Global,
    first: &PhasePoly,
    second: &PhasePoly,
    count: u64,
) -> Result<bool, AllocError> {
    let few = first.add(second)?;
    let many = spread(alloc)?;
    let mut sum = many.copy()?;
    sum.add_to(&few)?;
    Ok(sum.count() == count && sum.same(&many.add(&few)?))
}

// Two terms among 48: before all, between them, behind all, on one of them, and against one.
#[test]
fn few_to_many(rt: HostRuntime) -> Result<(), Fail> {
    let alloc = rt.alloc();
    let front = PhasePoly::constant(alloc, Phase::of(1))?;
    let middle = turn(alloc, &Mono::var(30), 1)?;
    let behind = turn(alloc, &Mono::var(0).union(&Mono::var(1)), 1)?;
    let on = turn(alloc, &Mono::var(20), 1)?;
    let against = turn(alloc, &Mono::var(40), u32::MAX)?;
    let against_first = turn(alloc, &Mono::var(10), u32::MAX)?;
    let against_last = turn(alloc, &Mono::var(58), u32::MAX)?;
    assert!(rt; comes_to(alloc, &front, &behind, 50)?);
    assert!(rt; comes_to(alloc, &middle, &on, 49)?);
    assert!(rt; comes_to(alloc, &against, &behind, 48)?);
    assert!(rt; comes_to(alloc, &front, &against_first, 48)?);
    assert!(rt; comes_to(alloc, &against_first, &against_last, 46)?);
    Ok(())
}
