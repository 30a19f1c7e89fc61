use super::*;
use ps_bool::BoolPoly;
use ps_mono::Mono;
use ps_phase::{PhasePoly, Term};
use ps_ring::Phase;
use std::alloc::{AllocError, Global};
use std::test::Fail;

// The terms so many eighths of a turn each.
fn eighths(alloc: Global, terms: &[(Mono, u32)]) -> Result<PhasePoly, AllocError> {
    let mut out = Vec::new(alloc);
    for (mono, count) in terms {
        out.push(Term {
            mono: *mono,
            phase: Phase::of(count.wrapping_mul(1 << 29)),
        })?;
    }
    PhasePoly::gather(out)
}

// x0 + x1 by an eighth of a turn, 1 + x0 by a quarter.
#[test]
fn lifts(rt: HostRuntime) -> Result<(), Fail> {
    let alloc = rt.alloc();
    let first = Mono::var(0);
    let second = Mono::var(1);
    let both = first.union(&second);
    let sum = BoolPoly::of(alloc, &first)?.xor(&BoolPoly::of(alloc, &second)?)?;
    let lifted = eighths(alloc, &[(first, 1), (second, 1), (both, 6)])?;
    assert!(rt; lift(alloc, &sum, Phase::of(1 << 29))?.same(&lifted));
    let other = BoolPoly::one(alloc)?.xor(&BoolPoly::of(alloc, &first)?)?;
    let lifted = eighths(alloc, &[(Mono::one(), 2), (first, 6)])?;
    assert!(rt; lift(alloc, &other, Phase::of(1 << 30))?.same(&lifted));
    Ok(())
}

// x0.x1 + x2 + .. + x16 by a quarter of a turn: a quarter at each monomial, and a half at each two.
#[test]
fn lifts_of_many(rt: HostRuntime) -> Result<(), Fail> {
    let alloc = rt.alloc();
    let mut monos = vec![in alloc; Mono::var(0).union(&Mono::var(1))]?;
    for v in 2..17 {
        monos.push(Mono::var(v))?;
    }
    let mut sum = BoolPoly::zero(alloc);
    let mut wanted = Vec::new(alloc);
    for i in 0..monos.len() {
        sum = sum.xor(&BoolPoly::of(alloc, &monos[i])?)?;
        wanted.push((monos[i], 2))?;
        for j in 0..i {
            wanted.push((monos[i].union(&monos[j]), 4))?;
        }
    }
    let lifted = eighths(alloc, &wanted)?;
    assert!(rt; lift(alloc, &sum, Phase::of(1 << 30))?.same(&lifted));
    Ok(())
}

// By x1 + x2: in 1/4*x0, in 1/2*x0, and in x0 + x1.
#[test]
fn counts(rt: HostRuntime) -> Result<(), Fail> {
    let alloc = rt.alloc();
    let first = Mono::var(0);
    let second = Mono::var(1);
    let by = BoolPoly::of(alloc, &second)?.xor(&BoolPoly::var(alloc, 2)?)?;
    assert_eq!(rt; raw_phase(&eighths(alloc, &[(first, 2)])?, 0, &by), 3);
    assert_eq!(rt; raw_phase(&eighths(alloc, &[(first, 4)])?, 0, &by), 2);
    let sum = BoolPoly::of(alloc, &first)?.xor(&BoolPoly::of(alloc, &second)?)?;
    assert_eq!(rt; raw_bool(&sum, 0, &by), 3);
    assert_eq!(rt; raw_term(Phase::of(1 << 28), 64), 679120);
    assert_eq!(rt; raw_term(Phase::of(1), 3_000_000), 1_000_000_000_000);
    Ok(())
}

// In 1/4*x0, x1 + x2 in place of x0.
#[test]
fn substitutes(rt: HostRuntime) -> Result<(), Fail> {
    let alloc = rt.alloc();
    let second = Mono::var(1);
    let third = Mono::var(2);
    let by = BoolPoly::of(alloc, &second)?.xor(&BoolPoly::of(alloc, &third)?)?;
    let poly = eighths(alloc, &[(Mono::var(0), 2)])?;
    let both = second.union(&third);
    let wanted = eighths(alloc, &[(second, 2), (third, 2), (both, 4)])?;
    assert!(rt; subst_phase(alloc, &poly, 0, &by)?.same(&wanted));
    Ok(())
}

// The product of the variables whose bits are 1.
fn product(bits: u16) -> Mono {
    let mut out = Mono::one();
    for v in 0..16u16 {
        if bits >> v & 1 == 1 {
            out = out.union(&Mono::var(v));
        }
    }
    out
}

// The terms, each a product with so many eighths of a turn.
fn phase_of(alloc: Global, terms: &[(u16, u32)]) -> Result<PhasePoly, AllocError> {
    let mut out = Vec::new(alloc);
    for (bits, count) in terms {
        out.push((product(*bits), *count))?;
    }
    eighths(alloc, &out)
}

// The sum modulo 2 of these products.
fn output(alloc: Global, products: &[u16]) -> Result<BoolPoly, AllocError> {
    let mut out = BoolPoly::zero(alloc);
    for bits in products {
        out = out.xor(&BoolPoly::of(alloc, &product(*bits))?)?;
    }
    Ok(out)
}

// The text of the sum with these parts is as given; an empty one stands for no sum.
fn is_text(
    alloc: Global,
    numbers: (u32, u32, i32),
    phase: PhasePoly,
    outs: Outputs,
    wanted: &str,
) -> Result<bool, AllocError> {
    let (n, m, k) = numbers;
    match PathSum::of(n, m, k, phase, outs) {
        Some(sum) => Ok(sum.text(alloc)?.as_slice() == wanted.as_bytes()),
        None => Ok(wanted.is_empty()),
    }
}

// Without a path variable that stands nowhere.
#[test]
fn renames(rt: HostRuntime) -> Result<(), Fail> {
    let alloc = rt.alloc();
    let phase = phase_of(alloc, &[(0b101, 4)])?;
    let outs = Outputs::of(Vec::new(alloc));
    let sum = PathSum::of(1, 2, 2, phase, outs).expect(&rt, "a sum");
    assert_eq!(rt; sum.size(), 1);
    assert!(rt; !sum.phase.contains(1));
    let text = sum.rename(alloc, 0)?.text(alloc)?;
    assert!(rt; text.as_slice() == b"k=2 m=1 P=1/2*x0.y0 f=-".as_slice());
    Ok(())
}

// A Hadamard gate; a closed sum with a negative scale; no phase, and an output that is 0 beside one
// with a constant.
#[test]
fn texts(rt: HostRuntime) -> Result<(), Fail> {
    let alloc = rt.alloc();
    let terms = [(0, 7), (1, 2), (2, 2), (4, 2), (3, 4), (6, 4)];
    let phase = phase_of(alloc, &terms)?;
    let outs = Outputs::of(vec![in alloc; output(alloc, &[4])?]?);
    let wanted = "k=2 m=2 P=7/8+1/4*x0+1/4*y0+1/4*y1+1/2*x0.y0+1/2*y0.y1 f=y1";
    assert!(rt; is_text(alloc, (1, 2, 2), phase, outs, wanted)?);
    let phase = PhasePoly::constant(alloc, Phase::of(1))?;
    let outs = Outputs::of(Vec::new(alloc));
    let wanted = "k=-20 m=0 P=1/4294967296 f=-";
    assert!(rt; is_text(alloc, (1, 0, -20), phase, outs, wanted)?);
    let second = output(alloc, &[0, 1, 0x1002])?;
    let outs = Outputs::of(vec![in alloc; BoolPoly::zero(alloc), second]?);
    let wanted = "k=0 m=11 P=0 f=0,1+x0+x1.y10";
    assert!(rt; is_text(alloc, (2, 11, 0), PhasePoly::zero(alloc), outs, wanted)?);
    Ok(())
}

// Parts that make no sum: no qubit, an output for one of two, and a name that is not there.
#[test]
fn refuses(rt: HostRuntime) -> Result<(), Fail> {
    let alloc = rt.alloc();
    let outs = Outputs::of(Vec::new(alloc));
    assert!(rt; is_text(alloc, (0, 0, 0), PhasePoly::zero(alloc), outs, "")?);
    let outs = Outputs::of(vec![in alloc; BoolPoly::zero(alloc)]?);
    assert!(rt; is_text(alloc, (2, 0, 0), PhasePoly::zero(alloc), outs, "")?);
    let outs = Outputs::of(Vec::new(alloc));
    assert!(rt; is_text(alloc, (2, 1, 0), phase_of(alloc, &[(8, 1)])?, outs, "")?);
    Ok(())
}

#[test]
fn faults(rt: HostRuntime) -> Result<(), Fail> {
    let fault = JoinFault::from(AllocError);
    assert_eq!(rt; fault, JoinFault::Memory);
    let passed = Passed {
        what: What::Variables,
        count: 513,
    };
    assert!(rt; JoinFault::Passed(passed) != fault);
    Ok(())
}
