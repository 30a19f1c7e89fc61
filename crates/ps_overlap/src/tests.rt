ghost use Rattle.std.specs.Prelude.{◌≡◌, ◌<◌, [], IfOk, IfSome};

use super::*;
use ps_bool::BoolPoly;
use ps_mono::{Bits, Mono};
use ps_phase::{PhasePoly, Term};
use ps_ring::Phase;
use ps_sum::{JoinFault, Outputs, Passed, PathSum, What};
use std::alloc::{AllocError, Global};
use std::test::Fail;

// The product of the variables whose bits are 1.
fn product(bits: u16) -> Mono {
    let mut out = Mono::one();
    for v in 0..16u16 {
        if bits >> v & 1 == 1 {
            out = out.union(&Mono::var(v));
        }
    }
    out
}

// The terms, each a product with so many eighths of a turn.
fn phase_of(alloc: Global, terms: &[(u16, u32)]) -> Result<PhasePoly, AllocError> {
    let mut out = Vec::new(alloc);
    for (bits, count) in terms {
        out.push(Term {
            mono: product(*bits),
            phase: Phase::of(count.wrapping_mul(1 << 29)),
        })?;
    }
    PhasePoly::gather(out)
}

// The sum with one output, a variable.
fn open(
    alloc: Global,
    numbers: (u32, i32),
    terms: &[(u16, u32)],
    v: u16,
) -> Result<Option<PathSum>, AllocError>
    requires { v < 512 }
{
    let (m, k) = numbers;
    let outs = Outputs::of(vec![in alloc; BoolPoly::var(alloc, v)?]?);
    Ok(PathSum::of(1, m, k, phase_of(alloc, terms)?, outs))
}

// The sum without outputs.
fn closed(
    alloc: Global,
    numbers: (u32, u32, i32),
    terms: &[(u16, u32)],
) -> Result<Option<PathSum>, AllocError>
    ensures { IfOk result (λ o. IfSome o (λ s. s.outs ≡ [])) }
{
    let (n, m, k) = numbers;
    let outs = Outputs::of(Vec::new(alloc));
    Ok(PathSum::of(n, m, k, phase_of(alloc, terms)?, outs))
}

// The overlap of two sums with outputs and small scales.
fn overlapped(alloc: Global, first: &PathSum, second: &PathSum) -> Result<PathSum, JoinFault> {
    if first.n != second.n || first.outs.polys().is_empty() || second.outs.polys().is_empty() {
        return Err(JoinFault::Memory);
    }
    if first.k < -100 || first.k > 100 || second.k < -100 || second.k > 100 {
        return Err(JoinFault::Memory);
    }
    overlap(alloc, first, second)
}

// The path variable of a closed sum that vanishes, and the point that shows it.
fn shown(sum: &PathSum) -> Option<(u16, Bits)>
    requires { sum.now.outs ≡ [] }
{
    let y = vanishing(sum)?;
    let mut at = Bits::zero();
    at.set(3, true);
    least_point(sum, y, &mut at);
    Some((y, at))
}

// A Hadamard gate against no gate.
#[test]
fn overlaps(rt: HostRuntime) -> Result<(), Fail> {
    let alloc = rt.alloc();
    let gate = open(alloc, (1, 1), &[(3, 4)], 1)?.expect(&rt, "a sum");
    let none = open(alloc, (0, 0), &[], 0)?.expect(&rt, "a sum");
    let sum = overlapped(alloc, &gate, &none).expect(&rt, "an overlap");
    let text = sum.text(alloc)?;
    let wanted = b"k=3 m=2 P=1/2*x0.y0+1/2*x0.y1+1/2*y0.y1 f=-";
    assert!(rt; text.as_slice() == wanted.as_slice());
    let turned = open(alloc, (1, 0), &[(2, 1)], 0)?.expect(&rt, "a sum");
    let sum = overlapped(alloc, &turned, &gate).expect(&rt, "an overlap");
    let text = sum.text(alloc)?;
    let wanted = b"k=3 m=3 P=7/8*y0+1/2*x0.y1+1/2*x0.y2+1/2*y1.y2 f=-";
    assert!(rt; text.as_slice() == wanted.as_slice());
    Ok(())
}

// 512 variables, and one more.
#[test]
fn limits(rt: HostRuntime) -> Result<(), Fail> {
    let alloc = rt.alloc();
    let none = open(alloc, (0, 0), &[], 0)?.expect(&rt, "a sum");
    let most = open(alloc, (510, 0), &[], 0)?.expect(&rt, "a sum");
    assert!(rt; overlapped(alloc, &most, &none).is_ok());
    let more = open(alloc, (511, 0), &[], 0)?.expect(&rt, "a sum");
    let passed = Passed {
        what: What::Variables,
        count: 513,
    };
    match overlapped(alloc, &none, &more) {
        Ok(_sum) => assert!(rt; false),
        Err(fault) => assert_eq!(rt; fault, JoinFault::Passed(passed)),
    }
    Ok(())
}

// Of x0 and x1 the second; of a constant and x0 none; two path variables in one term; a quarter.
#[test]
fn vanish(rt: HostRuntime) -> Result<(), Fail> {
    let alloc = rt.alloc();
    let terms = [(1, 2), (0b0110, 4), (0b0111, 4)];
    let sum = closed(alloc, (2, 1, 3), &terms)?.expect(&rt, "a sum");
    let (y, at) = shown(&sum).expect(&rt, "a point");
    assert!(rt; y == 0 && !at.get(0) && at.get(1) && !at.get(2) && !at.get(3));
    let terms = [(0b010, 2), (0b100, 4), (0b101, 4)];
    let sum = closed(alloc, (1, 2, 0), &terms)?.expect(&rt, "a sum");
    let (y, at) = shown(&sum).expect(&rt, "a point");
    assert!(rt; y == 1 && !at.get(0) && !at.get(2) && !at.get(3));
    let sum = closed(alloc, (1, 2, 0), &[(0b110, 4), (1, 4)])?.expect(&rt, "a sum");
    assert!(rt; vanishing(&sum).is_none());
    let sum = closed(alloc, (1, 1, 0), &[(0b11, 4), (0b10, 2)])?.expect(&rt, "a sum");
    assert!(rt; vanishing(&sum).is_none());
    Ok(())
}

// A scale; and the second input beside both.
#[test]
fn first_points(rt: HostRuntime) -> Result<(), Fail> {
    let alloc = rt.alloc();
    let mut at = Bits::zero();
    at.set(3, true);
    let sum = closed(alloc, (2, 0, 2), &[(1, 4)])?.expect(&rt, "a sum");
    assert!(rt; sum.m == 0);
    assert!(rt; sum.k != 0);
    first_point(&sum, &mut at);
    assert!(rt; !at.get(0) && !at.get(3));
    let sum = closed(alloc, (2, 0, 0), &[(2, 2), (3, 4)])?.expect(&rt, "a sum");
    assert!(rt; sum.m == 0);
    assert!(rt; sum.phase.count() != 0);
    first_point(&sum, &mut at);
    assert!(rt; !at.get(0) && at.get(1) && !at.get(3));
    Ok(())
}

// One phase at all inputs, also none; and of a constant, x1 and both inputs the second.
#[test]
fn turning_points(rt: HostRuntime) -> Result<(), Fail> {
    let alloc = rt.alloc();
    let none = closed(alloc, (2, 0, 0), &[])?.expect(&rt, "a sum");
    assert!(rt; constant_phase(&none) == Some(Phase::of(0)));
    let sum = closed(alloc, (2, 0, 0), &[(0, 3)])?.expect(&rt, "a sum");
    assert!(rt; constant_phase(&sum) == Some(Phase::of(3 << 29)));
    let sum = closed(alloc, (2, 0, 0), &[(0, 3), (2, 1), (3, 1)])?.expect(&rt, "a sum");
    let mut at = Bits::zero();
    at.set(3, true);
    match constant_phase(&sum) {
        Some(_) => assert!(rt; false),
        None => turning_point(&sum, &mut at),
    }
    assert!(rt; !at.get(0) && at.get(1) && !at.get(3));
    Ok(())
}
