ghost use Rattle.std.specs.Prelude.{◌≡◌, ◌<◌};
ghost use Rattle.ps_rules.specs.Rules.{first_of};

use super::*;
use ps_bool::BoolPoly;
use ps_mono::Mono;
use ps_phase::{PhasePoly, Term};
use ps_ring::Phase;
use ps_sum::{Outputs, Passed, PathSum, What};
use std::alloc::{AllocError, Global};
use std::test::Fail;

// The product of the variables whose bits are 1.
fn product(bits: u16) -> Mono {
    let mut out = Mono::one();
    for v in 0..16u16 {
        if bits >> v & 1 == 1 {
            out = out.union(&Mono::var(v));
        }
    }
    out
}

// The terms, each a product with so many eighths of a turn.
fn phase_of(alloc: Global, terms: &[(u16, u32)]) -> Result<PhasePoly, AllocError> {
    let mut out = Vec::new(alloc);
    for (bits, count) in terms {
        out.push(Term {
            mono: product(*bits),
            phase: Phase::of(count.wrapping_mul(1 << 29)),
        })?;
    }
    PhasePoly::gather(out)
}

// The sum on one qubit whose output is a variable.
fn open(
    alloc: Global,
    numbers: (u32, i32),
    terms: &[(u16, u32)],
    v: u16,
) -> Result<Option<PathSum>, AllocError>
    requires { v < 512 }
{
    let (m, k) = numbers;
    let outs = Outputs::of(vec![in alloc; BoolPoly::var(alloc, v)?]?);
    Ok(PathSum::of(1, m, k, phase_of(alloc, terms)?, outs))
}

// The sum without outputs.
fn closed(alloc: Global, numbers: (u32, u32, i32), phase: PhasePoly) -> Option<PathSum> {
    let (n, m, k) = numbers;
    PathSum::of(n, m, k, phase, Outputs::of(Vec::new(alloc)))
}

// Whether both calls give the sum with this text.
fn gives(alloc: Global, sum: PathSum, step: Step, wanted: &str) -> Result<bool, AllocError> {
    if sum.k < -100 {
        return Ok(false);
    }
    match apply(alloc, &sum, step) {
        Ok(next) => {
            if next.text(alloc)?.as_slice() != wanted.as_bytes() {
                return Ok(false);
            }
        }
        Err(_) => return Ok(false),
    }
    match rewrite(alloc, sum, step) {
        Ok(next) => Ok(next.text(alloc)?.as_slice() == wanted.as_bytes()),
        Err(_) => Ok(false),
    }
}

// Whether the first step, taken without a further look, gives the sum with this text.
fn advances(alloc: Global, sum: PathSum, wanted: &str) -> Result<bool, AllocError> {
    if sum.k < -100 {
        return Ok(false);
    }
    match find(&sum) {
        None => Ok(false),
        Some(step) => match advance(alloc, sum, step) {
            Ok(next) => Ok(next.text(alloc)?.as_slice() == wanted.as_bytes()),
            Err(_) => Ok(false),
        },
    }
}

// Whether both calls refuse the step for this reason, and the sum comes back as it was.
fn refuses(
    alloc: Global,
    sum: PathSum,
    step: Step,
    wanted: ApplyFault,
) -> Result<bool, AllocError> {
    if sum.k < -100 {
        return Ok(false);
    }
    match apply(alloc, &sum, step) {
        Ok(_next) => return Ok(false),
        Err(fault) => {
            if fault != wanted {
                return Ok(false);
            }
        }
    }
    let text = sum.text(alloc)?;
    match rewrite(alloc, sum, step) {
        Ok(_next) => Ok(false),
        Err(Refused::NotARedex(back)) => Ok(back.text(alloc)?.as_slice() == text.as_slice()),
        Err(Refused::Passed { passed, sum: back }) => {
            Ok(
                ApplyFault::Passed(passed) == wanted
                    && back.text(alloc)?.as_slice() == text.as_slice(),
            )
        }
        Err(Refused::Memory) => Ok(false),
    }
}

// A variable that stands nowhere; one that turns by an eighth alone; a quarter of a turn.
#[test]
fn one_variable(rt: HostRuntime) -> Result<(), Fail> {
    let alloc = rt.alloc();
    let sum = open(alloc, (1, 2), &[], 0)?.expect(&rt, "a sum");
    assert_eq!(rt; find(&sum), Some(Step::Elim { y0: 0 }));
    assert!(rt; gives(alloc, sum, Step::Elim { y0: 0 }, "k=0 m=0 P=0 f=x0")?);
    let phase = phase_of(alloc, &[(2, 7)])?;
    let sum = closed(alloc, (1, 1, 2), phase).expect(&rt, "a sum");
    assert_eq!(rt; find(&sum), None);
    let sum = open(alloc, (1, 1), &[(2, 6), (3, 4)], 0)?.expect(&rt, "a sum");
    assert_eq!(rt; find(&sum), Some(Step::Omega { y0: 0 }));
    assert!(rt;
        gives(
            alloc,
            sum,
            Step::Omega { y0: 0 },
            "k=0 m=0 P=7/8+1/4*x0 f=x0"
        )?
    );
    Ok(())
}

// A Hadamard gate as it is read, and two of them.
#[test]
fn hadamard(rt: HostRuntime) -> Result<(), Fail> {
    let alloc = rt.alloc();
    let terms = [(0, 7), (1, 2), (2, 2), (4, 2), (3, 4), (6, 4)];
    let leaf = open(alloc, (2, 2), &terms, 2)?.expect(&rt, "a sum");
    assert_eq!(rt; find(&leaf), Some(Step::Omega { y0: 0 }));
    assert!(rt;
        gives(
            alloc,
            leaf,
            Step::Omega { y0: 0 },
            "k=1 m=1 P=1/2*x0.y0 f=y0"
        )?
    );
    let two = open(alloc, (2, 2), &[(3, 4), (6, 4)], 2)?.expect(&rt, "a sum");
    assert_eq!(rt; find(&two), Some(Step::Hh { y0: 0, y1: 1 }));
    assert!(rt; gives(alloc, two, Step::Hh { y0: 0, y1: 1 }, "k=0 m=0 P=0 f=x0")?);
    // the second variable is the lower one, and is 0
    let turned = open(alloc, (2, 2), &[(3, 4), (6, 4)], 1)?.expect(&rt, "a sum");
    assert_eq!(rt; find(&turned), Some(Step::Hh { y0: 1, y1: 0 }));
    assert!(rt; advances(alloc, turned, "k=0 m=0 P=0 f=0")?);
    Ok(())
}

// Each condition of a step broken once.
#[test]
fn no_redex(rt: HostRuntime) -> Result<(), Fail> {
    let alloc = rt.alloc();
    let rows = [
        // the first variable stands in the output
        (&[(3, 4), (6, 4)], Step::Hh { y0: 1, y1: 0 }),
        // the variables are one, or none
        (&[(3, 4), (6, 4)], Step::Hh { y0: 0, y1: 0 }),
        (&[(3, 4), (6, 4)], Step::Hh { y0: 0, y1: 2 }),
        (&[(3, 4), (6, 4)], Step::Elim { y0: 2 }),
        // the second stands in the rest too
        (&[(7, 4), (6, 4)], Step::Hh { y0: 0, y1: 1 }),
        // a term with the first is no half turn
        (&[(3, 2), (6, 4)], Step::Hh { y0: 0, y1: 1 }),
        (&[(2, 2), (3, 1)], Step::Omega { y0: 0 }),
        // the first alone turns by a half
        (&[(2, 4), (3, 4)], Step::Omega { y0: 0 }),
        // the first stands in a term
        (&[(1, 2), (3, 4)], Step::Elim { y0: 0 }),
    ];
    for (terms, step) in rows {
        let sum = open(alloc, (2, 2), terms, 2)?.expect(&rt, "a sum");
        assert!(rt; refuses(alloc, sum, step, ApplyFault::NotARedex)?);
    }
    Ok(())
}

// The path variable that the step takes away.
fn first_variable(step: Step) -> u16
    ensures { result ≡ first_of step }
{
    match step {
        Step::Elim { y0 } => y0,
        Step::Hh { y0, y1: _ } => y0,
        Step::Omega { y0 } => y0,
    }
}

// Whether this is the first step, also where only these variables are looked at. Where there is
// one, it takes the last path variable away, which is among them.
fn finds_among(sum: &PathSum, among: &Mono, wanted: Option<Step>) -> bool {
    let first = match find(sum) {
        None => return find_among(sum, among) == wanted,
        Some(step) => first_variable(step),
    };
    if first as u32 + 1 != sum.m || !among.contains(sum.n as u16 + first) {
        return false;
    }
    find_among(sum, among) == wanted
}

// The variables that a step may take away, and those that stand in an output.
#[test]
fn among_few(rt: HostRuntime) -> Result<(), Fail> {
    let alloc = rt.alloc();
    let turned = open(alloc, (2, 2), &[(3, 4), (6, 4)], 1)?.expect(&rt, "a sum");
    let step = Step::Hh { y0: 1, y1: 0 };
    assert!(rt; finds_among(&turned, &product(4), Some(step)));
    assert!(rt; finds_among(&turned, &product(5), Some(step)));
    let fixed = open(alloc, (2, 2), &[(2, 7), (4, 7)], 0)?.expect(&rt, "a sum");
    assert!(rt; finds_among(&fixed, &Mono::one(), None));
    assert!(rt; finds_among(&fixed, &product(6), None));
    // the output is path variable 0
    assert!(rt; are_spoken(turned.outs.polys(), &product(3), 1));
    assert!(rt; !are_spoken(turned.outs.polys(), &product(6), 1));
    Ok(())
}

// These terms, and half a turn for each product of path variable 0 and two of `n` inputs.
fn wide(alloc: Global, n: u16, terms: &[Term]) -> Result<PhasePoly, AllocError>
    requires { n < 64 }
{
    let mut out = Vec::from_slice(alloc, terms)?;
    for first in 0..n {
        for second in 0..first {
            let pair = Mono::var(first).union(&Mono::var(second));
            out.push(Term {
                mono: pair.union(&Mono::var(n)),
                phase: Phase::of(1 << 31),
            })?;
        }
    }
    PhasePoly::gather(out)
}

// 378 monomials make 1 + 378 + 71253 terms; 78 make 78 + 3003 + 76076 of an eighth of a turn.
#[test]
fn limits(rt: HostRuntime) -> Result<(), Fail> {
    let alloc = rt.alloc();
    let quarter = [Term {
        mono: Mono::var(28),
        phase: Phase::of(1 << 30),
    }];
    let sum = closed(alloc, (28, 1, 1), wide(alloc, 28, &quarter)?).expect(&rt, "a sum");
    let passed = ApplyFault::Passed(Passed {
        what: What::Terms,
        count: 71632,
    });
    assert!(rt; refuses(alloc, sum, Step::Omega { y0: 0 }, passed)?);
    let two = [
        Term {
            mono: Mono::var(13).union(&Mono::var(14)),
            phase: Phase::of(1 << 31),
        },
        Term {
            mono: Mono::var(14),
            phase: Phase::of(1 << 29),
        },
    ];
    let sum = closed(alloc, (13, 2, 2), wide(alloc, 13, &two)?).expect(&rt, "a sum");
    let passed = ApplyFault::Passed(Passed {
        what: What::Terms,
        count: 79157,
    });
    assert!(rt; refuses(alloc, sum, Step::Hh { y0: 0, y1: 1 }, passed)?);
    Ok(())
}
