ghost use Rattle.std.specs.Prelude.{ℕ, ◌<◌};
ghost use Rattle.ps_prim.specs.Maps.{IsWithin};

use super::*;
use ps_bool::BoolPoly;
use ps_mono::Mono;
use ps_phase::{PhasePoly, Term};
use ps_prim::Prim;
use ps_ring::{Angle, Phase};
use ps_sum::{JoinFault, Outputs, Passed, PathSum, What};
use std::alloc::{AllocError, Global};
use std::process::Abort;
use std::sync::Arc;
use std::test::Fail;

fn is_text(alloc: Global, sum: &PathSum, wanted: &str) -> Result<bool, AllocError> {
    Ok(sum.text(alloc)?.as_slice() == wanted.as_bytes())
}

// U at these units of theta and lambda on qubit `q`.
fn turned(theta: u32, lambda: u32, q: u32) -> Prim
    ensures { (n : ℕ) → q < n → IsWithin n result }
{
    Prim::U {
        theta: Angle::of(theta),
        phi: Angle::of(0),
        lambda: Angle::of(lambda),
        q,
    }
}

// A Hadamard gate; a quarter turn; a controlled not; and no gate.
#[test]
fn single(rt: HostRuntime) -> Result<(), Fail> {
    let alloc = rt.alloc();
    let hadamard = leaf(alloc, &turned(1 << 29, 1 << 30, 0), 1)?;
    let wanted = "k=2 m=2 P=7/8+1/4*x0+1/4*y0+1/4*y1+1/2*x0.y0+1/2*y0.y1 f=y1";
    assert!(rt; is_text(alloc, &hadamard, wanted)?);
    let quarter = leaf(alloc, &turned(0, 1 << 29, 1), 2)?;
    assert!(rt; is_text(alloc, &quarter, "k=0 m=0 P=1/4*x1 f=x0,x1")?);
    let exchange = leaf(alloc, &Prim::Cx { c: 0, t: 1 }, 2)?;
    assert!(rt; is_text(alloc, &exchange, "k=0 m=0 P=0 f=x0,x0+x1")?);
    assert!(rt; is_text(alloc, &identity(alloc, 2)?, "k=0 m=0 P=0 f=x0,x1")?);
    Ok(())
}

// The second behind the first, for sums of few gates.
fn behind(
    rt: &impl Abort,
    alloc: Global,
    first: &PathSum,
    second: &PathSum,
) -> Result<PathSum, JoinFault> {
    assert!(rt; first.n == second.n);
    assert!(rt; !first.outs.polys().is_empty() && !second.outs.polys().is_empty());
    assert!(rt; first.k > -1000 && first.k < 1000 && second.k > -1000 && second.k < 1000);
    join(alloc, first, second)
}

// The same, where the first is given away, and a limit that is passed is told alone.
fn onto(
    rt: &impl Abort,
    alloc: Global,
    first: PathSum,
    second: &PathSum,
) -> Result<PathSum, JoinFault> {
    assert!(rt; first.n == second.n);
    assert!(rt; !first.outs.polys().is_empty() && !second.outs.polys().is_empty());
    assert!(rt; first.k > -1000 && first.k < 1000 && second.k > -1000 && second.k < 1000);
    match join_onto(alloc, first, second) {
        Ok(sum) => Ok(sum),
        Err(OntoFault::Passed { passed, .. }) => Err(JoinFault::Passed(passed)),
        Err(OntoFault::Memory) => Err(JoinFault::Memory),
    }
}

// This sum, ready to be put behind others.
fn ready(alloc: Global, sum: PathSum) -> Result<Gate, AllocError> {
    Ok(Gate::of(Arc::new(alloc, sum)?))
}

// A sum that is ready behind the first, some of whose terms may wait.
fn joined(
    rt: &impl Abort,
    alloc: Global,
    first: Running,
    second: &Gate,
) -> Result<Running, JoinFault> {
    let sum = first.bare();
    assert!(rt; sum.n == second.sum.n);
    assert!(rt; !sum.outs.polys().is_empty() && !second.sum.outs.polys().is_empty());
    assert!(rt; sum.k > -1000 && sum.k < 1000 && second.sum.k > -1000 && second.sum.k < 1000);
    match join_gate(alloc, first, second) {
        Ok(sum) => Ok(sum),
        Err(OntoFault::Passed { passed, .. }) => Err(JoinFault::Passed(passed)),
        Err(OntoFault::Memory) => Err(JoinFault::Memory),
    }
}

// The same, settled.
fn gated(
    rt: &impl Abort,
    alloc: Global,
    first: PathSum,
    second: &Gate,
) -> Result<PathSum, JoinFault> {
    let sum = joined(rt, alloc, Running::of(alloc, first), second)?;
    Ok(sum.settled()?)
}

// The sum of a Hadamard gate after one step: half a turn where x0 and y0 are 1, and the output y0.
fn half(rt: &impl Abort, alloc: Global) -> Result<PathSum, AllocError> {
    let mono = Mono::var(0).union(&Mono::var(1));
    let phase = Phase::of(1 << 31);
    let phase = PhasePoly::gather(vec![in alloc; Term { mono, phase }]?)?;
    let outs = Outputs::of(vec![in alloc; BoolPoly::var(alloc, 1)?]?);
    Ok(PathSum::of(1, 1, 1, phase, outs).expect(rt, "a sum"))
}

#[test]
fn joins(rt: HostRuntime) -> Result<(), Fail> {
    let alloc = rt.alloc();
    let wanted = "k=2 m=2 P=1/2*x0.y0+1/2*y0.y1 f=y1";
    let half = half(&rt, alloc)?;
    assert!(rt; is_text(alloc, &behind(&rt, alloc, &half, &half)?, wanted)?);
    let first = behind(&rt, alloc, &half, &identity(alloc, 1)?)?;
    assert!(rt; is_text(alloc, &onto(&rt, alloc, first, &half)?, wanted)?);
    let first = behind(&rt, alloc, &half, &identity(alloc, 1)?)?;
    let gate = ready(alloc, half)?;
    assert!(rt; is_text(alloc, &gated(&rt, alloc, first, &gate)?, wanted)?);
    Ok(())
}

// The sum that flips its one qubit.
fn flip(rt: &impl Abort, alloc: Global) -> Result<PathSum, AllocError> {
    let output = BoolPoly::var(alloc, 0)?.flipped()?;
    let outs = Outputs::of(vec![in alloc; output]?);
    Ok(PathSum::of(1, 0, 0, PhasePoly::zero(alloc), outs).expect(rt, "a sum"))
}

// A quarter turn and a flip, twice each, and a Hadamard gate.
#[test]
fn waiting(rt: HostRuntime) -> Result<(), Fail> {
    let alloc = rt.alloc();
    let turn = ready(alloc, leaf(alloc, &turned(0, 1 << 29, 0), 1)?)?;
    let flip = ready(alloc, flip(&rt, alloc)?)?;
    let half = ready(alloc, half(&rt, alloc)?)?;
    assert!(rt; matches!(turn.change(), Change::Stay));
    assert!(rt; matches!(flip.change(), Change::Flip { q: 0 }));
    assert!(rt; matches!(half.change(), Change::Path { q: 0, y: 1 }));
    let sum = Running::of(alloc, identity(alloc, 1)?);
    let sum = joined(&rt, alloc, sum, &turn)?;
    let sum = joined(&rt, alloc, sum, &flip)?;
    let sum = joined(&rt, alloc, sum, &turn)?;
    assert!(rt; sum.outputs().len() == 1 && sum.outputs()[0].count() == 2);
    let sum = joined(&rt, alloc, sum, &flip)?;
    let sum = joined(&rt, alloc, sum, &half)?;
    assert!(rt; sum.outputs().len() == 1);
    assert!(rt; sum.variables(0) == Mono::var(1));
    let wanted = "k=1 m=1 P=1/4+1/2*x0.y0 f=y0";
    assert!(rt; is_text(alloc, &sum.settled()?, wanted)?);
    Ok(())
}

// The sum of a prim behind the first, on two qubits.
fn prim_behind(
    rt: &impl Abort,
    alloc: Global,
    first: PathSum,
    prim: &Prim,
) -> Result<PathSum, JoinFault>
    requires { IsWithin 2 prim.now }
{
    assert!(rt; first.n == 2 && first.outs.polys().len() == 2);
    assert!(rt; first.k > -1000 && first.k < 1000);
    match join_prim(alloc, Running::of(alloc, first), prim) {
        Ok(sum) => Ok(sum.settled()?),
        Err(OntoFault::Passed { passed, .. }) => Err(JoinFault::Passed(passed)),
        Err(OntoFault::Memory) => Err(JoinFault::Memory),
    }
}

// A controlled not, a quarter turn, and a controlled not back.
#[test]
fn plain_gates(rt: HostRuntime) -> Result<(), Fail> {
    let alloc = rt.alloc();
    let sum = prim_behind(&rt, alloc, identity(alloc, 2)?, &Prim::Cx { c: 1, t: 0 })?;
    let sum = prim_behind(&rt, alloc, sum, &turned(0, 1 << 29, 0))?;
    assert!(rt; is_text(alloc, &sum, "k=0 m=0 P=1/4*x0+1/4*x1+1/2*x0.x1 f=x0+x1,x1")?);
    let sum = prim_behind(&rt, alloc, sum, &Prim::Cx { c: 1, t: 0 })?;
    assert!(rt; is_text(alloc, &sum, "k=0 m=0 P=1/4*x0+1/4*x1+1/2*x0.x1 f=x0,x1")?);
    Ok(())
}

// The sum of a controlled not from each other qubit to the last of 64.
fn parity(rt: &impl Abort, alloc: Global) -> Result<PathSum, JoinFault> {
    let mut sum = identity(alloc, 64)?;
    for c in 0..63 {
        let second = leaf(alloc, &Prim::Cx { c, t: 63 }, 64)?;
        sum = gated(rt, alloc, sum, &ready(alloc, second)?)?;
    }
    Ok(sum)
}

// The sum of no gate, with path variables that stand nowhere.
fn idle(rt: &impl Abort, alloc: Global, m: u32) -> Result<PathSum, AllocError> {
    let mut outs = Vec::new(alloc);
    for v in 0..64 {
        outs.push(BoolPoly::var(alloc, v)?)?;
    }
    Ok(PathSum::of(64, m, 0, PhasePoly::zero(alloc), Outputs::of(outs)).expect(rt, "a sum"))
}

// A sixteenth of a turn where the sum of 64 inputs is odd; and 513 variables.
#[test]
fn limits(rt: HostRuntime) -> Result<(), Fail> {
    let alloc = rt.alloc();
    let parity = parity(&rt, alloc)?;
    let turn = leaf(alloc, &turned(0, 1 << 27, 63), 64)?;
    let passed = Passed {
        what: What::Terms,
        count: 679_120,
    };
    assert!(rt; behind(&rt, alloc, &parity, &turn).err() == Some(JoinFault::Passed(passed)));
    assert!(rt; onto(&rt, alloc, parity, &turn).err() == Some(JoinFault::Passed(passed)));
    let passed = Passed {
        what: What::Variables,
        count: 513,
    };
    let first = idle(&rt, alloc, 384)?;
    let second = idle(&rt, alloc, 1)?;
    assert!(rt; behind(&rt, alloc, &first, &second).err() == Some(JoinFault::Passed(passed)));
    Ok(())
}
