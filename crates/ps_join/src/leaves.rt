ghost use Rattle.std.specs.Prelude.{◌≡◌, ◌≢◌, ℕ, ◌<◌, ◌≤◌, ◌+◌, [], ◌∷◌, List, IfOk, IfErr, pos, length, false};
ghost use Rattle.ps_bool.specs.Polys.{occurs};
ghost use Rattle.ps_phase.specs.Phases.{phase_occurs, IsPhasePoly};
ghost use Rattle.ps_prim.specs.declared.prims.Primitive.TheVariants.{U, Cx};
ghost use Rattle.ps_prim.specs.Maps.{IsWithin};
ghost use Rattle.ps_prim.specs.Sums.{Denotes};
ghost use Rattle.ps_sum.specs.Forms.{IsFormed};
ghost use Rattle.ps_sum.specs.Outs.{outs_occur};
ghost use Rattle.ps_sum.specs.Sums.{path_values};
ghost use Rattle.ps_join.specs.Joining.{IsLeafOf, IsIdentityOf};
ghost use Rattle.ps_join.specs.Inputs.{inputs_from, IsRotation};

use ps_bool::BoolPoly;
use ps_mono::Mono;
use ps_phase::{PhasePoly, Term};
use ps_prim::Prim;
use ps_ring::{Angle, Phase};
use ps_sum::{Outputs, PathSum};
use std::alloc::{AllocError, Global};

/// The sum of one gate on `n` qubits, 1 to 64, that has its qubits below `n`.
///
/// `U` at theta 0 only turns the phase of inputs, and `Cx` only exchanges an output; every other `U`
/// has two path variables, and the second of them is its output. `AllocError` is want of memory.
pub fn leaf(alloc: Global, prim: &Prim, n: u32) -> Result<PathSum, AllocError>
    requires width { (1 ≤ n) × (n ≤ 64) }
    requires within { IsWithin n prim.now }
    ensures sum { IfOk result (λ s. IsLeafOf n prim.now s) }
    ensures denotes { IfOk result (λ s. Denotes n (path_values s) (prim.now ∷ [])) }
    ensures wide { IfOk result (λ s. length s.outs ≡ n) }
{
    match *prim {
        Prim::U {
            theta,
            phi,
            lambda,
            q,
        } => {
            if theta.units() == 0 {
                turn(alloc, phi, lambda, q, n)
            } else {
                rotation(alloc, theta, phi, lambda, q, n)
            }
        }
        Prim::Cx { c, t } => exchange(alloc, c, t, n),
    }
}

/// The sum of no gate on `n` qubits, 1 to 64: each output is its input. `AllocError` is want of
/// memory.
pub fn identity(alloc: Global, n: u32) -> Result<PathSum, AllocError>
    requires width { (1 ≤ n) × (n ≤ 64) }
    ensures sum { IfOk result (λ s. IsIdentityOf n s) }
    ensures denotes { IfOk result (λ s. Denotes n (path_values s) []) }
    ensures wide { IfOk result (λ s. length s.outs ≡ n) }
{
    let outs = inputs(alloc, n)?;
    Ok(small_sum(n, 0, PhasePoly::zero(alloc), outs))
}

// U at theta 0: the phase of the input alone.
fn turn(alloc: Global, phi: Angle, lambda: Angle, q: u32, n: u32) -> Result<PathSum, AllocError>
    requires width { (1 ≤ n) × (n ≤ 64) }
    requires within { q < n }
    ensures { IfOk result (λ s. IsLeafOf n (U 0 phi lambda q) s) }
{
    let input = Term {
        mono: Mono::var(q as u16),
        phase: phi.whole().add(lambda.whole()),
    };
    let phase = PhasePoly::gather(vec![in alloc; input]?)?;
    let outs = inputs(alloc, n)?;
    Ok(small_sum(n, 0, phase, outs))
}

// U at another theta, with the path variables `n` and `n + 1`.
fn rotation(
    alloc: Global,
    theta: Angle,
    phi: Angle,
    lambda: Angle,
    q: u32,
    n: u32,
) -> Result<PathSum, AllocError>
    requires width { (1 ≤ n) × (n ≤ 64) }
    requires within { q < n }
    requires turns { theta ≢ 0 }
    ensures { IfOk result (λ s. IsLeafOf n (U theta phi lambda q) s) }
{
    let phase = rotation_phase(alloc, theta, phi, lambda, q as u16, n as u16)?;
    let mut outs = inputs(alloc, n)?;
    outs[q as usize] = input(alloc, n as u16 + 1)?;
    Ok(small_sum(n, 2, phase, outs))
}

// The phase of that sum: less theta, and with half a turn where the input and the first path
// variable, or both path variables, are 1.
fn rotation_phase(
    alloc: Global,
    theta: Angle,
    phi: Angle,
    lambda: Angle,
    q: u16,
    n: u16,
) -> Result<PhasePoly, AllocError>
    requires width { n ≤ 64 }
    requires within { q < n }
    ensures value { IfOk result (λ p. IsRotation theta phi lambda q n p) }
    ensures variables { IfOk result (λ p. (v : ℕ) → n + 2 ≤ v → phase_occurs v p ≡ false) }
    ensures form { IfOk result (λ p. IsPhasePoly p) }
{
    let input = Mono::var(q);
    let first = Mono::var(n);
    let second = Mono::var(n + 1);
    let half = Phase::of(1 << 31);
    let terms = vec![in alloc;
        term(&Mono::one(), theta.half().neg()),
        term(&input, lambda.whole().add(Phase::of(3 << 30))),
        term(&first, theta.whole()),
        term(&second, phi.whole().add(Phase::of(1 << 30))),
        term(&input.union(&first), half),
        term(&first.union(&second), half),
    ]?;
    PhasePoly::gather(terms)
}

fn term(mono: &Mono, phase: Phase) -> Term
    ensures { result ≡ record { mono = mono.now; phase = phase } }
{
    Term { mono: *mono, phase }
}

// The controlled not: output `t` is both inputs' sum.
fn exchange(alloc: Global, c: u32, t: u32, n: u32) -> Result<PathSum, AllocError>
    requires width { (1 ≤ n) × (n ≤ 64) }
    requires within { IsWithin n (Cx c t) }
    ensures { IfOk result (λ s. IsLeafOf n (Cx c t) s) }
{
    let mut outs = inputs(alloc, n)?;
    let sum = outs[t as usize].xor(&outs[c as usize])?;
    outs[t as usize] = sum;
    Ok(small_sum(n, 0, PhasePoly::zero(alloc), outs))
}

// Each output is its input.
fn inputs(alloc: Global, n: u32) -> Result<Vec<BoolPoly>, AllocError>
    requires { n ≤ 64 }
    ensures { IfOk result (λ v. v.items ≡ inputs_from 0 n) }
{
    let mut outs = Vec::with_capacity(alloc, n as usize)?;
    for v in 0..n as u16 {
        outs.push(input(alloc, v)?)?;
    }
    Ok(outs)
}

// The polynomial of one variable, in as much memory as it takes.
fn input(alloc: Global, v: u16) -> Result<BoolPoly, AllocError>
    requires { v < 512 }
    ensures { IfOk result (λ p. p ≡ (v ∷ []) ∷ []) }
{
    let mut monos = Vec::with_capacity(alloc, 1)?;
    monos.push(Mono::var(v))?;
    Ok(BoolPoly::ordered(monos))
}

// The sum with `m` path variables, at most 2, and as many for its scale.
fn small_sum(n: u32, m: u32, phase: PhasePoly, outs: Vec<BoolPoly>) -> PathSum
    requires qubits { (1 ≤ n) × (n ≤ 64) }
    requires few { m ≤ 2 }
    requires phase_below { (v : ℕ) → n + m ≤ v → phase_occurs v phase ≡ false }
    requires outs_below { (v : ℕ) → n + m ≤ v → outs_occur v outs.items ≡ false }
    requires width { length outs.items ≡ n }
    requires formed { IsFormed phase outs.items }
    ensures n { result.n ≡ n }
    ensures m { result.m ≡ m }
    ensures k { result.k ≡ pos m }
    ensures phase { result.phase ≡ phase }
    ensures outs { result.outs ≡ outs.items }
{
    PathSum {
        n,
        m,
        k: m as i32,
        phase,
        outs: Outputs::of(outs),
    }
}
