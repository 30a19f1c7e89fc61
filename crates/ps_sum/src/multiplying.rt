ghost use Rattle.std.specs.Prelude.{◌≡◌, ℕ, ◌+◌, ◌*◌, ◌%◌, Bool, true, false, length, IfOk, OnOk};
ghost use Rattle.ps_mono.specs.Sets.{holds, stands};
ghost use Rattle.ps_mono.specs.Truth.{times};
ghost use Rattle.ps_bool.specs.Polys.{bool_value, occurs};
ghost use Rattle.ps_phase.specs.Phases.{phase_value, phase_occurs, IsPhasePoly};
ghost use Rattle.ps_sum.specs.Counts.{binomial};
ghost use Rattle.ps_sum.specs.Tables.{true_count};

use ps_mono::Mono;
use ps_phase::{PhasePoly, Term};
use ps_ring::Phase;
use std::alloc::{AllocError, Global};

// The products of `base` with `size` of the monomials, each with the phase, at the end.
fn push_products(
    out: &mut Vec<Term>,
    base: &Mono,
    monos: &[Mono],
    size: usize,
    phase: Phase,
) -> Result<(), AllocError>
    ensures value { OnOk result ((a : ℕ → Bool) → phase_value out.new.items a ≡ phase_value out.old.items a + times (holds base.now a) (binomial (true_count monos.now a) size * phase)) }
    ensures variables { OnOk result ((v : ℕ) → stands v base.now ≡ false → occurs v monos.now ≡ false → phase_occurs v out.old.items ≡ false → phase_occurs v out.new.items ≡ false) }
{
    if size == 0 {
        out.push(Term { mono: *base, phase })?;
        return Ok(());
    }
    let mut rest = monos;
    while let Some((mono, others)) = rest.split_first() {
        push_products(out, &base.union(mono), others, size - 1, phase)?;
        rest = others;
    }
    Ok(())
}

/// The lift of the sum of the monomials, from all products that are at no whole turn: of `room` terms,
/// as far as it is known. Where the monomials are variables they are made in order.
pub(crate) fn multiplied(
    alloc: Global,
    monos: &[Mono],
    by: Phase,
    room: usize,
) -> Result<PhasePoly, AllocError>
    ensures value { IfOk result (λ p. (a : ℕ → Bool) → phase_value p a % 4294967296 ≡ times (bool_value monos.now a) by % 4294967296) }
    ensures variables { IfOk result (λ p. (v : ℕ) → phase_occurs v p ≡ true → occurs v monos.now ≡ true) }
    ensures form { IfOk result (λ p. IsPhasePoly p) }
{
    let mut out = Vec::with_capacity(alloc, room)?;
    let one = Mono::one();
    let mut units = by.units();
    for size in 1..monos.len() + 1 {
        if units == 0 {
            break;
        }
        push_products(&mut out, &one, monos, size, Phase::of(units))?;
        units = units.wrapping_mul(4294967294);
    }
    PhasePoly::gather(out)
}
