ghost use Rattle.std.specs.Prelude.{◌≡◌, ◌≢◌, ℕ, ◌<◌, ◌≤◌, ◌+◌, ◌%◌, Bool, false, cond, ◌&&◌, length, OnOk};
ghost use Rattle.ps_mono.specs.Sets.{holds, stands};
ghost use Rattle.ps_bool.specs.Polys.{bool_value, occurs};
ghost use Rattle.ps_phase.specs.Phases.{phase_value, phase_occurs};
ghost use Rattle.ps_ring.specs.Joins.{pairing};
ghost use Rattle.ps_ring.specs.Readings.{moved_name, taken};
ghost use Rattle.ps_sum.specs.Outs.{values, outs_occur};

use super::moving::moved_mono;
use ps_bool::BoolPoly;
use ps_mono::Mono;
use ps_phase::Term;
use ps_ring::Phase;
use std::alloc::AllocError;

// Half a turn.
const HALF: u32 = 1 << 31;

// Half a turn where `w` and the polynomial are 1, at the end.
fn push_halves(out: &mut Vec<Term>, monos: &[Mono], w: &Mono) -> Result<(), AllocError>
    ensures value { OnOk result ((a : ℕ → Bool) → phase_value out.new.items a % 4294967296 ≡ (phase_value out.old.items a + cond (holds w.now a && bool_value monos.now a) 2147483648 0) % 4294967296) }
    ensures variables { OnOk result ((u : ℕ) → stands u w.now ≡ false → occurs u monos.now ≡ false → phase_occurs u out.old.items ≡ false → phase_occurs u out.new.items ≡ false) }
{
    for mono in monos {
        out.push(Term {
            mono: mono.union(w),
            phase: Phase::of(HALF),
        })?;
    }
    Ok(())
}

// The same of the polynomial with the variables from `n` on `by` higher.
fn push_moved_halves(
    out: &mut Vec<Term>,
    monos: &[Mono],
    w: &Mono,
    n: u16,
    by: u16,
) -> Result<(), AllocError>
    requires few { n + by ≤ 512 }
    requires small { (v : ℕ) → 512 ≤ v + by → occurs v monos.now ≡ false }
    ensures value { OnOk result ((a : ℕ → Bool) → phase_value out.new.items a % 4294967296 ≡ (phase_value out.old.items a + cond (holds w.now a && bool_value monos.now (λ v. a (moved_name n by v))) 2147483648 0) % 4294967296) }
    ensures variables { OnOk result ((u : ℕ) → stands u w.now ≡ false → ((v : ℕ) → moved_name n by v ≡ u → occurs v monos.now ≡ false) → phase_occurs u out.old.items ≡ false → phase_occurs u out.new.items ≡ false) }
{
    for mono in monos {
        out.push(Term {
            mono: moved_mono(mono, n, by).union(w),
            phase: Phase::of(HALF),
        })?;
    }
    Ok(())
}

/// For each place half a turn where its variable, from `lo` on, is 1 and the two outputs there
/// differ; the second's variables from `n` on are `by` higher. At the end.
pub(crate) fn push_pairings(
    out: &mut Vec<Term>,
    first: &[BoolPoly],
    second: &[BoolPoly],
    lo: u16,
    n: u16,
    by: u16,
) -> Result<(), AllocError>
    requires widths { length first.now ≡ length second.now }
    requires last { lo + length first.now ≤ 512 }
    requires few { n + by ≤ 512 }
    requires small { (v : ℕ) → 512 ≤ v + by → outs_occur v second.now ≡ false }
    ensures value { OnOk result ((a : ℕ → Bool) → phase_value out.new.items a % 4294967296 ≡ (phase_value out.old.items a + pairing (taken lo (length first.now) a) (values first.now a) (values second.now (λ v. a (moved_name n by v)))) % 4294967296) }
    ensures variables { OnOk result ((u : ℕ) → lo + length first.now ≤ u → outs_occur u first.now ≡ false → ((v : ℕ) → moved_name n by v ≡ u → outs_occur v second.now ≡ false) → phase_occurs u out.old.items ≡ false → phase_occurs u out.new.items ≡ false) }
{
    for i in 0..first.len() {
        let w = Mono::var(lo + i as u16);
        push_halves(out, first[i].monos(), &w)?;
        push_moved_halves(out, second[i].monos(), &w, n, by)?;
    }
    Ok(())
}
