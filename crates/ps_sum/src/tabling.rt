ghost use Rattle.std.specs.Prelude.{◌≡◌, ℕ, ◌<◌, ◌≤◌, ◌+◌, ◌%◌, ◌^◌, Bool, true, false, length, get_or, IfOk, OnOk};
ghost use Rattle.ps_mono.specs.Sets.{holds, stands, Below};
ghost use Rattle.ps_mono.specs.Truth.{times};
ghost use Rattle.ps_bool.specs.Polys.{bool_value, occurs};
ghost use Rattle.ps_phase.specs.Phases.{phase_value, phase_occurs, IsPhasePoly};
ghost use Rattle.ps_sum.specs.Tables.{table_value, place_of, is_odd};

use super::tables::{is_zero, transform};
use ps_mono::Mono;
use ps_phase::{PhasePoly, Term};
use ps_ring::Phase;
use std::alloc::{AllocError, Global};

// The variables of a monomial, in order.
fn names_of(alloc: Global, mono: &Mono) -> Result<Vec<u16>, AllocError>
    ensures names { IfOk result (λ w. w.items ≡ mono.now) }
    ensures small { IfOk result (λ w. Below 512 w.items) }
{
    mono.known();
    let mut names = Vec::with_capacity(alloc, mono.degree() as usize)?;
    for place in 0..mono.degree() {
        names.push(mono.var_at(place))?;
    }
    Ok(names)
}

// The place of a monomial in a table over the variables, which has `size` words.
fn place_in(mono: &Mono, names: &[u16], size: usize) -> usize
    requires size { size ≡ 2 ^ length names.now }
    requires small { Below 512 names.now }
    ensures value { result ≡ place_of names.now mono.now }
    ensures inside { result < size }
{
    let mut place = 0;
    let mut half = size;
    for name in names {
        half /= 2;
        if mono.contains(*name) {
            place += half;
        }
    }
    place
}

// A table over the variables that is odd just where the sum of the monomials is 1.
fn marked(alloc: Global, monos: &[Mono], names: &[u16]) -> Result<Vec<u32>, AllocError>
    requires few { length names.now ≤ 14 }
    requires small { Below 512 names.now }
    requires covered { (v : ℕ) → occurs v monos.now ≡ true → stands v names.now ≡ true }
    ensures size { IfOk result (λ w. length w.items ≡ 2 ^ length names.now) }
    ensures odd { IfOk result (λ w. (a : ℕ → Bool) → is_odd (table_value names.now w.items 0 a) ≡ bool_value monos.now a) }
{
    let size = 1usize << names.len();
    let mut table = Vec::with_capacity(alloc, size)?;
    for filled in 0..size {
        table.push(0u32)?;
    }
    for mono in monos {
        let place = place_in(mono, names, size);
        table[place] = table[place].wrapping_add(1);
    }
    Ok(table)
}

// The products of `base` with the sets of the variables, with the words from place `from` on as their
// phases, at the end.
fn push_words(
    out: &mut Vec<Term>,
    base: &Mono,
    names: &[u16],
    table: &[u32],
    from: usize,
    size: usize,
) -> Result<(), AllocError>
    requires size { size ≡ 2 ^ length names.now }
    requires room { from + size ≤ length table.now }
    requires small { Below 512 names.now }
    ensures value { OnOk result ((a : ℕ → Bool) → phase_value out.new.items a ≡ phase_value out.old.items a + times (holds base.now a) (table_value names.now table.now from a)) }
    ensures variables { OnOk result ((v : ℕ) → stands v base.now ≡ false → stands v names.now ≡ false → phase_occurs v out.old.items ≡ false → phase_occurs v out.new.items ≡ false) }
{
    if is_zero(table, from, size) {
        return Ok(());
    }
    match names.split_first() {
        None => {
            out.push(Term {
                mono: *base,
                phase: Phase::of(table[from]),
            })?;
            Ok(())
        }
        Some((name, rest)) => {
            let half = size / 2;
            push_words(out, base, rest, table, from, half)?;
            let more = base.union(&Mono::var(*name));
            push_words(out, &more, rest, table, from + half, half)
        }
    }
}

/// The lift of the sum of the monomials, by a table of its values: one word for each set of the
/// variables, of which `support` has all, at most 14.
pub(crate) fn tabled(
    alloc: Global,
    monos: &[Mono],
    support: &Mono,
    by: Phase,
) -> Result<PhasePoly, AllocError>
    requires few { length support.now ≤ 14 }
    requires covered { (v : ℕ) → stands v support.now ≡ occurs v monos.now }
    ensures value { IfOk result (λ p. (a : ℕ → Bool) → phase_value p a % 4294967296 ≡ times (bool_value monos.now a) by % 4294967296) }
    ensures variables { IfOk result (λ p. (v : ℕ) → phase_occurs v p ≡ true → occurs v monos.now ≡ true) }
    ensures form { IfOk result (λ p. IsPhasePoly p) }
{
    let names = names_of(alloc, support)?;
    let mut table = marked(alloc, monos, &names)?;
    transform(&mut table, support.degree(), by.units());
    let mut out = Vec::new(alloc);
    push_words(&mut out, &Mono::one(), &names, &table, 0, table.len())?;
    PhasePoly::gather(out)
}
