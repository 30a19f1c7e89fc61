//! The phases of a sum at all assignments of its path variables.

ghost use Rattle.std.specs.Prelude.{◌≡◌, ℕ, ◌+◌, ◌%◌, ◌^◌, ◌<◌, ◌≤◌, Bool, true, false, [], List, length, get_or, map, IfOk, cond, nat_lt};
ghost use Rattle.std.proofs.Math.IntN.{ℤ};
ghost use Rattle.ps_mono.specs.Sets.{stands, Below};
ghost use Rattle.ps_phase.specs.Phases.{phase_value, IsPhasePoly};
ghost use Rattle.ps_overlap.specs.Overlapping.{point};
ghost use Rattle.ps_ring.specs.Sums.{signed_count};
ghost use Rattle.ps_sum.specs.Sums.{path_values};
ghost use Rattle.ps_sum.specs.Tables.{table_value, place_of};
ghost use Rattle.ps_probe.specs.Tallies.{tallied, names_from, listing, worth, reduced};

use ps_mono::{Bits, Mono};
use ps_phase::Term;
use ps_sum::{PathSum, first_variables};
use std::alloc::{AllocError, Global};

// The variables from `first` on, `count` of them.
fn names(alloc: Global, first: u16, count: u16) -> Result<Vec<u16>, AllocError>
    requires { first + count ≤ 512 }
    ensures names { IfOk result (λ w. w.items ≡ names_from first count) }
    ensures small { IfOk result (λ w. Below 512 w.items) }
{
    let mut names = Vec::with_capacity(alloc, count as usize)?;
    for i in 0..count {
        names.push(first + i)?;
    }
    Ok(names)
}

// The inputs as in `at`, and all path variables true.
fn all_paths(sum: &PathSum, at: &Bits) -> Bits
    ensures { (v : ℕ) → stands v result ≡ cond (nat_lt v sum.now.n) (stands v at.now) (nat_lt v (sum.now.n + sum.now.m)) }
{
    let mut bits = first_variables(sum.n + sum.m);
    for v in 0..sum.n as u16 {
        bits.set(v, at.get(v));
    }
    bits
}

// The place of a monomial in a table over the variables, which has `size` words.
fn place_in(mono: &Mono, names: &[u16], size: usize) -> usize
    requires size { size ≡ 2 ^ length names.now }
    requires small { Below 512 names.now }
    ensures value { result ≡ place_of names.now mono.now }
    ensures inside { result < size }
{
    let mut place = 0;
    let mut half = size;
    for name in names {
        half /= 2;
        if mono.contains(*name) {
            place += half;
        }
    }
    place
}

// A table over the variables, which are true in `all`, with the phases of the terms that hold there. So it is worth
// what the terms are at each assignment that is as `all` but for the variables.
fn marked(alloc: Global, terms: &[Term], names: &[u16], all: &Bits) -> Result<Vec<u32>, AllocError>
    requires few { length names.now ≤ 16 }
    requires small { Below 512 names.now }
    requires covered { (v : ℕ) → stands v names.now ≡ true → stands v all.now ≡ true }
    ensures size { IfOk result (λ w. length w.items ≡ 2 ^ length names.now) }
    ensures worth { IfOk result (λ w. (a : ℕ → Bool) → ((v : ℕ) → stands v names.now ≡ false → a v ≡ stands v all.now)
        → table_value names.now w.items 0 a % 4294967296 ≡ phase_value terms.now a % 4294967296) }
{
    let size = 1usize << names.len();
    let mut table = Vec::with_capacity(alloc, size)?;
    for filled in 0..size {
        table.push(0u32)?;
    }
    for term in terms {
        if term.mono.holds(all) {
            let place = place_in(&term.mono, names, size);
            table[place] = table[place].wrapping_add(term.phase.units());
        }
    }
    Ok(table)
}

// Each word of the first with that of the second at its place, modulo 2^32.
fn add_words(high: &mut [u32], low: &[u32])
    requires { length low.now ≡ length high.old }
    ensures { (i : ℕ) → get_or high.new i 0 ≡ (get_or high.old i 0 + get_or low.now i 0) % 4294967296 }
{
    for i in 0..low.len() {
        high[i] = high[i].wrapping_add(low[i]);
    }
}

// Puts in each place of the table what the table is worth at the assignment of `count` variables that has this
// place, the first of them being its highest digit.
fn spread(table: &mut [u32], count: u32)
    requires { length table.old ≡ 2 ^ count }
    ensures { reduced table.new ≡ listing count (λ y. worth y table.old 0) }
{
    if count == 0 {
        return;
    }
    let half = table.len() / 2;
    let (low, high) = table.split_at_mut(half);
    add_words(high, low);
    spread(low, count - 1);
    spread(high, count - 1);
}

/// The phases of a closed sum at the inputs and all assignments of its path variables, at most 16, which count to
/// the sum's number there.
pub fn phases_at(alloc: Global, sum: &PathSum, at: &Bits) -> Result<Vec<u32>, AllocError>
    requires closed { sum.now.outs ≡ [] }
    requires few { sum.now.m ≤ 16 }
    ensures { IfOk result (λ w. (j : ℤ) → signed_count (path_values sum.now) (point sum.now.n at.now) [] j ≡ tallied w.items j) }
{
    let names = names(alloc, sum.n as u16, sum.m as u16)?;
    let all = all_paths(sum, at);
    let mut table = marked(alloc, sum.phase.terms(), &names, &all)?;
    spread(&mut table, sum.m);
    Ok(table)
}
