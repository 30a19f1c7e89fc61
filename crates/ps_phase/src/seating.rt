ghost use Rattle.std.specs.Prelude.{◌≡◌, ℕ, ◌<◌, Bool, true, [], ◌↔◌, length, All, IfOk, IsTrue, IsPermutation, IsSortedByKey};
ghost use Rattle.std.specs.Ordering.{nat_cmp};
ghost use Rattle.ps_phase.specs.Phases.{phase_occurs, IsPhasePoly, SameTurns};
ghost use Rattle.ps_phase.specs.Adding.{combined_terms};
ghost use Rattle.ps_phase.specs.Seating.{AllLow, IsSeat, seat_terms};

use super::merging::push_term;
use super::seats::Seat;
use super::terms::Term;
use ps_ring::Phase;
use std::alloc::{AllocError, Global};

// Seats pay only where there are more terms.
const FEW: usize = 16;

// Whether all variables of each monomial are low.
fn are_low(terms: &[Term]) -> bool
    ensures { IsTrue result ↔ AllLow terms.now }
{
    for term in terms {
        if !term.mono.is_low() {
            return false;
        }
    }
    true
}

// Whether there are many terms, and all their variables are low, so that they can be summed by seats.
pub(crate) fn are_seatable(terms: &[Term]) -> bool
    ensures { IsTrue result ↔ ((16 < length terms.now) × AllLow terms.now) }
{
    terms.len() > FEW && are_low(terms)
}

// A seat for each term, in their order.
fn seats_of(alloc: Global, terms: &[Term]) -> Result<Vec<Seat>, AllocError>
    requires { AllLow terms.now }
    ensures all { IfOk result (λ v. All (IsSeat terms.now) v.items) }
    ensures terms { IfOk result (λ v. seat_terms terms.now v.items ≡ terms.now) }
{
    let mut seats = Vec::with_capacity(alloc, terms.len())?;
    for place in 0..terms.len() {
        let term = &terms[place];
        term.mono.known();
        let seat = Seat {
            key: term.mono.low_key(),
            phase: Phase::of(term.phase.units()),
            place,
        };
        seats.push(seat)?;
    }
    Ok(seats)
}

fn sort_seats(seats: &mut Vec<Seat>)
    ensures permutation { IsPermutation seats.old.items seats.new.items }
    ensures sorted { IsSortedByKey (λ s. s.key) nat_cmp seats.new.items }
{
    seats.sort_unstable_by_key(|seat| seat.key);
}

// The sum of each run of one key, with the monomial that stands at the place of its first seat.
fn combined(alloc: Global, terms: &[Term], seats: &[Seat]) -> Result<Vec<Term>, AllocError>
    requires some { 0 < length seats.now }
    requires all { All (IsSeat terms.now) seats.now }
    ensures { IfOk result (λ v. v.items ≡ combined_terms [] 0 (seat_terms terms.now seats.now)) }
{
    let mut out = Vec::with_capacity(alloc, seats.len())?;
    let mut run = seats[0];
    for i in 1..seats.len() {
        let seat = &seats[i];
        if seat.key == run.key {
            run.phase = run.phase.add(seat.phase);
        } else {
            push_term(&mut out, &terms[run.place].mono, run.phase)?;
            run = *seat;
        }
    }
    push_term(&mut out, &terms[run.place].mono, run.phase)?;
    Ok(out)
}

// The sum of the terms, by seats that are sorted in their place, so that only what is left of them is
// moved. `AllocError` is want of memory.
pub(crate) fn seated_sum(alloc: Global, terms: &[Term]) -> Result<Vec<Term>, AllocError>
    requires some { 0 < length terms.now }
    requires low { AllLow terms.now }
    ensures value { IfOk result (λ v. SameTurns v.items terms.now) }
    ensures variables { IfOk result (λ v. (u : ℕ) → phase_occurs u v.items ≡ true → phase_occurs u terms.now ≡ true) }
    ensures form { IfOk result (λ v. IsPhasePoly v.items) }
{
    let mut seats = seats_of(alloc, terms)?;
    sort_seats(&mut seats);
    let sum = combined(alloc, terms, &seats)?;
    Ok(sum)
}
