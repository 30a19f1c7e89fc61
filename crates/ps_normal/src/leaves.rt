//! The reduced leaves of prims, which are kept for the next time that a prim is met.

ghost use Rattle.std.specs.Prelude.{◌≡◌, ℕ, ◌<◌, ◌≤◌, ◌↔◌, IfOk, OnOk, IfSome, IsTrue};
ghost use Rattle.ps_prim.specs.Maps.{IsWithin};
ghost use Rattle.ps_reach.specs.Fillings.{Leaves};
ghost use Rattle.ps_normal.specs.Keeping.{IsKept, IsTable, IsMade, LeafIs, LeafRose};

use super::kept::Kept;
use super::parts::{LeafPart, Part};
use super::prims::leaf_part;
use ps_io::Stop;
use ps_join::Gate;
use ps_prim::Prim;
use ps_rules::{Move, Step};
use std::alloc::{AllocError, Global};
use std::sync::Arc;

// How many qubits have slots of their own.
const QUBITS: usize = 64;

// How many slots a qubit has.
const SLOTS: usize = 64;

// Whether the two are one prim.
fn same_prim(first: &Prim, second: &Prim) -> bool
    ensures { IsTrue result ↔ (first.now ≡ second.now) }
{
    match *first {
        Prim::U {
            theta,
            phi,
            lambda,
            q,
        } => match *second {
            Prim::U {
                theta: other_theta,
                phi: other_phi,
                lambda: other_lambda,
                q: other_q,
            } => theta == other_theta && phi == other_phi && lambda == other_lambda && q == other_q,
            Prim::Cx { .. } => false,
        },
        Prim::Cx { c, t } => match *second {
            Prim::U { .. } => false,
            Prim::Cx {
                c: other_c,
                t: other_t,
            } => c == other_c && t == other_t,
        },
    }
}

// The number with its bits mixed.
fn mixed(number: u32) -> u32 {
    let number = number.wrapping_mul(2_654_435_761);
    number ^ (number >> 15)
}

// The slot of a prim: those of one qubit stand together, so that a table is no longer than the qubits
// that were met need.
fn slot_of(prim: &Prim) -> usize
    ensures { result < 4096 }
{
    match *prim {
        Prim::U {
            theta,
            phi,
            lambda,
            q,
        } => {
            let turn = mixed(mixed(mixed(theta.units()) ^ phi.units()) ^ lambda.units());
            SLOTS * (q as usize % QUBITS) + (turn >> 13) as usize % SLOTS
        }
        Prim::Cx { c, t } => SLOTS * (c as usize % QUBITS) + t as usize % SLOTS,
    }
}

/// The leaf of the prim, where it is kept.
pub fn kept_leaf<'a>(leaves: &'a [Option<Box<Kept>>], prim: &Prim) -> Option<&'a Kept>
    ensures { IfSome result (λ k. (n : ℕ) → IsTable n leaves.now → IsKept n prim.now k.now) }
{
    match leaves.get(slot_of(prim)) {
        Some(Some(kept)) => {
            if same_prim(&kept.prim, prim) {
                Some(kept)
            } else {
                None
            }
        }
        _ => None,
    }
}

/// Puts the leaf into the slot of its prim.
pub fn keep(
    alloc: Global,
    leaves: &mut Vec<Option<Box<Kept>>>,
    kept: Kept,
) -> Result<(), AllocError>
    ensures { OnOk result ((n : ℕ) → IsTable n leaves.old.items → IsKept n kept.prim kept → IsTable n leaves.new.items) }
{
    let slot = slot_of(&kept.prim);
    'slots: while leaves.len() <= slot {
        leaves.push(None)?;
    }
    leaves[slot] = Some(Box::new(alloc, kept)?);
    Ok(())
}

/// The leaf of the prim at a place, reduced, to be kept.
pub fn new_leaf<S: Stop>(
    alloc: Global,
    n: u32,
    prim: &Prim,
    place: u32,
    moves: &mut Vec<Move>,
    steps: &mut Vec<Step>,
    stop: &mut S,
) -> Result<LeafPart, AllocError>
    requires width { (1 ≤ n) × (n ≤ 64) }
    requires within { IsWithin n prim.now }
    requires few { place < 268435456 }
    ensures part { IfOk result (λ p. LeafIs (Leaves n place prim.now moves.old.items) moves.new.items p) }
    ensures kept { IfOk result (λ p. IsMade n prim.now p) }
    ensures stopped { IfOk result (λ p. LeafRose (S.yeses stop.old) (S.yeses stop.new) p) }
    ensures never_falls { S.yeses stop.old ≤ S.yeses stop.new }
{
    match leaf_part(alloc, n, prim, place, moves, steps, stop)? {
        Part::Sum(sum) => Ok(LeafPart::Made(Kept {
            prim: *prim,
            gate: Gate::of(Arc::new(alloc, sum.settled()?)?),
            steps: Vec::from_slice(alloc, steps)?,
        })),
        Part::Over(evidence) => Ok(LeafPart::Over(evidence)),
        Part::Stopped => Ok(LeafPart::Stopped),
    }
}
