//! Whether an item that was made is what prims come to on the qubits of targets, and where it would be kept.

ghost use Rattle.std.specs.Prelude.{◌≡◌, ◌<◌, ◌↔◌, length, All, IsTrue};
ghost use Rattle.ps_prim.specs.Maps.{AllWithin, IsWithin};
ghost use Rattle.qasm_expand.specs.Bodies.{on_qubits, all_on};
ghost use Rattle.qasm_expand.specs.Targets.{qubits_at};
ghost use Rattle.qasm_expand.specs.Aims.{Within};

use crate::target::Target;
use crate::targets::qubit;
use ps_prim::Prim;

// How many qubits have slots of their own.
const QUBITS: usize = 64;

// How many slots a qubit has.
const SLOTS: usize = 64;

// The number with its bits mixed.
fn mixed(number: u32) -> u32 {
    let number = number.wrapping_mul(2_654_435_761);
    number ^ (number >> 15)
}

/// The slot of an item by its first prim: those of one qubit stand together.
pub fn slot_of(first: Prim) -> usize
    ensures { result < 4096 }
{
    match first {
        Prim::U {
            theta,
            phi,
            lambda,
            q,
        } => {
            let turn = mixed(mixed(mixed(theta.units()) ^ phi.units()) ^ lambda.units());
            SLOTS * (q as usize % QUBITS) + (turn >> 13) as usize % SLOTS
        }
        Prim::Cx { c, t } => SLOTS * (c as usize % QUBITS) + t as usize % SLOTS,
    }
}

/// Whether a prim that was made is this one on the qubits of targets at an index.
fn is_on(made: Prim, targets: &[Target], index: u32, prim: Prim) -> bool
    requires targets { All (Within 64 index) targets.now }
    requires prim { IsWithin (length targets.now) prim }
    ensures { IsTrue result ↔ (made ≡ on_qubits (qubits_at targets.now index) prim) }
{
    match made {
        Prim::U {
            theta: made_theta,
            phi: made_phi,
            lambda: made_lambda,
            q: made_q,
        } => match prim {
            Prim::U {
                theta,
                phi,
                lambda,
                q,
            } => {
                made_theta == theta
                    && made_phi == phi
                    && made_lambda == lambda
                    && made_q == qubit(targets[q as usize], index)
            }
            Prim::Cx { .. } => false,
        },
        Prim::Cx {
            c: made_c,
            t: made_t,
        } => match prim {
            Prim::U { .. } => false,
            Prim::Cx { c, t } => {
                made_c == qubit(targets[c as usize], index)
                    && made_t == qubit(targets[t as usize], index)
            }
        },
    }
}

/// Whether prims that were made are these on the qubits of targets at an index.
pub fn is_placed(made: &[Prim], targets: &[Target], index: u32, prims: &[Prim]) -> bool
    requires targets { All (Within 64 index) targets.now }
    requires prims { AllWithin (length targets.now) prims.now }
    ensures { IsTrue result ↔ (made.now ≡ all_on (qubits_at targets.now index) prims.now) }
{
    if made.len() != prims.len() {
        return false;
    }
    for place in 0..prims.len() {
        if !is_on(made[place], targets, index, prims[place]) {
            return false;
        }
    }
    true
}
