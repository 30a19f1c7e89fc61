//! Which circuits consist of Clifford gates.
ghost use Rattle.std.specs.Prelude.{◌≡◌, ◌↔◌, ◌%◌, IsTrue};
ghost use Rattle.ps_cliff.specs.Circuits.{AreClifford, IsClifford};
ghost use Rattle.ps_cliff.specs.Quadratics.{IsCliffordGate};

use ps_prim::{Item, Prim};
use ps_ring::Angle;
use std::sync::Arc;

/// Half of pi in the units of angles.
const HALF_PI: u32 = 536_870_912;

/// Whether the angle is a multiple of half of pi.
fn is_half_pi(angle: Angle) -> bool
    ensures { IsTrue result ↔ (angle % 536870912 ≡ 0) }
{
    angle.units() % HALF_PI == 0
}

/// Whether each angle of the gate is a multiple of half of pi.
fn is_gate(gate: Prim) -> bool
    ensures { IsTrue result ↔ IsCliffordGate gate }
{
    match gate {
        Prim::U {
            theta,
            phi,
            lambda,
            ..
        } => is_half_pi(theta) && is_half_pi(phi) && is_half_pi(lambda),
        Prim::Cx { .. } => true,
    }
}

/// Whether each gate of the list is a Clifford gate.
fn are_gates(gates: &[Prim]) -> bool
    ensures { IsTrue result ↔ AreClifford gates.now }
{
    for gate in gates {
        if !is_gate(*gate) {
            return false;
        }
    }
    true
}

/// Whether the angles of each `U` of the circuit are multiples of half of pi, as are those of Clifford gates: the gates
/// that `h`, `s`, `cx` and their products are made of. Takes no memory.
pub fn clifford(items: &[Arc<Item>]) -> bool
    ensures { IsTrue result ↔ IsClifford items.now }
{
    for item in items {
        if !are_gates(item.prims.as_slice()) {
            return false;
        }
    }
    true
}
