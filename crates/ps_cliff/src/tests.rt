use crate::clifford;
use crate::laws::quadratic_law;
use ps_prim::{Item, Prim};
use ps_ring::Angle;
use std::alloc::{AllocError, Global};
use std::sync::Arc;
use std::test::Fail;

// Whether the circuit of this one gate is one of Clifford gates.
fn told(alloc: Global, theta: u32, phi: u32, lambda: u32) -> Result<bool, AllocError> {
    let gate = Prim::U {
        theta: Angle::of(theta),
        phi: Angle::of(phi),
        lambda: Angle::of(lambda),
        q: 0,
    };
    let item = Arc::new(alloc, Item::new(vec![in alloc; gate]?))?;
    Ok(clifford(&vec![in alloc; item]?))
}

#[test]
fn circuits_of_one_gate(rt: HostRuntime) -> Result<(), Fail> {
    let alloc = rt.alloc();
    quadratic_law();
    // h, s, and the inverse of s
    assert!(rt; told(alloc, 536_870_912, 0, 1_073_741_824)?);
    assert!(rt; told(alloc, 0, 0, 536_870_912)?);
    assert!(rt; told(alloc, 0, 0, 3_758_096_384)?);
    // t, and an angle by which it is not one of them in each place
    assert!(rt; !told(alloc, 0, 0, 268_435_456)?);
    assert!(rt; !told(alloc, 268_435_456, 0, 0)?);
    assert!(rt; !told(alloc, 0, 1, 0)?);
    Ok(())
}
