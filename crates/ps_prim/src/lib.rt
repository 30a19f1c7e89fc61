//! Primitive gates, items of a circuit, and the definitions of what lists of gates do.
#![tactic(auto)]

pub mod items;
pub mod laws;
pub mod list;
pub mod prims;

pub use items::Item;
pub use list::Prims;
pub use prims::Primitive as Prim;

#[cfg(test)]
mod tests {
    use super::*;
    use ps_ring::Angle;
    use std::alloc::AllocError;

    #[test]
    fn an_item_gives_its_gates(rt: HostRuntime) -> Result<(), AllocError> {
        let turn = Prim::U {
            theta: Angle::of(0),
            phi: Angle::of(0),
            lambda: Angle::of(1 << 29),
            q: 63,
        };
        let item = Item::new(vec![in rt.alloc(); Prim::Cx { c: 0, t: 63 }, turn]?);
        assert_eq!(rt; item.prims.as_slice().len(), 2);
        assert!(rt; matches!(item.prims.as_slice()[0], Prim::Cx { c: 0, t: 63 }));
        assert!(rt; matches!(item.prims.as_slice()[1], Prim::U { q: 63, .. }));
        let none = Item::new(vec![in rt.alloc()]?);
        assert!(rt; none.prims.as_slice().is_empty());
        Ok(())
    }
}
