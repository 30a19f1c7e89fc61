ghost use Rattle.std.specs.Prelude.{◌≡◌};

use super::prims::Primitive as Prim;
use std::marker::Model;

/// A list of primitive gates, the first of them first.
#[derive(Drop)]
pub struct Prims {
    list: Vec<Prim>,
}

impl Model for Prims {
    ghost use Rattle.std.specs.Prelude.{List};
    ghost use Rattle.ps_prim.specs.declared.prims.Primitive.{Primitive as Prim};

    ghost Value = { List Prim };

    ghost view = { λ p. p.list.items };
}

impl Prims {
    /// The list that the vector holds. Takes no memory.
    pub fn from_vec(list: Vec<Prim>) -> Prims
        ensures { result ≡ list.items }
    {
        Prims { list }
    }

    /// The gates in order. Takes no memory.
    pub fn as_slice(&self) -> &[Prim]
        ensures { result.now ≡ self.now }
    {
        &self.list
    }
}
