ghost use Rattle.std.specs.Prelude.{◌≡◌, map};
ghost use Rattle.ps_reach.specs.Runs.{prims_of, AllItems};

use ps_prim::Item;
use std::marker::Model;
use std::sync::Arc;

/// The items of a segment, in order, each shared with the other segments that have it. Clauses see the
/// list of their lists of prims.
#[derive(Drop)]
pub struct Items {
    list: Vec<Arc<Item>>,
}

impl Model for Items {
    ghost use Rattle.std.specs.Prelude.{List, map};
    ghost use Rattle.ps_prim.specs.declared.prims.Primitive.{Primitive as Prim};
    ghost use Rattle.ps_reach.specs.Runs.{prims_of, AllItems};

    ghost Value = { List (List Prim) };

    ghost view = { λ s. map prims_of s.list.items };

    ghost invariant = { λ s. AllItems (map prims_of s.list.items) };
}

impl Items {
    /// The list that the vector holds. Takes no memory.
    pub fn from_vec(list: Vec<Arc<Item>>) -> Items
        ensures { result ≡ map prims_of list.items }
    {
        Items { list }
    }

    /// The items in order. Takes no memory.
    pub fn as_slice(&self) -> &[Arc<Item>]
        ensures value { map prims_of result.now ≡ self.now }
        ensures bounded { AllItems self.now }
    {
        &self.list
    }
}
