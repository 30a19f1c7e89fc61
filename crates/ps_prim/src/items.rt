ghost use Rattle.std.specs.Prelude.{◌≡◌, ◌≤◌, vec_len};
ghost use Rattle.ps_prim.specs.Maps.{AllWithin};
ghost use Rattle.ps_prim.specs.Items.{IsItem, IsItem-prop};

use super::list::Prims;
use super::prims::Primitive as Prim;

/// What a step of a circuit does: 0 to 4,096 primitive gates, the first of them first, on qubits
/// below 64. A controlled not has two different qubits.
#[derive(Drop)]
pub struct Item {
    pub prims: Prims,
    ghost bounded: { IsItem prims } by { IsItem-prop prims },
}

impl Item {
    /// The item of these gates.
    pub fn new(prims: Vec<Prim>) -> Item
        requires few { vec_len prims ≤ 4096 }
        requires within { AllWithin 64 prims.items }
        ensures { result.prims ≡ prims.items }
    {
        Item {
            prims: Prims::from_vec(prims),
        }
    }
}
