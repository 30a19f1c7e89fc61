ghost use Rattle.std.specs.Prelude.{◌≡◌, []};

use ps_join::Gate;
use ps_prim::Prim;
use ps_rules::Step;
use std::alloc::Global;

/// The normal sum of a prim's leaf, and the steps that lead there.
#[derive(Drop)]
pub struct Kept {
    pub prim: Prim,
    pub gate: Gate,
    pub steps: Vec<Step>,
}

/// What is worked with while a segment is filled.
#[derive(Drop)]
pub struct Workspace {
    /// The steps of the sum that was reduced last.
    pub steps: Vec<Step>,
    /// Leaves of prims that were met, each in the slot of its prim, where the last one stays. There is
    /// no slot before the first.
    pub leaves: Vec<Option<Box<Kept>>>,
}

impl Workspace {
    /// Without steps or leaves.
    pub fn new(alloc: Global) -> Workspace
        ensures { result.leaves.items ≡ [] }
    {
        Workspace {
            steps: Vec::new(alloc),
            leaves: Vec::new(alloc),
        }
    }
}
