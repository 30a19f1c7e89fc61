//! What the arguments of an application are.

use crate::defs::Called;
use std::marker::Model;

/// A qubit, or a whole register.
#[derive(Clone, Copy, Debug, PartialEq, Eq)]
pub enum Target {
    /// This qubit.
    Single(u32),
    /// The register with this first qubit and this size.
    Whole(u32, u32),
}

/// Targets in order. Clauses see the list of them.
#[derive(Drop)]
pub struct Targets {
    list: Vec<Target>,
}

impl Model for Targets {
    ghost use Rattle.std.specs.Prelude.{List};
    ghost use Rattle.qasm_expand.specs.declared.target.Target.{Target};

    ghost Value = { List Target };

    ghost view = { λ s. s.list.items };
}

impl Targets {
    ghost use Rattle.std.specs.Prelude.{◌≡◌};

    /// The list that the vector holds. Takes no memory.
    pub fn from_vec(list: Vec<Target>) -> Targets
        ensures { result ≡ list.items }
    {
        Targets { list }
    }

    /// The targets in order. Takes no memory.
    pub fn as_slice(&self) -> &[Target]
        ensures { result.now ≡ self.now }
    {
        &self.list
    }
}

/// A gate and its targets.
#[derive(Drop)]
pub struct Aimed {
    pub gate: Called,
    pub targets: Targets,
}
