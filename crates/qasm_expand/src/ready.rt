//! Gates without parameters that were applied, with the prims that they came to.

ghost use Rattle.std.specs.Prelude.{◌≡◌, ◌<◌, List, IfSome, OnOk, IsTrue};
ghost use Rattle.qasm_expand.specs.declared.defs.Def.{Def};
ghost use Rattle.qasm_expand.specs.Targets.{exprs_of};
ghost use Rattle.qasm_expand.specs.Ready.{IsExpansion, AreExpansions};

use crate::defs::Called;
use ps_prim::Prim;
use qasm_parse::Formula;
use std::alloc::{AllocError, Global};

// How many expansions are kept at most.
const SLOTS: usize = 64;

/// A gate and its prims, on the places of its arguments.
#[derive(Drop)]
pub struct Expansion {
    pub gate: Called,
    pub prims: Vec<Prim>,
}

/// The prims of gates that were applied without parameters, each in the slot of its gate, where the last
/// one stays. They hold as long as the gates that are known stay the same.
#[derive(Drop)]
pub struct Ready {
    pub slots: Vec<Option<Expansion>>,
}

// The slot of a gate.
fn slot_of(gate: Called) -> usize
    ensures { result < 64 }
{
    match gate {
        Called::U => 0,
        Called::Cx => 0,
        Called::Def(number) => 1 + number as usize % (SLOTS - 1),
    }
}

// Whether the two are one gate.
fn same_gate(first: Called, second: Called) -> bool
    ensures { IsTrue result → first ≡ second }
{
    match first {
        Called::U => match second {
            Called::U => true,
            _ => false,
        },
        Called::Cx => match second {
            Called::Cx => true,
            _ => false,
        },
        Called::Def(number) => match second {
            Called::Def(other) => number == other,
            _ => false,
        },
    }
}

impl Ready {
    /// No gate was applied.
    pub fn new(alloc: Global) -> Ready
        ensures { (defs : List Def) → AreExpansions defs result.slots.items }
    {
        Ready {
            slots: Vec::new(alloc),
        }
    }

    /// Forgets them all, since other gates may be known now.
    pub fn clear(&mut self)
        ensures { (defs : List Def) → AreExpansions defs self.new.slots.items }
    {
        self.slots.clear();
    }

    /// The prims of the gate, applied with these expressions, where they are known.
    pub fn prims(&self, gate: Called, formulas: &[Formula]) -> Option<&[Prim]>
        ensures { IfSome result (λ gs. (defs : List Def) → AreExpansions defs self.now.slots.items → IsExpansion defs gate (exprs_of formulas.now) gs.now) }
    {
        if !formulas.is_empty() {
            return None;
        }
        match self.slots.get(slot_of(gate)) {
            Some(Some(expansion)) => {
                if same_gate(expansion.gate, gate) {
                    Some(&expansion.prims)
                } else {
                    None
                }
            }
            _ => None,
        }
    }

    /// Keeps the prims of the gate where it has no parameter.
    pub fn keep(
        &mut self,
        gate: Called,
        formulas: &[Formula],
        prims: Vec<Prim>,
    ) -> Result<(), AllocError>
        ensures { OnOk result ((defs : List Def) → AreExpansions defs self.old.slots.items → IsExpansion defs gate (exprs_of formulas.now) prims.items → AreExpansions defs self.new.slots.items) }
    {
        if !formulas.is_empty() {
            return Ok(());
        }
        'slots: while self.slots.len() < SLOTS {
            self.slots.push(None)?;
        }
        let slot = slot_of(gate);
        self.slots[slot] = Some(Expansion { gate, prims });
        Ok(())
    }
}
