//! Lists of different names, and the places of names in them.

ghost use Rattle.std.specs.Prelude.{◌≡◌, ◌++◌, ◌∷◌, [], true, None, is_none, map, IfOk, All, Ok};
ghost use Rattle.qasm_parse.specs.Places.{SpanIn};
ghost use Rattle.qasm_expand.specs.Gates.{place_of, first_again, names};
ghost use Rattle.qasm_expand.specs.Checks.{Known, unless};

use crate::fault::{FaultName, ReadFault};
use crate::spelling::{fault, spelled};
use indexmap::IndexSet;
use qasm_parse::Span;
use std::alloc::{AllocError, Global};
use std::marker::Model;

/// Different names in order. Clauses see the list of them.
#[derive(Drop)]
pub struct Formals {
    table: IndexSet<Vec<u8>>,
}

impl Model for Formals {
    ghost use Rattle.std.specs.Prelude.{List, ℕ, map, vec_items};

    ghost Value = { List (List ℕ) };

    ghost view = { λ s. map vec_items s.table.keys };
}

impl Formals {
    /// No name.
    pub fn new(alloc: Global) -> Formals
        ensures { result ≡ [] }
    {
        Formals {
            table: IndexSet::new(alloc),
        }
    }

    /// The place of a name.
    pub fn place(&self, name: &[u8]) -> Option<usize>
        ensures { result ≡ place_of self.now name.now }
    {
        self.table.get_index_of(name)
    }

    /// One name more, unless it is there already, and whether it is new.
    pub fn push(&mut self, alloc: Global, name: &[u8]) -> Result<bool, AllocError>
        ensures told { IfOk result (λ new. new ≡ is_none (place_of self.old name.now)) }
        ensures pushed { IfOk result (λ new. new ≡ true → self.new ≡ self.old ++ name.now ∷ []) }
    {
        let new = self.table.insert(name.to_vec(alloc)?)?;
        Ok(new)
    }
}

/// The names of formal parameters or arguments, of which none stands twice.
pub fn formal_names(alloc: Global, bytes: &[u8], spans: &[Span]) -> Result<Formals, ReadFault>
    requires { All (SpanIn bytes.now) spans.now }
    ensures { Known result (λ r. r ≡ unless FaultName.Redeclared (first_again bytes.now [] spans.now) (Ok (names bytes.now spans.now))) }
{
    let mut out = Formals::new(alloc);
    for i in 0..spans.len() {
        let span = spans[i];
        if !out.push(alloc, spelled(bytes, span))? {
            return Err(fault(FaultName::Redeclared, span));
        }
    }
    Ok(out)
}
