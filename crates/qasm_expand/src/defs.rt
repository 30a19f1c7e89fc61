//! Gates as they are kept: their bodies with every name resolved.

ghost use Rattle.std.specs.Prelude.{◌≡◌, ◌++◌, ◌∷◌, [], OnOk};

use qasm_angle::Expr;
use std::alloc::AllocError;
use std::marker::Model;

/// What is applied.
#[derive(Clone, Copy, Debug, PartialEq, Eq)]
pub enum Called {
    /// `U`.
    U,
    /// `CX`.
    Cx,
    /// The gate of this number in the list of gates.
    Def(u32),
}

/// A list of expressions.
#[derive(Drop)]
pub struct Exprs {
    list: Vec<Expr>,
}

impl Model for Exprs {
    ghost use Rattle.std.specs.Prelude.{List};
    ghost use Rattle.qasm_angle.specs.declared.types.Op.{Op};

    ghost Value = { List (List Op) };

    ghost view = { λ s. s.list.items };
}

impl Exprs {
    /// The list that the vector holds. Takes no memory.
    pub fn from_vec(list: Vec<Expr>) -> Exprs
        ensures { result ≡ list.items }
    {
        Exprs { list }
    }

    /// The expressions in order. Takes no memory.
    pub fn as_slice(&self) -> &[Expr]
        ensures { result.now ≡ self.now }
    {
        &self.list
    }
}

/// A list of places of formal arguments.
#[derive(Drop)]
pub struct Places {
    list: Vec<u32>,
}

impl Model for Places {
    ghost use Rattle.std.specs.Prelude.{List, ℕ};

    ghost Value = { List ℕ };

    ghost view = { λ s. s.list.items };
}

impl Places {
    /// The list that the vector holds. Takes no memory.
    pub fn from_vec(list: Vec<u32>) -> Places
        ensures { result ≡ list.items }
    {
        Places { list }
    }

    /// The places in order. Takes no memory.
    pub fn as_slice(&self) -> &[u32]
        ensures { result.now ≡ self.now }
    {
        &self.list
    }
}

/// An application in a body. In its expressions `Id(i)` is parameter i of the body's gate, and an
/// argument is a place in the list of its arguments.
#[derive(Drop)]
pub struct Inner {
    /// What is applied; a gate stands before the body's gate in the list of gates.
    pub gate: Called,
    /// Its parameters.
    pub params: Exprs,
    /// Its arguments, each different.
    pub args: Places,
}

/// The applications of a body, in order.
#[derive(Drop)]
pub struct Body {
    list: Vec<Inner>,
}

impl Model for Body {
    ghost use Rattle.std.specs.Prelude.{List};
    ghost use Rattle.qasm_expand.specs.declared.defs.Inner.{Inner};

    ghost Value = { List Inner };

    ghost view = { λ s. s.list.items };
}

impl Body {
    /// The list that the vector holds. Takes no memory.
    pub fn from_vec(list: Vec<Inner>) -> Body
        ensures { result ≡ list.items }
    {
        Body { list }
    }

    /// The applications in order. Takes no memory.
    pub fn as_slice(&self) -> &[Inner]
        ensures { result.now ≡ self.now }
    {
        &self.list
    }
}

/// A gate.
#[derive(Drop)]
pub struct Def {
    /// How many parameters it takes.
    pub params: u32,
    /// How many arguments it takes.
    pub args: u32,
    /// How many primitive gates its body comes to, told as 4,097 where they are more than 4,096.
    pub size: u32,
    /// Its body, without the barriers.
    pub body: Body,
}

/// Gates in the order in which they were read.
#[derive(Drop)]
pub struct Defs {
    list: Vec<Def>,
}

impl Model for Defs {
    ghost use Rattle.std.specs.Prelude.{List};
    ghost use Rattle.qasm_expand.specs.declared.defs.Def.{Def};

    ghost Value = { List Def };

    ghost view = { λ s. s.list.items };
}

impl Defs {
    /// The list that the vector holds. Takes no memory.
    pub fn from_vec(list: Vec<Def>) -> Defs
        ensures { result ≡ list.items }
    {
        Defs { list }
    }

    /// One gate more.
    pub(crate) fn push(&mut self, def: Def) -> Result<(), AllocError>
        ensures { OnOk result (self.new ≡ self.old ++ def ∷ []) }
    {
        self.list.push(def)?;
        Ok(())
    }

    /// The gates in order. Takes no memory.
    pub fn as_slice(&self) -> &[Def]
        ensures { result.now ≡ self.now }
    {
        &self.list
    }
}
