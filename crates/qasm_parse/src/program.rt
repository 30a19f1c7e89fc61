//! Programs.

ghost use Rattle.std.specs.Prelude.{◌≡◌};

use qasm_angle::Expr;
use std::marker::Model;

/// The bytes `from..to` of the text: a name, a whole number or a text token.
#[derive(Clone, Copy, Debug, PartialEq, Eq)]
pub struct Span {
    /// The offset of the first byte.
    pub from: u32,
    /// The offset behind the last byte.
    pub to: u32,
}

/// A list of places.
#[derive(Drop)]
pub struct Spans {
    items: Vec<Span>,
}

impl Model for Spans {
    ghost use Rattle.std.specs.Prelude.{List};
    ghost use Rattle.qasm_parse.specs.declared.program.Span.{Span};

    ghost Value = { List Span };

    ghost view = { λ s. s.items.items };
}

impl Spans {
    /// The list of these places.
    pub fn new(items: Vec<Span>) -> Spans
        ensures { result ≡ items.items }
    {
        Spans { items }
    }

    /// The places.
    pub fn items(&self) -> &[Span]
        ensures { result.now ≡ self.now }
    {
        &self.items
    }
}

/// A register, or one of its places.
#[derive(Clone, Copy, Debug, PartialEq, Eq)]
pub struct Arg {
    /// The register's name, or a formal argument's.
    pub name: Span,
    /// The whole number between the brackets, where there are any.
    pub index: Option<Span>,
}

/// A list of arguments.
#[derive(Drop)]
pub struct Args {
    items: Vec<Arg>,
}

impl Model for Args {
    ghost use Rattle.std.specs.Prelude.{List};
    ghost use Rattle.qasm_parse.specs.declared.program.Arg.{Arg};

    ghost Value = { List Arg };

    ghost view = { λ s. s.items.items };
}

impl Args {
    /// The list of these arguments.
    pub fn new(items: Vec<Arg>) -> Args
        ensures { result ≡ items.items }
    {
        Args { items }
    }

    /// The arguments.
    pub fn items(&self) -> &[Arg]
        ensures { result.now ≡ self.now }
    {
        &self.items
    }
}

/// An expression of a text.
#[derive(Drop)]
pub struct Formula {
    /// The expression; its `Id(i)` is identifier i of `ids`.
    pub expr: Expr,
    /// All identifiers from its first token to its last, those behind a function's name too.
    pub ids: Spans,
    /// The offset of its first byte.
    pub from: u32,
}

/// A list of expressions.
#[derive(Drop)]
pub struct Formulas {
    items: Vec<Formula>,
}

impl Model for Formulas {
    ghost use Rattle.std.specs.Prelude.{List};
    ghost use Rattle.qasm_parse.specs.declared.program.Formula.{Formula};

    ghost Value = { List Formula };

    ghost view = { λ s. s.items.items };
}

impl Formulas {
    /// The list of these expressions.
    pub fn new(items: Vec<Formula>) -> Formulas
        ensures { result ≡ items.items }
    {
        Formulas { items }
    }

    /// The expressions.
    pub fn items(&self) -> &[Formula]
        ensures { result.now ≡ self.now }
    {
        &self.items
    }
}

/// What is applied.
#[derive(Clone, Copy, Debug, PartialEq, Eq)]
pub enum Called {
    /// `U`.
    U,
    /// `CX`.
    Cx,
    /// A gate by its name.
    Named,
}

/// An application.
#[derive(Drop)]
pub struct Call {
    /// What is applied.
    pub gate: Called,
    /// Its word.
    pub at: Span,
    /// The parameters.
    pub params: Formulas,
    /// The arguments; those of a statement in a body have no index.
    pub args: Args,
}

/// A statement of a gate's body.
#[derive(Drop)]
pub enum Inner {
    /// An application.
    Apply(Call),
    /// A barrier on formal arguments.
    Barrier(Spans),
}

/// A gate's body.
#[derive(Drop)]
pub struct Body {
    items: Vec<Inner>,
}

impl Model for Body {
    ghost use Rattle.std.specs.Prelude.{List};
    ghost use Rattle.qasm_parse.specs.declared.program.Inner.{Inner};

    ghost Value = { List Inner };

    ghost view = { λ s. s.items.items };
}

impl Body {
    /// The body of these statements.
    pub fn new(items: Vec<Inner>) -> Body
        ensures { result ≡ items.items }
    {
        Body { items }
    }

    /// The statements.
    pub fn items(&self) -> &[Inner]
        ensures { result.now ≡ self.now }
    {
        &self.items
    }
}

/// A statement.
#[derive(Drop)]
pub enum Statement {
    /// The library, by its text token.
    Include(Span),
    /// A quantum register.
    Qreg {
        name: Span,
        size: Span,
    },
    /// A classical register.
    Creg {
        name: Span,
        size: Span,
    },
    /// The definition of a gate: its name, formal parameters, formal arguments and body.
    Gate {
        name: Span,
        params: Spans,
        args: Spans,
        body: Body,
    },
    /// An application.
    Apply(Call),
    /// A barrier.
    Barrier(Args),
}

/// A text or a block: its statements in order.
#[derive(Drop)]
pub struct Program {
    statements: Vec<Statement>,
}

impl Model for Program {
    ghost use Rattle.std.specs.Prelude.{List};
    ghost use Rattle.qasm_parse.specs.declared.program.Statement.{Statement};

    ghost Value = { List Statement };

    ghost view = { λ s. s.statements.items };
}

impl Program {
    /// The program of these statements.
    pub fn new(statements: Vec<Statement>) -> Program
        ensures { result ≡ statements.items }
    {
        Program { statements }
    }

    /// The statements.
    pub fn statements(&self) -> &[Statement]
        ensures { result.now ≡ self.now }
    {
        &self.statements
    }
}
