//! Terminals of the grammar, and the parts of an expression that are read.

/// A terminal of the grammar.
#[derive(Clone, Copy, Debug, PartialEq, Eq)]
pub enum Sort {
    /// The end of the text.
    End,
    /// `OPENQASM`.
    OpenQasm,
    /// `include`.
    Include,
    /// `qreg`.
    Qreg,
    /// `creg`.
    Creg,
    /// `gate`.
    Gate,
    /// `opaque`.
    Opaque,
    /// `barrier`.
    Barrier,
    /// `measure`, `reset` or `if`.
    Outside,
    /// `U`.
    Universal,
    /// `CX`.
    Cx,
    /// `pi`.
    Pi,
    /// `sin`, `cos`, `tan`, `exp`, `ln` or `sqrt`.
    Function,
    /// An identifier.
    Id,
    /// A word that is none of these, or a sign that stands nowhere in the grammar.
    Other,
    /// A number of digits alone.
    Whole,
    /// Another number.
    Decimal,
    /// The text `"qelib1.inc"`.
    Library,
    /// Another text.
    Text,
    /// `;`.
    Semicolon,
    /// `,`.
    Comma,
    /// `(`.
    Open,
    /// `)`.
    Close,
    /// `[`.
    OpenBracket,
    /// `]`.
    CloseBracket,
    /// `{`.
    OpenBrace,
    /// `}`.
    CloseBrace,
    /// `+`.
    Plus,
    /// `-`.
    Minus,
    /// `*`.
    Times,
    /// `/`.
    Over,
    /// `^`.
    Power,
}

/// An operation of an expression, a number and an identifier by the place of their token.
#[derive(Clone, Copy, Debug, PartialEq, Eq)]
pub enum Mark {
    /// A number.
    Number(u32),
    /// pi.
    Pi,
    /// An identifier.
    Id(u32),
    /// Unary minus.
    Neg,
    /// A sum.
    Add,
    /// A difference.
    Sub,
    /// A product.
    Mul,
    /// A quotient.
    Div,
    /// A power.
    Pow,
    /// A function with its operand.
    Func,
}

/// What a chain of operands is joined by.
#[derive(Clone, Copy, Debug, PartialEq, Eq)]
pub enum Level {
    /// `+` and `-`.
    Sums,
    /// `*` and `/`.
    Products,
}
