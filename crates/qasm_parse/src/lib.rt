//! Programs in the unitary part of OpenQASM 2.0, read from tokens.
#![tactic(auto)]

mod declarations;
mod expr;
mod fault;
mod formulas;
mod numbers;
mod phrases;
mod program;
mod sort;
mod statements;
mod terminals;
mod text;
mod whence;

pub use fault::ParseFault;
pub use program::{
    Arg, Args, Body, Call, Called, Formula, Formulas, Inner, Program, Span, Spans, Statement,
};
pub use text::{parse, parse_block};

#[cfg(test)]
mod tests;
