//! What an application needs of its gate.

ghost use Rattle.std.specs.Prelude.{◌≡◌};
ghost use Rattle.qasm_parse.specs.Places.{SpanIn};
ghost use Rattle.qasm_expand.specs.Tables.{params_of, args_of, size_of};
ghost use Rattle.qasm_expand.specs.Gates.{called as gate_called, wrong_arity as arity_is_wrong};

use crate::bounds::Bounds;
use crate::defs::{Called, Defs};
use crate::fault::{FaultName, ReadFault};
use crate::spelling::{fault, spelled};
use qasm_parse::{Called as Word, Span};

/// How many parameters and arguments a gate takes, and how many primitive gates it comes to, told as
/// 4,097 where they are more than 4,096.
#[derive(Clone, Copy, Debug, PartialEq, Eq)]
pub struct Shape {
    pub params: u32,
    pub args: u32,
    pub size: u32,
}

/// What a gate takes and comes to.
pub fn shape_of(defs: &Defs, gate: Called) -> Shape
    ensures params { result.params ≡ params_of defs.now gate }
    ensures args { result.args ≡ args_of defs.now gate }
    ensures size { result.size ≡ size_of defs.now gate }
{
    match gate {
        Called::U => Shape {
            params: 3,
            args: 1,
            size: 1,
        },
        Called::Cx => Shape {
            params: 0,
            args: 2,
            size: 1,
        },
        Called::Def(number) => match defs.as_slice().get(number as usize) {
            Some(def) => Shape {
                params: def.params,
                args: def.args,
                size: def.size,
            },
            None => Shape {
                params: 0,
                args: 0,
                size: 0,
            },
        },
    }
}

/// The gate that a word means.
pub fn called(bytes: &[u8], bounds: &Bounds, word: Word, place: Span) -> Result<Called, ReadFault>
    requires { SpanIn bytes.now place }
    ensures { result ≡ gate_called bytes.now bounds.now word place }
{
    match word {
        Word::U => Ok(Called::U),
        Word::Cx => Ok(Called::Cx),
        Word::Named => match bounds.meaning(spelled(bytes, place)) {
            Some(number) => Ok(Called::Def(number)),
            None => Err(fault(FaultName::Unknown, place)),
        },
    }
}

/// Whether a gate takes another number of parameters or arguments.
pub fn wrong_arity(defs: &Defs, gate: Called, params: usize, args: usize) -> bool
    ensures { result ≡ arity_is_wrong defs.now gate params args }
{
    let shape = shape_of(defs, gate);
    params != shape.params as usize || args != shape.args as usize
}
