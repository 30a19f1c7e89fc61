//! Arguments and identifiers by their places among formal ones.

ghost use Rattle.std.specs.Prelude.{◌≡◌, ◌<◌, ℕ, map, length, [], IfOk, All, Ok};
ghost use Rattle.qasm_parse.specs.Places.{SpanIn, ArgIn, IdBelow, FormulaIn};
ghost use Rattle.qasm_expand.specs.Gates.{place_of, places as places_by, first_repeated, numbers as numbers_by, renumbered as renumbered_by, expression as expression_by, expressions as expressions_by, arg_names};
ghost use Rattle.qasm_expand.specs.Checks.{Known, unless, or_fault, spelled as spelled_by};
ghost use Rattle.qasm_expand.specs.Names.{checked};

use crate::defs::{Exprs, Places};
use crate::fault::{FaultName, ReadFault};
use crate::formals::Formals;
use crate::spelling::{count, fault, spelled};
use indexmap::IndexSet;
use qasm_angle::{Expr, Op};
use qasm_parse::{Arg, Formula, Span};
use std::alloc::{AllocError, Global};

/// The place of a name among formal ones.
fn place(bytes: &[u8], formals: &Formals, missing: FaultName, at: Span) -> Result<u32, ReadFault>
    requires { SpanIn bytes.now at }
    ensures { Known result (λ r. r ≡ or_fault missing at (place_of formals.now (spelled_by bytes.now at))) }
{
    match formals.place(spelled(bytes, at)) {
        Some(place) => Ok(count(place)?),
        None => Err(fault(missing, at)),
    }
}

/// The places of arguments among formal ones.
pub fn places(
    alloc: Global,
    bytes: &[u8],
    formals: &Formals,
    args: &[Arg],
) -> Result<Places, ReadFault>
    requires { All (ArgIn bytes.now) args.now }
    ensures { Known result (λ r. r ≡ places_by bytes.now formals.now (arg_names args.now)) }
{
    let mut list = Vec::new(alloc);
    for i in 0..args.len() {
        list.push(place(bytes, formals, FaultName::Unknown, args[i].name)?)?;
    }
    Ok(Places::from_vec(list))
}

/// Names are those of formal arguments.
pub fn known(bytes: &[u8], formals: &Formals, spans: &[Span]) -> Result<(), ReadFault>
    requires { All (SpanIn bytes.now) spans.now }
    ensures { Known result (λ r. r ≡ checked (places_by bytes.now formals.now spans.now)) }
{
    for i in 0..spans.len() {
        place(bytes, formals, FaultName::Unknown, spans[i])?;
    }
    Ok(())
}

/// The places of arguments are different.
pub fn different(alloc: Global, places: &[u32], args: &[Arg]) -> Result<(), ReadFault>
    requires { length places.now ≡ length args.now }
    ensures { Known result (λ r. r ≡ unless FaultName.RepeatedQubit (first_repeated [] places.now (arg_names args.now)) (Ok tt)) }
{
    let mut seen: IndexSet<u32> = IndexSet::new(alloc);
    for i in 0..places.len() {
        if !seen.insert(places[i])? {
            return Err(fault(FaultName::RepeatedQubit, args[i].name));
        }
    }
    Ok(())
}

/// The places of identifiers among the formal parameters.
fn numbers(
    alloc: Global,
    bytes: &[u8],
    formals: &Formals,
    ids: &[Span],
) -> Result<Places, ReadFault>
    requires { All (SpanIn bytes.now) ids.now }
    ensures { Known result (λ r. r ≡ numbers_by bytes.now formals.now ids.now) }
{
    let mut list = Vec::new(alloc);
    for i in 0..ids.len() {
        list.push(place(bytes, formals, FaultName::NoParameter, ids[i])?)?;
    }
    Ok(Places::from_vec(list))
}

/// An operation by the number of a parameter in place of that of an identifier.
fn renumbered(numbers: &[u32], op: Op) -> Op
    requires { IdBelow (length numbers.now) op }
    ensures { result ≡ renumbered_by numbers.now op }
{
    match op {
        Op::Id(i) => Op::Id(numbers[i as usize]),
        _ => op,
    }
}

/// The operations of an expression by the numbers of parameters.
fn operations(alloc: Global, numbers: &[u32], ops: &[Op]) -> Result<Vec<Op>, AllocError>
    requires { All (IdBelow (length numbers.now)) ops.now }
    ensures { IfOk result (λ v. v.items ≡ map (renumbered_by numbers.now) ops.now) }
{
    let mut out = Vec::new(alloc);
    for i in 0..ops.len() {
        out.push(renumbered(numbers, ops[i]))?;
    }
    Ok(out)
}

/// An expression by the numbers of parameters.
fn expression(
    alloc: Global,
    bytes: &[u8],
    formals: &Formals,
    formula: &Formula,
) -> Result<Expr, ReadFault>
    requires { FormulaIn bytes.now formula.now }
    ensures { Known result (λ r. r ≡ expression_by bytes.now formals.now formula.now) }
{
    let numbers = numbers(alloc, bytes, formals, formula.ids.items())?;
    let ops = operations(alloc, numbers.as_slice(), formula.expr.ops())?;
    Ok(Expr::new(ops))
}

/// Expressions by the numbers of parameters.
pub fn expressions(
    alloc: Global,
    bytes: &[u8],
    formals: &Formals,
    formulas: &[Formula],
) -> Result<Exprs, ReadFault>
    requires { All (FormulaIn bytes.now) formulas.now }
    ensures { Known result (λ r. r ≡ expressions_by bytes.now formals.now formulas.now) }
{
    let mut list = Vec::new(alloc);
    for formula in formulas {
        list.push(expression(alloc, bytes, formals, formula)?)?;
    }
    Ok(Exprs::from_vec(list))
}
