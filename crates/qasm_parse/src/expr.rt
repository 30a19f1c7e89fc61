//! Expressions.

ghost use Rattle.std.specs.Prelude.{◌≡◌, ◌≢◌, ◌-◌, ◌<◌, ◌≤◌, length};
ghost use Rattle.qasm_parse.specs.Grammar.{at as terminal, sign_of, leaf_of, chain as chain_part, signed as signed_part, power as power_part, atom as atom_part, operand as operand_part, Answers, GoesOn};
ghost use Rattle.qasm_parse.specs.declared.sort.Sort.TheVariants.{End};

use crate::fault::ParseFault;
use crate::sort::{Level, Mark, Sort};

/// The terminal at a place, and End past the last.
pub fn sort_at(sorts: &[Sort], at: usize) -> Sort
    ensures value { result ≡ terminal sorts.now at }
    ensures inside { result ≢ End → at < length sorts.now }
{
    if at < sorts.len() {
        sorts[at]
    } else {
        Sort::End
    }
}

/// What joins two operands of a level.
fn operation(level: Level, sort: Sort) -> Option<Mark>
    ensures { result ≡ sign_of level sort }
{
    match (level, sort) {
        (Level::Sums, Sort::Plus) => Some(Mark::Add),
        (Level::Sums, Sort::Minus) => Some(Mark::Sub),
        (Level::Products, Sort::Times) => Some(Mark::Mul),
        (Level::Products, Sort::Over) => Some(Mark::Div),
        _ => None,
    }
}

/// The operation of an atom of one terminal.
fn simple(sort: Sort, at: u32) -> Option<Mark>
    ensures { result ≡ leaf_of sort at }
{
    match sort {
        Sort::Whole => Some(Mark::Number(at)),
        Sort::Decimal => Some(Mark::Number(at)),
        Sort::Pi => Some(Mark::Pi),
        Sort::Id => Some(Mark::Id(at)),
        _ => None,
    }
}

/// Operands joined by the signs of a level.
#[cycle(expr)]
pub fn chain(
    level: Level,
    sorts: &[Sort],
    at: usize,
    room: u32,
    ops: &mut Vec<Mark>,
) -> Result<usize, ParseFault>
    requires small { length sorts.now ≤ 16777216 }
    requires inside { at ≤ length sorts.now }
    ensures reads { Answers sorts.now (chain_part level) room at ops.old.items ops.new.items result }
    ensures goes_on { GoesOn sorts.now at result }
{
    let mut to = operand(level, sorts, at, room, ops)?;
    while let Some(op) = operation(level, sort_at(sorts, to)) {
        to = operand(level, sorts, to + 1, room, ops)?;
        ops.push(op)?;
    }
    Ok(to)
}

/// An operand of a level.
#[cycle(expr)]
fn operand(
    level: Level,
    sorts: &[Sort],
    at: usize,
    room: u32,
    ops: &mut Vec<Mark>,
) -> Result<usize, ParseFault>
    requires small { length sorts.now ≤ 16777216 }
    requires inside { at ≤ length sorts.now }
    ensures reads { Answers sorts.now (operand_part level) room at ops.old.items ops.new.items result }
    ensures goes_on { GoesOn sorts.now at result }
{
    match level {
        Level::Sums => chain(Level::Products, sorts, at, room, ops),
        Level::Products => signed(sorts, at, room, ops),
    }
}

/// A power, or a minus and what it stands before.
#[cycle(expr)]
fn signed(sorts: &[Sort], at: usize, room: u32, ops: &mut Vec<Mark>) -> Result<usize, ParseFault>
    requires small { length sorts.now ≤ 16777216 }
    requires inside { at ≤ length sorts.now }
    ensures reads { Answers sorts.now signed_part room at ops.old.items ops.new.items result }
    ensures goes_on { GoesOn sorts.now at result }
{
    if let Sort::Minus = sort_at(sorts, at) {
        if room == 0 {
            return Err(ParseFault::Deep(at as u32));
        }
        let to = negated(sorts, at + 1, room, ops)?;
        ops.push(Mark::Neg)?;
        return Ok(to);
    }
    power(sorts, at, room, ops)
}

/// What a unary minus stands before: it binds less closely than `^`.
#[cycle(expr)]
fn negated(sorts: &[Sort], at: usize, room: u32, ops: &mut Vec<Mark>) -> Result<usize, ParseFault>
    requires small { length sorts.now ≤ 16777216 }
    requires inside { at ≤ length sorts.now }
    requires some { 0 < room }
    ensures reads { Answers sorts.now signed_part (room - 1) at ops.old.items ops.new.items result }
    ensures goes_on { GoesOn sorts.now at result }
{
    signed(sorts, at, room - 1, ops)
}

/// An atom, or one raised to an exponent.
#[cycle(expr)]
fn power(sorts: &[Sort], at: usize, room: u32, ops: &mut Vec<Mark>) -> Result<usize, ParseFault>
    requires small { length sorts.now ≤ 16777216 }
    requires inside { at ≤ length sorts.now }
    ensures reads { Answers sorts.now power_part room at ops.old.items ops.new.items result }
    ensures goes_on { GoesOn sorts.now at result }
{
    let middle = atom(sorts, at, room, ops)?;
    if let Sort::Power = sort_at(sorts, middle) {
        if room == 0 {
            return Err(ParseFault::Deep(middle as u32));
        }
        let to = exponent(sorts, middle + 1, room, ops)?;
        ops.push(Mark::Pow)?;
        return Ok(to);
    }
    Ok(middle)
}

/// The right side of `^`, which groups to the right.
#[cycle(expr)]
fn exponent(
    sorts: &[Sort],
    from: usize,
    room: u32,
    ops: &mut Vec<Mark>,
) -> Result<usize, ParseFault>
    requires small { length sorts.now ≤ 16777216 }
    requires inside { from ≤ length sorts.now }
    requires some { 0 < room }
    ensures reads { Answers sorts.now signed_part (room - 1) from ops.old.items ops.new.items result }
    ensures goes_on { GoesOn sorts.now from result }
{
    signed(sorts, from, room - 1, ops)
}

/// A number, pi, an identifier, a group or a call.
#[cycle(expr)]
fn atom(sorts: &[Sort], at: usize, room: u32, ops: &mut Vec<Mark>) -> Result<usize, ParseFault>
    requires small { length sorts.now ≤ 16777216 }
    requires inside { at ≤ length sorts.now }
    ensures reads { Answers sorts.now atom_part room at ops.old.items ops.new.items result }
    ensures goes_on { GoesOn sorts.now at result }
{
    let first = sort_at(sorts, at);
    if at < sorts.len() {
        if let Some(op) = simple(first, at as u32) {
            ops.push(op)?;
            return Ok(at + 1);
        }
    }
    match first {
        Sort::Open => group(sorts, at, room, ops),
        Sort::Function => call(sorts, at, room, ops),
        _ => Err(ParseFault::Syntax(at as u32)),
    }
}

/// An expression in parentheses.
#[cycle(expr)]
fn group(sorts: &[Sort], at: usize, room: u32, ops: &mut Vec<Mark>) -> Result<usize, ParseFault>
    requires small { length sorts.now ≤ 16777216 }
    requires inside { at ≤ length sorts.now }
    requires begins { terminal sorts.now at ≡ Sort.Open }
    ensures reads { Answers sorts.now atom_part room at ops.old.items ops.new.items result }
    ensures goes_on { GoesOn sorts.now at result }
{
    if room == 0 {
        return Err(ParseFault::Deep(at as u32));
    }
    let to = chain(Level::Sums, sorts, at + 1, room - 1, ops)?;
    match sort_at(sorts, to) {
        Sort::Close => Ok(to + 1),
        _ => Err(ParseFault::Syntax(to as u32)),
    }
}

/// A function with its operand.
#[cycle(expr)]
fn call(sorts: &[Sort], at: usize, room: u32, ops: &mut Vec<Mark>) -> Result<usize, ParseFault>
    requires small { length sorts.now ≤ 16777216 }
    requires inside { at ≤ length sorts.now }
    requires begins { terminal sorts.now at ≡ Sort.Function }
    ensures reads { Answers sorts.now atom_part room at ops.old.items ops.new.items result }
    ensures goes_on { GoesOn sorts.now at result }
{
    if room == 0 {
        return Err(ParseFault::Deep(at as u32));
    }
    let length = ops.len();
    match sort_at(sorts, at + 1) {
        Sort::Open => {}
        _ => return Err(ParseFault::Syntax((at + 1) as u32)),
    }
    let to = chain(Level::Sums, sorts, at + 2, room - 1, ops)?;
    match sort_at(sorts, to) {
        Sort::Close => {}
        _ => return Err(ParseFault::Syntax(to as u32)),
    }
    ops.truncate(length);
    ops.push(Mark::Func)?;
    Ok(to + 1)
}
