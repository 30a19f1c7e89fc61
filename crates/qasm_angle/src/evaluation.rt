//! The value of an expression.

ghost use Rattle.std.specs.Prelude.{◌≡◌, ℕ, ◌+◌, ◌<◌, ◌≤◌, true, reverse, length, OnOk, List, ◌∷◌, Result};
ghost use Rattle.qasm_angle.specs.declared.types.Pair.{Pair};
ghost use Rattle.qasm_angle.specs.declared.types.AngleFault.{AngleFault};
ghost use Rattle.qasm_angle.specs.Trees.{Tree, postfix, wants};
ghost use Rattle.qasm_angle.specs.Values.{LeafIs, JoinedIs, Values, Told};
ghost use Rattle.qasm_angle.specs.Machine.{leaves_one, Stepped};

use crate::expr::Expr;
use crate::numbers::number;
use crate::pairs::{add, divide, multiply, negated, pi, raise, real, subtract};
use crate::types::{AngleFault, Op, Pair};
use std::alloc::Global;

/// How many operands an operation takes.
fn operands(op: Op) -> u32
    ensures value { result ≡ wants op }
    ensures few { result ≤ 2 }
{
    match op {
        Op::Number { .. } | Op::Pi | Op::Id(_) | Op::Func => 0,
        Op::Neg => 1,
        Op::Add | Op::Sub | Op::Mul | Op::Div | Op::Pow => 2,
    }
}

/// The value of an operation without operands.
fn leaf(op: Op, params: &[Pair]) -> Result<Pair, AngleFault>
    requires { wants op ≡ 0 }
    ensures { LeafIs params.now op result }
{
    match op {
        Op::Number { digits, ten } => real(number(digits, ten)),
        Op::Pi => Ok(pi()),
        Op::Id(i) => match params.get(i as usize) {
            Some(x) => Ok(*x),
            None => Err(AngleFault::NoParameter),
        },
        Op::Func => Err(AngleFault::Function),
        _ => unreachable!(),
    }
}

/// The value of an operation of two operands.
fn joined(op: Op, x: &Pair, y: &Pair) -> Result<Pair, AngleFault>
    requires { wants op ≡ 2 }
    ensures { JoinedIs op x.now y.now result }
{
    match op {
        Op::Add => add(x, y),
        Op::Sub => subtract(x, y),
        Op::Mul => multiply(x, y),
        Op::Div => divide(x, y),
        Op::Pow => raise(x, y),
        _ => unreachable!(),
    }
}

/// Does one operation on a stack of operands.
fn step(op: Op, params: &[Pair], stack: &mut Vec<Pair>) -> Result<(), AngleFault>
    requires { wants op ≤ length stack.old.items }
    ensures height { OnOk result (length stack.new.items + wants op ≡ length stack.old.items + 1) }
    ensures stepped { Stepped params.now op (reverse stack.old.items) (reverse stack.new.items) result }
{
    match operands(op) {
        0 => stack.push(leaf(op, params)?)?,
        1 => {
            let Some(x) = stack.pop() else { unreachable!() };
            stack.push(negated(&x))?;
        }
        2 => {
            let Some(y) = stack.pop() else { unreachable!() };
            let Some(x) = stack.pop() else { unreachable!() };
            stack.push(joined(op, &x, &y)?)?;
        }
        _ => unreachable!(),
    }
    Ok(())
}

/// Does operations one after another.
fn run(alloc: Global, ops: &[Op], params: &[Pair]) -> Result<Pair, AngleFault>
    requires { leaves_one ops.now 0 ≡ true }
    ensures { (t : Tree) → postfix t ≡ ops.now → Told result (λ r. Values params.now t r) }
{
    let mut stack: Vec<Pair> = Vec::new(alloc);
    for op in ops {
        step(*op, params, &mut stack)?;
    }
    match stack.pop() {
        Some(x) => Ok(x),
        None => unreachable!(),
    }
}

/// The exact value of an expression, or its first fault.
///
/// `Id(i)` is parameter i, and `NoParameter` comes where there is none. Operands are evaluated
/// from left to right. A number of 10^18 or more digits, or above the power 18 of ten, is
/// `AngleRange`. `AngleRange` also comes where the exact value of an operation is a pair of
/// dyadic fractions of which one is out of bounds. `NotDyadic` comes for a number or a quotient
/// that is no dyadic fraction, for a product of two numbers with pi, for a divisor with pi, and
/// for a power with pi or with an exponent that is not a whole number from -64 to 64. `ByZero`
/// comes for a division by 0 and for a negative power of 0, and `Function` for a function.
/// `Memory` can come in place of any answer.
pub fn value(alloc: Global, expr: &Expr, params: &[Pair]) -> Result<Pair, AngleFault>
    ensures value { (t : Tree) → postfix t ≡ expr.now → Told result (λ r. Values params.now t r) }
    ensures only { (t : Tree) → postfix t ≡ expr.now → Told result (λ r. (s : Result Pair AngleFault) → Values params.now t s → s ≡ r) }
{
    run(alloc, expr.ops(), params)
}
