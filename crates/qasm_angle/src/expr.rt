//! Expressions.

ghost use Rattle.std.specs.Prelude.{◌≡◌};

use crate::types::Op;
use std::marker::Model;

/// An angle expression: its operations in postfix order, each behind its operands.
#[derive(Drop)]
pub struct Expr {
    ops: Vec<Op>,
}

impl Model for Expr {
    ghost use Rattle.std.specs.Prelude.{List};
    ghost use Rattle.qasm_angle.specs.declared.types.Op.{Op};
    ghost use Rattle.qasm_angle.specs.Trees.{IsExpression};

    ghost Value = { List Op };

    ghost view = { λ e. e.ops.items };

    ghost invariant = { λ e. ∥ IsExpression e.ops.items ∥₁ };
}

impl Expr {
    ghost use Rattle.qasm_angle.specs.Trees.{IsExpression};

    /// The expression of these operations, which are one whole expression in postfix order.
    pub fn new(ops: Vec<Op>) -> Expr
        requires { IsExpression ops.items }
        ensures { result ≡ ops.items }
    {
        Expr { ops }
    }

    /// Its operations in postfix order.
    pub fn ops(&self) -> &[Op]
        ensures same { result.now ≡ self.now }
        ensures whole { ∥ IsExpression self.now ∥₁ }
    {
        &self.ops
    }
}
