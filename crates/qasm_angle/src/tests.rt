//! Rows of single calls.

ghost use Rattle.std.specs.Prelude.{◌≡◌, IfOk, [], ◌∷◌};
ghost use Rattle.qasm_angle.specs.Trees.{wants};

use super::{AngleFault, Expr, Op, angle, value};
use std::alloc::{AllocError, Global};
use std::test::Fail;

/// The expression of an operation on two operands.
fn joined(alloc: Global, left: Op, right: Op, op: Op) -> Result<Expr, AllocError>
    requires left { wants left ≡ 0 }
    requires right { wants right ≡ 0 }
    requires op { wants op ≡ 2 }
{
    let mut ops = Vec::new(alloc);
    ops.push(left)?;
    ops.push(right)?;
    ops.push(op)?;
    Ok(Expr::new(ops))
}

/// The units of the angle that an expression of two operands is.
fn units(alloc: Global, left: Op, right: Op, op: Op) -> Result<u32, AngleFault>
    requires left { wants left ≡ 0 }
    requires right { wants right ≡ 0 }
    requires op { wants op ≡ 2 }
{
    let expr = joined(alloc, left, right, op)?;
    let pair = value(alloc, &expr, &[])?;
    Ok(angle(pair)?.units())
}

fn digits(digits: u64, ten: i32) -> Op
    ensures { wants result ≡ 0 }
{
    Op::Number { digits, ten }
}

#[test]
fn values_are_exact(rt: HostRuntime) {
    let alloc = rt.alloc();
    let half = digits(5, -1);
    let tenth = digits(1, -1);
    assert_eq!(rt; units(alloc, half, Op::Pi, Op::Mul), Ok(536870912));
    assert_eq!(rt; units(alloc, digits(9, 0), Op::Pi, Op::Mul), Ok(1073741824));
    assert_eq!(rt; units(alloc, Op::Pi, digits(4, 0), Op::Div), Ok(268435456));
    assert_eq!(rt;
        units(alloc, Op::Pi, Op::Pi, Op::Mul),
        Err(AngleFault::NotDyadic)
    );
    assert_eq!(rt;
        units(alloc, tenth, Op::Pi, Op::Mul),
        Err(AngleFault::NotDyadic)
    );
    assert_eq!(rt;
        units(alloc, Op::Pi, digits(3, 0), Op::Div),
        Err(AngleFault::NotDyadic)
    );
    assert_eq!(rt;
        units(alloc, Op::Pi, digits(0, 0), Op::Div),
        Err(AngleFault::ByZero)
    );
    assert_eq!(rt;
        units(alloc, Op::Pi, Op::Func, Op::Sub),
        Err(AngleFault::Function)
    );
    assert_eq!(rt;
        units(alloc, Op::Id(0), Op::Pi, Op::Add),
        Err(AngleFault::NoParameter)
    );
    assert_eq!(rt;
        units(alloc, digits(2, 0), digits(62, 0), Op::Pow),
        Err(AngleFault::AngleRange)
    );
}
