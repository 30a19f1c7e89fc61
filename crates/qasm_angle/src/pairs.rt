//! Operations on pairs.

ghost use Rattle.std.specs.Prelude.{◌≡◌, ◌<◌, ◌^◌, ℤ, pos, nat_abs, Ok};
ghost use Rattle.qasm_angle.specs.Pairs.{paired as pair_of, OnReal, IsWhole, IsPi, IsOpposite, IsNegation, IsSum, IsDifference, IsProduct, IsQuotient, IsPower};
ghost use Rattle.qasm_angle.specs.declared.types.Dyadic.{Dyadic};

use crate::dyadics::{is_negative, magnitude, product, quotient, sum};
use crate::powers::{inverse, raised};
use crate::types::{AngleFault, Dyadic, Pair};

/// Both parts, or the fault of the pair.
fn paired(r: Result<Dyadic, AngleFault>, s: Result<Dyadic, AngleFault>) -> Result<Pair, AngleFault>
    ensures { result ≡ pair_of r s }
{
    match r {
        Ok(r) => match s {
            Ok(s) => Ok(Pair { r, s }),
            Err(AngleFault::NotDyadic) => Err(AngleFault::NotDyadic),
            Err(_) => Err(AngleFault::AngleRange),
        },
        Err(AngleFault::NotDyadic) => Err(AngleFault::NotDyadic),
        Err(_) => match s {
            Err(AngleFault::NotDyadic) => Err(AngleFault::NotDyadic),
            _ => Err(AngleFault::AngleRange),
        },
    }
}

/// The number 0.
fn zero() -> Dyadic
    ensures { IsWhole (pos 0) result }
{
    Dyadic { num: 0, shift: 0 }
}

/// A number without pi.
pub fn real(r: Result<Dyadic, AngleFault>) -> Result<Pair, AngleFault>
    ensures { (d : Dyadic) × IsWhole (pos 0) d × (result ≡ pair_of r (Ok d)) }
{
    paired(r, Ok(zero()))
}

/// The number pi.
pub fn pi() -> Pair
    ensures { IsPi result }
{
    Pair {
        r: zero(),
        s: Dyadic { num: 1, shift: 0 },
    }
}

/// The other sign.
fn opposite(d: &Dyadic) -> Dyadic
    ensures { IsOpposite d.now result }
{
    Dyadic {
        num: -d.num,
        shift: d.shift,
    }
}

/// The pair with the other sign.
pub fn negated(x: &Pair) -> Pair
    ensures { IsNegation x.now result }
{
    Pair {
        r: opposite(&x.r),
        s: opposite(&x.s),
    }
}

/// x + y.
pub fn add(x: &Pair, y: &Pair) -> Result<Pair, AngleFault>
    ensures { IsSum x.now y.now result }
{
    paired(sum(&x.r, &y.r), sum(&x.s, &y.s))
}

/// x - y.
pub fn subtract(x: &Pair, y: &Pair) -> Result<Pair, AngleFault>
    ensures { IsDifference x.now y.now result }
{
    let minus = negated(y);
    add(x, &minus)
}

/// x·y.
pub fn multiply(x: &Pair, y: &Pair) -> Result<Pair, AngleFault>
    ensures { IsProduct x.now y.now result }
{
    if y.s.num == 0 {
        return paired(product(&x.r, &y.r), product(&x.s, &y.r));
    }
    if x.s.num == 0 {
        return paired(product(&x.r, &y.r), product(&x.r, &y.s));
    }
    Err(AngleFault::NotDyadic)
}

/// x / y.
pub fn divide(x: &Pair, y: &Pair) -> Result<Pair, AngleFault>
    ensures { IsQuotient x.now y.now result }
{
    if y.s.num != 0 {
        return Err(AngleFault::NotDyadic);
    }
    if y.r.num == 0 {
        return Err(AngleFault::ByZero);
    }
    paired(quotient(&x.r, &y.r), quotient(&x.s, &y.r))
}

/// x^y.
pub fn raise(x: &Pair, y: &Pair) -> Result<Pair, AngleFault>
    ensures { IsPower x.now y.now result }
{
    if x.s.num != 0 {
        return Err(AngleFault::NotDyadic);
    }
    let size = magnitude(&y.r);
    if y.s.num != 0 || y.r.shift != 0 || size > 64 {
        return Err(AngleFault::NotDyadic);
    }
    if !is_negative(&y.r) {
        return real(raised(&x.r, size as u32));
    }
    if x.r.num == 0 {
        return Err(AngleFault::ByZero);
    }
    real(inverse(&x.r, size as u32))
}
