use super::*;
use ps_mono::{Bits, Mono};
use std::test::Fail;

// (x0 + x1) + (x1 + 1) is 1 + x0.
#[test]
fn sums(rt: HostRuntime) -> Result<(), Fail> {
    let alloc = rt.alloc();
    let one = BoolPoly::one(alloc)?;
    let first = BoolPoly::var(alloc, 0)?;
    let second = BoolPoly::var(alloc, 1)?;
    let sum = first.xor(&second)?.xor(&second.xor(&one)?)?;
    assert!(rt; sum.same(&one.xor(&first)?));
    assert_eq!(rt; sum.count(), 2);
    assert_eq!(rt; *sum.mono(0), Mono::one());
    assert_eq!(rt; *sum.mono(1), Mono::var(0));
    assert_eq!(rt; sum.monos().len(), 2);
    assert!(rt; sum.contains(0));
    assert!(rt; !sum.contains(1));
    assert!(rt; sum.least() == Some(&Mono::one()));
    let mut at = Bits::zero();
    assert!(rt; sum.eval(&at));
    at.set(0, true);
    assert!(rt; !sum.copy()?.eval(&at));
    assert!(rt; sum.xor(&sum)?.same(&BoolPoly::zero(alloc)));
    Ok(())
}

// x0 + 1 has the monomial 1 in front of x0, and with 1 added again it is x0; 1 + 1 is 0.
#[test]
fn flips(rt: HostRuntime) -> Result<(), Fail> {
    let alloc = rt.alloc();
    let first = BoolPoly::var(alloc, 0)?;
    let flipped = first.copy()?.flipped()?;
    assert_eq!(rt; flipped.count(), 2);
    assert_eq!(rt; *flipped.mono(0), Mono::one());
    assert_eq!(rt; *flipped.mono(1), Mono::var(0));
    assert!(rt; flipped.flipped()?.same(&first));
    assert!(rt;
        BoolPoly::one(alloc)?
            .flipped()?
            .same(&BoolPoly::zero(alloc))
    );
    assert!(rt;
        BoolPoly::zero(alloc)
            .flipped()?
            .same(&BoolPoly::one(alloc)?)
    );
    Ok(())
}

// Products, substitutions and whether a variable stands alone.
#[test]
fn products(rt: HostRuntime) -> Result<(), Fail> {
    let alloc = rt.alloc();
    let one = BoolPoly::one(alloc)?;
    let first = BoolPoly::var(alloc, 0)?;
    let second = BoolPoly::var(alloc, 1)?;
    let both = BoolPoly::of(alloc, &Mono::var(0).union(&Mono::var(1)))?;
    // (x0 + x1) (x0 + 1) is x1 + x0 x1
    let product = first.xor(&second)?.and(&first.xor(&one)?)?;
    let expected = second.xor(&both)?;
    assert!(rt; product.same(&expected));
    // x0 x1 + x1 with x0 + 1 for x1 is 1 + x0
    let replaced = expected.subst(1, &first.xor(&one)?)?;
    assert!(rt; replaced.same(&one.xor(&first)?));
    assert!(rt; !expected.linear_in(1));
    assert!(rt; first.xor(&second)?.linear_in(1));
    let twice = vec![in alloc; Mono::var(1), Mono::one(), Mono::var(1)]?;
    assert!(rt; BoolPoly::sum_of(twice).same(&one));
    assert!(rt; BoolPoly::ordered(product.copy()?.into_monos()).same(&expected));
    Ok(())
}
