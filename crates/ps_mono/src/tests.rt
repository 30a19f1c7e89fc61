ghost use Rattle.std.specs.Prelude.{◌≡◌, ℕ, ◌<◌, ◌||◌, nat_eq};
ghost use Rattle.ps_mono.specs.Sets.{stands};

use super::*;
use std::cmp::Ordering;
use std::test::Fail;

// The product of x0 and x1, and what is left of it without x1.
#[test]
fn products(rt: HostRuntime) -> Result<(), Fail> {
    let alloc = rt.alloc();
    let both = Mono::var(1).product(alloc, &Mono::var(0))?;
    assert_eq!(rt; both.degree(), 2);
    assert_eq!(rt; both.var_at(0), 0);
    assert_eq!(rt; both.var_at(1), 1);
    assert_eq!(rt; both.compare(&Mono::var(2)), Ordering::Greater);
    let first = both.without(alloc, 1)?;
    assert_eq!(rt; first, Mono::var(0));
    assert_eq!(rt; first.copy(alloc)?, Mono::var(0));
    Ok(())
}

// Variables of different words, and the truth values under which their product holds.
#[test]
fn words(rt: HostRuntime) -> Result<(), Fail> {
    let wide = Mono::var(511).union(&Mono::var(64));
    assert_eq!(rt; wide.split_first(), Some((64, Mono::var(511))));
    assert!(rt; wide.contains(511));
    assert!(rt; !wide.contains(63));
    assert!(rt; Mono::one() < Mono::var(511));
    assert!(rt; Mono::var(3) < Mono::var(64));
    assert_eq!(rt; wide.removed(64), Mono::var(511));
    let mut at = Bits::zero();
    at.set(64, true);
    assert!(rt; at.get(64));
    assert!(rt; !wide.holds(&at));
    at.set(511, true);
    assert!(rt; wide.holds(&at));
    at.set(64, false);
    assert!(rt; !wide.holds(&at));
    Ok(())
}

// Numbers by which short monomials are sorted.
#[test]
fn keys(rt: HostRuntime) -> Result<(), Fail> {
    let low = Mono::var(3);
    let wide = Mono::var(511).union(&low);
    assert_eq!(rt; Mono::one().order_key(), 0);
    assert_eq!(rt; low.order_key(), 512 + 3);
    assert_eq!(rt; wide.order_key(), (2 * 512 + 3) * 512 + 511);
    assert!(rt; Mono::var(511).order_key() < wide.order_key());
    Ok(())
}

fn low_key_of(mono: &Mono) -> Option<u128> {
    if mono.is_low() {
        Some(mono.low_key())
    } else {
        None
    }
}

// Numbers by which monomials of low variables are sorted: x0 and x118 have the highest and the lowest
// of 119 bits, and the degree stands above them.
#[test]
fn low_keys(rt: HostRuntime) -> Result<(), Fail> {
    let none = (1u128 << 119) - 1;
    let degree = 1u128 << 119;
    let last = Mono::var(118);
    let both = Mono::var(64).union(&Mono::var(3));
    let word = Mono::var(0).union(&Mono::var(1)).union(&Mono::var(2));
    let seven = word.union(&both).union(&last).union(&Mono::var(63));
    assert_eq!(rt; low_key_of(&Mono::one()), Some(none));
    assert_eq!(rt; low_key_of(&Mono::var(0)), Some(degree + none - (1 << 118)));
    assert_eq!(rt; low_key_of(&last), Some(degree + none - 1));
    assert_eq!(rt;
        low_key_of(&both),
        Some(2 * degree + none - (1 << 54) - (1 << 115))
    );
    assert_eq!(rt; low_key_of(&word), Some(3 * degree + none - (7 << 116)));
    let ones = (15 << 115) + (1 << 55) + (1 << 54) + 1;
    assert_eq!(rt; low_key_of(&seven), Some(7 * degree + none - ones));
    assert_eq!(rt; low_key_of(&Mono::var(119)), None);
    assert_eq!(rt; low_key_of(&Mono::var(511).union(&last)), None);
    Ok(())
}

// The variables of several monomials together.
#[test]
fn supports(rt: HostRuntime) -> Result<(), Fail> {
    let wide = Mono::var(511).union(&Mono::var(64)).union(&Mono::var(3));
    let mut support = Bits::zero();
    support.add(&wide);
    support.add(&Mono::var(64));
    assert_eq!(rt; Mono::of_bits(&support), wide);
    assert_eq!(rt; Mono::of_bits(&support).degree(), 3);
    Ok(())
}

fn triple(first: u16, second: u16, third: u16) -> Mono
    requires first { first < 512 }
    requires second { second < 512 }
    requires third { third < 512 }
    ensures { (w : ℕ) → stands w result ≡ (nat_eq w first || (nat_eq w second || nat_eq w third)) }
{
    Mono::var(first)
        .union(&Mono::var(second))
        .union(&Mono::var(third))
}

// Of 200 names two are gone: of one word, of neighbouring words, and of words apart.
#[test]
fn pairs(rt: HostRuntime) -> Result<(), Fail> {
    let near = ClosingPair::of(Closing::within(9, 200), Closing::within(5, 199));
    let mut mono = triple(4, 8, 199);
    near.close(&mut mono);
    assert_eq!(rt; mono, triple(4, 7, 197));
    let next = ClosingPair::of(Closing::within(64, 200), Closing::within(62, 199));
    let mut mono = triple(63, 65, 128);
    next.close(&mut mono);
    assert_eq!(rt; mono, triple(62, 63, 126));
    let far = ClosingPair::of(Closing::within(190, 200), Closing::within(3, 199));
    let mut mono = triple(64, 189, 192);
    far.close(&mut mono);
    assert_eq!(rt; mono, triple(63, 188, 190));
    assert_eq!(rt; mono.degree(), 3);
    Ok(())
}
