ghost use Rattle.std.specs.Prelude.{◌≡◌, ◌≤◌, [], ◌∷◌, vec_len, IfOk, IfSome};
ghost use Rattle.ps_prim.specs.declared.prims.Primitive.TheVariants.{U};
ghost use Rattle.ps_prim.specs.Maps.{AllWithin};
ghost use Rattle.ps_normal.specs.Fillings.{CanRun};

use super::finding::Given;
use super::*;
use ps_mono::{Bits, Mono};
use ps_normal::same_gates;
use ps_phase::{PhasePoly, Term};
use ps_prim::{Item, Prim};
use ps_reach::{Items, Judged, Mode};
use ps_ring::{Angle, Phase};
use ps_sum::{Outputs, PathSum};
use std::alloc::{AllocError, Global};
use std::sync::Arc;
use std::test::Fail;

fn eighth() -> Prim
    ensures { result ≡ U 0 0 268435456 0 }
{
    Prim::U {
        theta: Angle::of(0),
        phi: Angle::of(0),
        lambda: Angle::of(1 << 28),
        q: 0,
    }
}

// No item.
fn nothing(alloc: Global) -> Result<Arc<Items>, AllocError>
    ensures { IfOk result (λ s. CanRun 1 s.value) }
{
    let list = Vec::new(alloc);
    Ok(Arc::new(alloc, Items::from_vec(list))?)
}

// One item of these gates.
fn one_item(alloc: Global, prims: Vec<Prim>) -> Result<Arc<Items>, AllocError>
    requires few { vec_len prims ≤ 4096 }
    requires within { AllWithin 64 prims.items }
    ensures { IfOk result (λ s. s.value ≡ prims.items ∷ []) }
{
    let item = Arc::new(alloc, Item::new(prims))?;
    let mut list = Vec::new(alloc);
    list.push(item)?;
    Ok(Arc::new(alloc, Items::from_vec(list))?)
}

fn one_eighth(alloc: Global) -> Result<Arc<Items>, AllocError>
    ensures { IfOk result (λ s. CanRun 1 s.value) }
{
    one_item(alloc, vec![in alloc; eighth()]?)
}

// An eighth of a turn where the qubit is 1, against nothing.
fn compared(alloc: Global) -> Result<Judged, AllocError> {
    let first = one_eighth(alloc)?;
    let second = nothing(alloc)?;
    same_gates(alloc, &first, &second, 1, Mode::Exact)
}

// What comparing these finds where inputs are fixed as the word says.
fn found(alloc: Global, judged: &Judged, word: &[u8]) -> Result<Option<Given>, AllocError> {
    let Some(pattern) = Pattern::of(word) else {
        return Ok(None);
    };
    if pattern.len != judged.first.n {
        return Ok(None);
    }
    Ok(Some(given(alloc, &judged.first, &judged.second, &pattern)?))
}

// A yes as 1, and a no as 2, or 3 where the qubit is 1.
fn told(found: Option<Given>) -> u32 {
    let Some(given) = found else {
        return 0;
    };
    match given {
        Given::Yes => 1,
        Given::No(at) => 2 + u32::from(at.get(0)),
        Given::Left(_) => 4,
        Given::Passed(_) => 5,
    }
}

// The sum on one qubit without outputs; each term has so many eighths of a turn, and the input, the path
// variable, both or neither.
fn closed(
    alloc: Global,
    m: u32,
    k: i32,
    terms: &[(bool, bool, u32)],
) -> Result<Option<PathSum>, AllocError>
    ensures { IfOk result (λ o. IfSome o (λ s. s.outs ≡ [])) }
{
    let mut out = Vec::new(alloc);
    for (input, path, count) in terms {
        let x = if *input { Mono::var(0) } else { Mono::one() };
        let y = if *path { Mono::var(1) } else { Mono::one() };
        out.push(Term {
            mono: x.union(&y),
            phase: Phase::of(count.wrapping_mul(1 << 29)),
        })?;
    }
    let outs = Outputs::of(Vec::new(alloc));
    Ok(PathSum::of(1, m, k, PhasePoly::gather(out)?, outs))
}

// Words that are patterns, and words that are none.
#[test]
fn patterns(rt: HostRuntime) -> Result<(), Fail> {
    let pattern = Pattern::of(b"01-").expect(&rt, "a pattern");
    assert!(rt; pattern.len == 3 && pattern.fixed == 3 && pattern.ones == 2);
    assert!(rt; Pattern::of(b"").is_none());
    assert!(rt; Pattern::of(b"0x").is_none());
    assert!(rt; Pattern::of(&[b'-'; 65]).is_none());
    Ok(())
}

// 7/8 + 1/4 y0 over the root of 2, and 7/8 y0 over 2.
#[test]
fn tallies(rt: HostRuntime) -> Result<(), Fail> {
    let alloc = rt.alloc();
    let sum = closed(alloc, 1, 1, &[(false, false, 7), (false, true, 2)])?.expect(&rt, "a sum");
    assert!(rt; sum.m == 1);
    assert!(rt; tally(alloc, &sum, &Bits::zero())?);
    let sum = closed(alloc, 1, 2, &[(false, true, 7)])?.expect(&rt, "a sum");
    assert!(rt; sum.m == 1);
    assert!(rt; !tally(alloc, &sum, &Bits::zero())?);
    Ok(())
}

// They are one map where the qubit is 0, and differ where it is 1.
#[test]
fn givens(rt: HostRuntime) -> Result<(), Fail> {
    let alloc = rt.alloc();
    let judged = compared(alloc)?;
    assert!(rt; told(found(alloc, &judged, b"0")?) == 1);
    assert!(rt; told(found(alloc, &judged, b"-")?) == 3);
    assert!(rt; told(found(alloc, &judged, b"1")?) == 3);
    Ok(())
}
