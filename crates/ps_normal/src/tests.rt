ghost use Rattle.std.specs.Prelude.{◌≡◌, ◌≤◌, true, length, [], ◌∷◌, vec_len, IfOk};
ghost use Rattle.ps_prim.specs.declared.prims.Primitive.TheVariants.{U};
ghost use Rattle.ps_prim.specs.Maps.{AllWithin};
ghost use Rattle.ps_normal.specs.Fillings.{CanRun, HasSum};

use super::*;
use ps_io::{NeverStop, Stop};
use ps_prim::{Item, Prim};
use ps_reach::{Body, Items, Judged, Mode, Record, Task, Verdict, Work};
use ps_ring::Angle;
use std::alloc::{AllocError, Global};
use std::sync::Arc;
use std::test::Fail;

// Answers yes each time.
#[derive(Drop)]
struct Always {
    count: u64,
}

impl Stop for Always {
    ghost yeses = { λ a. a.count };

    fn asked(&mut self) -> bool {
        self.count = self.count.saturating_add(1);
        true
    }
}

// Answers no each time, and counts how often it is asked.
#[derive(Drop)]
struct Counting {
    calls: u64,
}

impl Stop for Counting {
    ghost yeses = { λ _. 0 };

    fn asked(&mut self) -> bool {
        self.calls = self.calls.saturating_add(1);
        false
    }
}

fn hadamard() -> Prim
    ensures { result ≡ U 536870912 0 1073741824 0 }
{
    Prim::U {
        theta: Angle::of(1 << 29),
        phi: Angle::of(0),
        lambda: Angle::of(1 << 30),
        q: 0,
    }
}

fn eighth() -> Prim
    ensures { result ≡ U 0 0 268435456 0 }
{
    Prim::U {
        theta: Angle::of(0),
        phi: Angle::of(0),
        lambda: Angle::of(1 << 28),
        q: 0,
    }
}

// No item.
fn nothing(alloc: Global) -> Result<Arc<Items>, AllocError>
    ensures { IfOk result (λ s. CanRun 1 s.value) }
{
    let list = Vec::new(alloc);
    Ok(Arc::new(alloc, Items::from_vec(list))?)
}

// One item of these gates.
fn one_item(alloc: Global, prims: Vec<Prim>) -> Result<Arc<Items>, AllocError>
    requires few { vec_len prims ≤ 4096 }
    requires within { AllWithin 64 prims.items }
    ensures { IfOk result (λ s. s.value ≡ prims.items ∷ []) }
{
    let item = Arc::new(alloc, Item::new(prims))?;
    let mut list = Vec::new(alloc);
    list.push(item)?;
    Ok(Arc::new(alloc, Items::from_vec(list))?)
}

fn hadamards(alloc: Global) -> Result<Arc<Items>, AllocError>
    ensures { IfOk result (λ s. CanRun 1 s.value) }
{
    one_item(alloc, vec![in alloc; hadamard(), hadamard()]?)
}

fn one_hadamard(alloc: Global) -> Result<Arc<Items>, AllocError>
    ensures { IfOk result (λ s. CanRun 1 s.value) }
{
    one_item(alloc, vec![in alloc; hadamard()]?)
}

fn three_hadamards(alloc: Global) -> Result<Arc<Items>, AllocError>
    ensures { IfOk result (λ s. CanRun 1 s.value) }
{
    one_item(alloc, vec![in alloc; hadamard(), hadamard(), hadamard()]?)
}

fn one_eighth(alloc: Global) -> Result<Arc<Items>, AllocError>
    ensures { IfOk result (λ s. CanRun 1 s.value) }
{
    one_item(alloc, vec![in alloc; eighth()]?)
}

fn with_an_eighth(alloc: Global) -> Result<Arc<Items>, AllocError>
    ensures { IfOk result (λ s. CanRun 1 s.value) }
{
    one_item(alloc, vec![in alloc; hadamard(), eighth(), hadamard()]?)
}

// Whether the items come to a sum with this text, in a record of this size.
fn fills_as(alloc: Global, items: Arc<Items>, text: &[u8], size: u64) -> Result<bool, AllocError>
    requires { CanRun 1 items.value }
{
    let task = Task {
        seat: 0,
        claim: 0,
        n: 1,
        work: Work::Items(items),
    };
    match fill(alloc, &task, &mut NeverStop)? {
        Filled::Done(record) => described(alloc, &record, text, size),
        Filled::Stopped => Ok(false),
    }
}

// Whether the record's sum has this text, and the record this size.
fn described(alloc: Global, record: &Record, text: &[u8], size: u64) -> Result<bool, AllocError> {
    match &record.body {
        Body::Sum(sum) => Ok(sum.text(alloc)?.as_slice() == text && record.size() == size),
        Body::Passed(_) => Ok(false),
    }
}

// No gate is the identity; two Hadamards come to it, and one Hadamard keeps a path variable.
#[test]
fn segments_are_filled(rt: HostRuntime) -> Result<(), Fail> {
    let alloc = rt.alloc();
    let none = nothing(alloc)?;
    assert!(rt; fills_as(alloc, none, b"k=0 m=0 P=0 f=x0", 2)?);
    let one = one_hadamard(alloc)?;
    assert!(rt; fills_as(alloc, one, b"k=1 m=1 P=1/2*x0.y0 f=y0", 4)?);
    let both = hadamards(alloc)?;
    assert!(rt; fills_as(alloc, both, b"k=0 m=0 P=0 f=x0", 7)?);
    Ok(())
}

#[test]
fn a_stop_is_heard(rt: HostRuntime) -> Result<(), Fail> {
    let alloc = rt.alloc();
    let task = Task {
        seat: 0,
        claim: 0,
        n: 1,
        work: Work::Items(one_hadamard(alloc)?),
    };
    let mut always = Always { count: 0 };
    match fill(alloc, &task, &mut always)? {
        Filled::Done(_) => assert!(rt; false),
        Filled::Stopped => assert_eq!(rt; always.count, 1),
    }
    Ok(())
}

// How often filling the items asks whether to stop.
fn asks(alloc: Global, items: Arc<Items>) -> Result<u64, AllocError>
    requires { CanRun 1 items.value }
{
    let task = Task {
        seat: 0,
        claim: 0,
        n: 1,
        work: Work::Items(items),
    };
    let mut stop = Counting { calls: 0 };
    let _filled = fill(alloc, &task, &mut stop)?;
    Ok(stop.calls)
}

// Once for each leaf and each rewriting of the derivations below: of a Hadamard one rewriting, of two of
// them one more; and those of the third, whose leaf is known, too.
#[test]
fn it_asks_before_each_prim_and_step(rt: HostRuntime) -> Result<(), Fail> {
    let alloc = rt.alloc();
    assert_eq!(rt; asks(alloc, nothing(alloc)?)?, 0);
    assert_eq!(rt; asks(alloc, one_eighth(alloc)?)?, 1);
    assert_eq!(rt; asks(alloc, one_hadamard(alloc)?)?, 2);
    assert_eq!(rt; asks(alloc, hadamards(alloc)?)?, 5);
    assert_eq!(rt; asks(alloc, three_hadamards(alloc)?)?, 7);
    Ok(())
}

// What a verdict says, in a word.
fn word(verdict: &Verdict) -> &'static str {
    match verdict {
        Verdict::Yes => "yes",
        Verdict::YesPhase(_) => "yes phase",
        Verdict::No(_) => "no",
        Verdict::NoPair(..) => "no pair",
        Verdict::Stuck(_) => "stuck",
        Verdict::Passed(_) => "passed",
    }
}

// Two Hadamards are nothing; one is not; an eighth of a turn between two leaves a path variable.
#[test]
fn segments_are_compared(rt: HostRuntime) -> Result<(), Fail> {
    let alloc = rt.alloc();
    let none = nothing(alloc)?;
    let yes = same_gates(alloc, &hadamards(alloc)?, &none, 1, Mode::Exact)?;
    assert_eq!(rt; word(&yes.verdict), "yes");
    assert_eq!(rt; yes.size(), 1);
    let no = same_gates(alloc, &one_hadamard(alloc)?, &none, 1, Mode::Exact)?;
    assert_eq!(rt; word(&no.verdict), "no");
    let stuck = same_gates(alloc, &with_an_eighth(alloc)?, &none, 1, Mode::Exact)?;
    match &stuck.verdict {
        Verdict::Stuck(sum) => {
            assert!(rt; sum.text(alloc)?.as_slice() == b"k=2 m=1 P=7/8*y0 f=-".as_slice())
        }
        _ => assert!(rt; false),
    }
    Ok(())
}

// Nothing is itself up to no phase; an eighth of a turn at one input is told by both inputs; a Hadamard is
// no multiple of nothing; and where a path variable is left the sum is told.
#[test]
fn segments_are_compared_up_to_a_phase(rt: HostRuntime) -> Result<(), Fail> {
    let alloc = rt.alloc();
    let none = nothing(alloc)?;
    let yes = same_gates(alloc, &hadamards(alloc)?, &none, 1, Mode::Phase)?;
    assert!(rt; matches!(&yes.verdict, Verdict::YesPhase(phase) if phase.units() == 0));
    let pair = same_gates(alloc, &one_eighth(alloc)?, &none, 1, Mode::Phase)?;
    match &pair.verdict {
        Verdict::NoPair(first, second) => assert!(rt; !first.get(0) && second.get(0)),
        _ => assert!(rt; false),
    }
    let no = same_gates(alloc, &one_hadamard(alloc)?, &none, 1, Mode::Phase)?;
    assert_eq!(rt; word(&no.verdict), "no");
    let stuck = same_gates(alloc, &with_an_eighth(alloc)?, &none, 1, Mode::Phase)?;
    assert_eq!(rt; word(&stuck.verdict), "stuck");
    Ok(())
}

// Whether they are one map, and the derivation has this text.
fn derives_as(alloc: Global, judged: &Judged, text: &[u8]) -> Result<bool, AllocError> {
    match &judged.verdict {
        Verdict::Yes => {
            let derivation = derive(alloc, judged)?;
            Ok(ps_steps::text(alloc, &derivation)?.as_slice() == text)
        }
        _ => Ok(false),
    }
}

// The record of the items on one qubit, where it has a sum.
fn filled(alloc: Global, items: Arc<Items>) -> Result<Option<Arc<Record>>, AllocError>
    requires { CanRun 1 items.value }
{
    let task = Task {
        seat: 0,
        claim: 0,
        n: 1,
        work: Work::Items(items),
    };
    match fill(alloc, &task, &mut NeverStop)? {
        Filled::Done(record) => Ok(Some(Arc::new(alloc, record)?)),
        Filled::Stopped => Ok(None),
    }
}

// Whether the record has a sum, on one qubit, and at most two items.
fn can_join(record: &Record) -> bool
    ensures { result ≡ true → (record.now.n ≡ 1) × ((length record.now.items.value ≤ 2) × HasSum record.now.body) }
{
    match &record.body {
        Body::Sum(_) => record.n == 1 && record.items.as_slice().len() <= 2,
        Body::Passed(_) => false,
    }
}

// The record of two segments one after the other.
fn joined(
    alloc: Global,
    first: Arc<Record>,
    second: Arc<Record>,
) -> Result<Option<Arc<Record>>, AllocError> {
    if !can_join(&first) || !can_join(&second) {
        return Ok(None);
    }
    let task = Task {
        seat: 0,
        claim: 0,
        n: 1,
        work: Work::Children(first, second),
    };
    match fill(alloc, &task, &mut NeverStop)? {
        Filled::Done(record) => Ok(Some(Arc::new(alloc, record)?)),
        Filled::Stopped => Ok(None),
    }
}

// Twice the two Hadamards, as two segments, and no gate.
fn twice_and_nothing(alloc: Global) -> Result<Option<Judged>, AllocError> {
    let Some(half) = filled(alloc, hadamards(alloc)?)? else {
        return Ok(None);
    };
    let Some(none) = filled(alloc, nothing(alloc)?)? else {
        return Ok(None);
    };
    let Some(whole) = joined(alloc, Arc::try_clone(&half)?, half)? else {
        return Ok(None);
    };
    if whole.n != none.n {
        return Ok(None);
    }
    Ok(Some(compare(alloc, &whole, &none, Mode::Exact)?))
}

const ONE_RUN: &[u8] =
    b"pathsum 1\nleaf a 0\nomega 0\nleaf a 1\nomega 0\njoin\nhh 0 1\nid b\noverlap\nelim 0\nend\n";

const TWO_RUNS: &[u8] =
    b"pathsum 1\nleaf a 0\nomega 0\nleaf a 1\nomega 0\njoin\nhh 0 1\nleaf a 2\nomega 0\nleaf a 3\nomega 0\njoin\nhh 0 1\njoin\nid b\noverlap\nelim 0\nend\n";

// Two Hadamards are nothing, in eleven lines; four of them, from two records, are so too.
#[test]
fn yes_is_derived(rt: HostRuntime) -> Result<(), Fail> {
    let alloc = rt.alloc();
    let none = nothing(alloc)?;
    let one_run = same_gates(alloc, &hadamards(alloc)?, &none, 1, Mode::Exact)?;
    assert!(rt; derives_as(alloc, &one_run, ONE_RUN)?);
    match twice_and_nothing(alloc)? {
        Some(two_runs) => assert!(rt; derives_as(alloc, &two_runs, TWO_RUNS)?),
        None => assert!(rt; false),
    }
    Ok(())
}
