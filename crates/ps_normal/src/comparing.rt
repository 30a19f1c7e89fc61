//! Whether two segments are one linear map, or are so up to a phase.

ghost use Rattle.std.specs.Prelude.{◌≡◌, ◌≤◌, ◌<◌, ◌↔◌, List, [], length, IsTrue, IfOk, IfSome, OnOk};
ghost use Rattle.ps_prim.specs.declared.prims.Primitive.{Primitive as Prim};
ghost use Rattle.ps_reach.specs.Runs.{run_of};
ghost use Rattle.ps_reach.specs.Parts.{held, overrun_of};
ghost use Rattle.ps_reach.specs.Judging.{outcome_of, finding_of};
ghost use Rattle.ps_reach.specs.Reductions.{ReducesTo, normal};
ghost use Rattle.ps_reach.specs.Findings.{IsUnit, ShowsPlain, Shows, Overlaps, Compares, limit as limit_of};
ghost use Rattle.ps_reach.specs.declared.mode.Mode.TheVariants.{Exact, Phase};
ghost use Rattle.ps_overlap.specs.Overlapping.{IsOverlapOf};
ghost use Rattle.ps_normal.specs.Ends.{IsEnded};
ghost use Rattle.ps_reach.specs.Fillings.{Fills, passed};
ghost use Rattle.ps_normal.specs.Keeping.{IsTable};
ghost use Rattle.ps_normal.specs.Fillings.{CanRun, IsRecordOf};
ghost use Rattle.ps_normal.specs.Comparing.{HasFloor, Comparable, Decides, IsBoth, IsDecision};
ghost use Rattle.ps_normal.specs.Founds.{IsFound};

use super::decision::Decision;
use super::evidences::{evidence, shared_evidence};
use super::filled::Filled;
use super::filling::fill_with;
use super::kept::Workspace;
use super::parts::{Ended, Places};
use super::reduce::reduce;
use ps_io::NeverStop;
use ps_mono::Bits;
use ps_overlap::{constant_phase, first_point, least_point, overlap, turning_point, vanishing};
use ps_reach::{Body, Evidence, Items, Judged, Mode, Record, Steps, Verdict};
use ps_rules::Step;
use ps_sum::{JoinFault, PathSum};
use std::alloc::{AllocError, Global};
use std::sync::Arc;

// What was found, and the steps that led there.
#[derive(Drop)]
pub struct Found {
    pub steps: Vec<Step>,
    pub verdict: Verdict,
}

// An overlap stands at no place.
const NOWHERE: Places = Places {
    from: 0,
    middle: 0,
    to: 0,
};

// Whether a sum without path variables is 1.
fn is_unit(sum: &PathSum) -> bool
    requires { sum.now.m ≡ 0 }
    ensures { IsTrue result ↔ IsUnit sum.now }
{
    sum.k == 0 && sum.phase.count() == 0
}

// What a sum without path variables shows of two maps.
fn exactly_shown(sum: &PathSum) -> Verdict
    requires { sum.now.m ≡ 0 }
    ensures { ShowsPlain sum.now Exact (finding_of result) }
{
    if is_unit(sum) {
        return Verdict::Yes;
    }
    let mut at = Bits::zero();
    first_point(sum, &mut at);
    Verdict::No(at)
}

// What a sum without path variables shows of two maps up to a phase: first by its scale, then by
// whether its phase is the same at all inputs.
fn phase_shown(sum: &PathSum) -> Verdict
    ensures { ShowsPlain sum.now Phase (finding_of result) }
{
    if sum.k != 0 {
        return Verdict::No(Bits::zero());
    }
    match constant_phase(sum) {
        Some(phase) => Verdict::YesPhase(phase),
        None => {
            let mut at = Bits::zero();
            turning_point(sum, &mut at);
            Verdict::NoPair(Bits::zero(), at)
        }
    }
}

// What a sum without path variables shows.
fn plainly_shown(sum: &PathSum, mode: Mode) -> Verdict
    requires { sum.now.m ≡ 0 }
    ensures { ShowsPlain sum.now mode (finding_of result) }
{
    match mode {
        Mode::Exact => exactly_shown(sum),
        Mode::Phase => phase_shown(sum),
    }
}

// What an irreducible closed sum shows.
fn shown(sum: PathSum, mode: Mode) -> Verdict
    requires { sum.outs ≡ [] }
    ensures { Shows mode sum (finding_of result) }
{
    if sum.m == 0 {
        return plainly_shown(&sum, mode);
    }
    match vanishing(&sum) {
        Some(y) => {
            let mut at = Bits::zero();
            least_point(&sum, y, &mut at);
            Verdict::No(at)
        }
        None => Verdict::Stuck(sum),
    }
}

// What the overlap of two sums comes to.
fn reduced(alloc: Global, sum: PathSum, mode: Mode) -> Result<Found, AllocError>
    requires closed { sum.outs ≡ [] }
    requires floor { HasFloor sum }
    ensures { IfOk result (λ f. IsFound mode sum f) }
{
    let mut steps = Vec::new(alloc);
    let mut never = NeverStop;
    match reduce(alloc, sum, &mut steps, &mut never)? {
        Ended::Normal(sum) => Ok(Found {
            steps,
            verdict: shown(sum, mode),
        }),
        Ended::Over { passed, sum } => {
            let evidence = evidence(alloc, passed, NOWHERE, sum, None)?;
            Ok(Found {
                steps,
                verdict: Verdict::Passed(evidence),
            })
        }
        Ended::Stopped => unreachable!(),
    }
}

// What comparing two sums finds.
fn overlapped(
    alloc: Global,
    first: &Arc<PathSum>,
    second: &Arc<PathSum>,
    mode: Mode,
) -> Result<Found, AllocError>
    requires { Comparable first.now.value second.now.value }
    ensures { IfOk result (λ f. Overlaps mode first.now.value second.now.value f.steps.items (finding_of f.verdict)) }
{
    match overlap(alloc, first, second) {
        Ok(sum) => reduced(alloc, sum, mode),
        Err(JoinFault::Passed(passed)) => {
            let second = Arc::try_clone(second)?;
            let first = Arc::try_clone(first)?;
            let evidence = shared_evidence(passed, NOWHERE, first, Some(second));
            Ok(Found {
                steps: Vec::new(alloc),
                verdict: Verdict::Passed(evidence),
            })
        }
        Err(JoinFault::Memory) => Err(AllocError),
    }
}

// The same evidence, with its sums shared.
fn same_evidence(evidence: &Evidence) -> Result<Evidence, AllocError>
    ensures { IfOk result (λ e. overrun_of e ≡ overrun_of evidence.now) }
{
    let second = match &evidence.second {
        Some(second) => Some(Arc::try_clone(second)?),
        None => None,
    };
    Ok(Evidence {
        passed: evidence.passed,
        from: evidence.from,
        middle: evidence.middle,
        to: evidence.to,
        first: Arc::try_clone(&evidence.first)?,
        second,
    })
}

// A limit that is passed, found by no step.
fn limit(alloc: Global, evidence: &Evidence) -> Result<Found, AllocError>
    ensures { IfOk result (λ f. (f.steps.items ≡ []) × (finding_of f.verdict ≡ limit_of (overrun_of evidence.now))) }
{
    let evidence = same_evidence(evidence)?;
    Ok(Found {
        steps: Vec::new(alloc),
        verdict: Verdict::Passed(evidence),
    })
}

// What comparing two records finds.
fn find_difference(
    alloc: Global,
    first: &Record,
    second: &Record,
    mode: Mode,
) -> Result<Found, AllocError>
    requires { first.now.n ≡ second.now.n }
    ensures { IfOk result (λ f. Compares mode (outcome_of first.now) (outcome_of second.now) f.steps.items (finding_of f.verdict)) }
{
    let _first = first.items.as_slice();
    let _second = second.items.as_slice();
    match &first.body {
        Body::Passed(evidence) => limit(alloc, evidence),
        Body::Sum(before) => match &second.body {
            Body::Passed(evidence) => limit(alloc, evidence),
            Body::Sum(behind) => overlapped(alloc, before, behind, mode),
        },
    }
}

/// Compares two records on the same qubits.
///
/// Where a record has a limit passed, the verdict is that of the first such record. Else the overlap
/// of the two sums is reduced. Where no path variable is left, they are one map exactly where the
/// overlap has come to 1, and else differ at the first point. Where one is left, they differ at the
/// least point of the least variable that vanishes; where none does, the verdict is the sum that is
/// left. A limit that is passed on the way is told.
///
/// Up to a phase all this is so but where no path variable is left. Then the verdict is the first of
/// these: no, at the input without a bit, where the scale of the overlap is not 0; the phase, where it
/// is the same at all inputs; and else the input without a bit together with the turning point.
/// `AllocError` is want of memory.
pub fn compare(
    alloc: Global,
    first: &Arc<Record>,
    second: &Arc<Record>,
    mode: Mode,
) -> Result<Judged, AllocError>
    requires same { first.now.value.n ≡ second.now.value.n }
    ensures records { IfOk result (λ j. (j.first.value ≡ first.now.value) × (j.second.value ≡ second.now.value)) }
    ensures mode { IfOk result (λ j. j.mode ≡ mode) }
    ensures found { IfOk result (λ j. Compares mode (outcome_of first.now.value) (outcome_of second.now.value) j.steps (finding_of j.verdict)) }
{
    let found = find_difference(alloc, first, second, mode)?;
    let first = Arc::try_clone(first)?;
    let second = Arc::try_clone(second)?;
    Ok(Judged {
        first,
        second,
        mode,
        steps: Steps::from_vec(found.steps),
        verdict: found.verdict,
    })
}

// The record of a segment that is filled without asking whether to stop.
fn filled(
    alloc: Global,
    n: u32,
    items: &Arc<Items>,
    work: &mut Workspace,
) -> Result<Record, AllocError>
    requires width { (1 ≤ n) × (n ≤ 64) }
    requires run { CanRun n items.now.value }
    requires table { IsTable n work.old.leaves.items }
    ensures table { OnOk result (IsTable n work.new.leaves.items) }
    ensures filled { IfOk result (λ r. IsRecordOf n items.now.value (Fills n (run_of items.now.value)) r) }
{
    let mut never = NeverStop;
    match fill_with(alloc, n, items, work, &mut never)? {
        Filled::Done(record) => Ok(record),
        Filled::Stopped => unreachable!(),
    }
}

// The record of the first segment beside that of the second, which is filled, compared.
fn judged_with(
    alloc: Global,
    n: u32,
    before: Record,
    second: &Arc<Items>,
    mode: Mode,
    work: &mut Workspace,
) -> Result<Judged, AllocError>
    requires width { (1 ≤ n) × (n ≤ 64) }
    requires qubits { before.n ≡ n }
    requires second { CanRun n second.now.value }
    requires table { IsTable n work.old.leaves.items }
    ensures { IfOk result (λ j. (items : List (List Prim)) → CanRun n items → IsRecordOf n items (Fills n (run_of items)) before → IsBoth n items second.now.value mode j) }
{
    let before = Arc::new(alloc, before)?;
    let behind = Arc::new(alloc, filled(alloc, n, second, work)?)?;
    let judged = compare(alloc, &before, &behind, mode)?;
    Ok(judged)
}

/// Whether two segments on `n` qubits are one linear map, or are so up to a phase: each is filled as one
/// run of items, and the two records are compared. `AllocError` is want of memory.
///
/// Condition: 1 to 64 qubits, at most 65,536 items each, all on these qubits.
pub fn same_gates(
    alloc: Global,
    first: &Arc<Items>,
    second: &Arc<Items>,
    n: u32,
    mode: Mode,
) -> Result<Judged, AllocError>
    requires width { (1 ≤ n) × (n ≤ 64) }
    requires first { CanRun n first.now.value }
    requires second { CanRun n second.now.value }
    ensures decided { IfOk result (λ j. Decides n (run_of first.now.value) (run_of second.now.value) mode j.steps (finding_of j.verdict)) }
    ensures mode { IfOk result (λ j. j.mode ≡ mode) }
    ensures first_record { IfOk result (λ j. IsRecordOf n first.now.value (Fills n (run_of first.now.value)) j.first.value) }
    ensures second_record { IfOk result (λ j. IsRecordOf n second.now.value (Fills n (run_of second.now.value)) j.second.value) }
{
    let mut work = Workspace::new(alloc);
    let before = filled(alloc, n, first, &mut work)?;
    judged_with(alloc, n, before, second, mode, &mut work)
}

// The limit that the record's segment passes, if it does.
fn passed_limit(record: &Record) -> Result<Option<Evidence>, AllocError>
    ensures { IfOk result (λ o. IfSome o (λ e. outcome_of record.now ≡ passed (overrun_of e) record.now.moves)) }
{
    match &record.body {
        Body::Passed(evidence) => Ok(Some(same_evidence(evidence)?)),
        Body::Sum(_) => Ok(None),
    }
}

/// `same_gates`, but that the second segment isn't filled where the first passes a limit: then that is
/// the verdict, whatever the second comes to. `AllocError` is want of memory.
///
/// Condition: as for `same_gates`.
pub fn decide(
    alloc: Global,
    first: &Arc<Items>,
    second: &Arc<Items>,
    n: u32,
    mode: Mode,
) -> Result<Decision, AllocError>
    requires width { (1 ≤ n) × (n ≤ 64) }
    requires first { CanRun n first.now.value }
    requires second { CanRun n second.now.value }
    ensures { IfOk result (IsDecision n first.now.value second.now.value mode) }
{
    let mut work = Workspace::new(alloc);
    let before = filled(alloc, n, first, &mut work)?;
    if let Some(evidence) = passed_limit(&before)? {
        return Ok(Decision::Passed(evidence));
    }
    let judged = judged_with(alloc, n, before, second, mode, &mut work)?;
    Ok(Decision::Judged(judged))
}
