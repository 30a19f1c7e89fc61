//! The answers to two circuits.

ghost use Rattle.std.specs.Prelude.{◌≡◌, ◌*◌, ◌≤◌, ◌↔◌, List, length, IsTrue, IfOk};
ghost use Rattle.ps_prim.specs.declared.prims.Primitive.{Primitive as Prim};
ghost use Rattle.ps_reach.specs.Runs.{run_of};
ghost use Rattle.ps_reach.specs.Findings.{no};
ghost use Rattle.ps_reach.specs.Judging.{finding_of};
ghost use Rattle.ps_local.specs.Local.{found_as};
ghost use Rattle.ps_reach.specs.declared.mode.Mode.TheVariants.{Exact};
ghost use Rattle.ps_reach.specs.declared.verdict.Verdict.TheVariants.{Yes};
ghost use Rattle.ps_normal.specs.Comparing.{IsBoth, IsDecision};
ghost use Rattle.pathsum.specs.Local.{SaysBehind, IsLocalVerdict};
ghost use Rattle.pathsum.specs.Verdicts.{Says, IsVerdict};
ghost use Rattle.pathsum.specs.Proofs.{Proves, Echoes, IsReplay, Works};

use super::answer::Answer;
use super::commands::Command;
use super::input::Input;
use super::pair::Pair;
use ps_local::{Found, decide_local};
use ps_normal::{Decision, derive};
use ps_prim::Prim;
use ps_reach::{Items, Judged, Mode, Verdict};
use ps_replay::{Replayed, replay};
use std::alloc::{AllocError, Global};
use std::sync::Arc;

/// What a command does with two circuits, and the bytes of a derivation.
pub fn work(
    alloc: Global,
    command: Command,
    pair: Pair,
    document: &[u8],
) -> Result<Answer, AllocError>
    requires { length document.now ≤ 16777216 }
    ensures { IfOk result (Works command pair.qubits pair.first pair.second document.now) }
{
    match command {
        Command::Same => decide(alloc, pair, Mode::Exact),
        Command::SamePhase => decide(alloc, pair, Mode::Phase),
        Command::SameLocal => decide_edit(alloc, pair),
        Command::Prove => prove(alloc, pair),
        Command::Replay => replay_document(alloc, &pair, document),
    }
}

// Whether two circuits are one linear map, or are so up to a phase.
fn decide(alloc: Global, pair: Pair, mode: Mode) -> Result<Answer, AllocError>
    ensures { IfOk result (IsVerdict pair.qubits (run_of pair.first) (run_of pair.second) mode) }
{
    let qubits = pair.qubits;
    match decided(alloc, pair, mode)? {
        Decision::Judged(judged) => Ok(told(qubits, judged.verdict)),
        Decision::Passed(evidence) => Ok(Answer::Passed(evidence.passed)),
    }
}

// Whether two circuits are one linear map, as what is left of them where they part tells.
fn decide_edit(alloc: Global, pair: Pair) -> Result<Answer, AllocError>
    ensures { IfOk result (IsLocalVerdict pair.qubits pair.first pair.second) }
{
    let qubits = pair.qubits;
    let first = segment(pair.first);
    let second = segment(pair.second);
    let local = decide_local(alloc, &first, &second, qubits)?;
    Ok(found_behind(qubits, local.front, local.found))
}

// The derivation that two circuits are one linear map, or what else was found.
fn prove(alloc: Global, pair: Pair) -> Result<Answer, AllocError>
    ensures { IfOk result (Proves pair.qubits (run_of pair.first) (run_of pair.second)) }
{
    let qubits = pair.qubits;
    match decided(alloc, pair, Mode::Exact)? {
        Decision::Judged(judged) => derived(alloc, qubits, judged),
        Decision::Passed(evidence) => Ok(Answer::Passed(evidence.passed)),
    }
}

// The derivation of a yes, or what else was found.
fn derived(alloc: Global, qubits: u32, judged: Judged) -> Result<Answer, AllocError>
    requires { qubits ≤ 64 }
    ensures { IfOk result (λ a. (first second : List (List Prim)) → IsBoth qubits first second Exact judged → Proves qubits (run_of first) (run_of second) a) }
{
    if is_yes(&judged.verdict) {
        Ok(Answer::Proof(derive(alloc, &judged)?))
    } else {
        Ok(told(qubits, judged.verdict))
    }
}

// Whether a derivation shows that two circuits are one linear map.
fn replay_document(alloc: Global, pair: &Pair, document: &[u8]) -> Result<Answer, AllocError>
    requires { length document.now ≤ 16777216 }
    ensures { IfOk result (IsReplay pair.now.qubits (run_of pair.now.first) (run_of pair.now.second) document.now) }
{
    let first = prims(alloc, &pair.first)?;
    let second = prims(alloc, &pair.second)?;
    let replayed = replay(alloc, document, pair.qubits, &first, &second)?;
    Ok(echoed(replayed))
}

// What two circuits come to.
fn decided(alloc: Global, pair: Pair, mode: Mode) -> Result<Decision, AllocError>
    ensures { IfOk result (IsDecision pair.qubits pair.first pair.second mode) }
{
    let qubits = pair.qubits;
    let first = Arc::new(alloc, segment(pair.first))?;
    let second = Arc::new(alloc, segment(pair.second))?;
    ps_normal::decide(alloc, &first, &second, qubits, mode)
}

// The items as those of a segment.
fn segment(items: qasm_expand::Items) -> Items
    ensures { result ≡ items }
{
    Items::from_vec(items.into_vec())
}

// All prims of the items in order.
fn prims(alloc: Global, items: &qasm_expand::Items) -> Result<Vec<Prim>, AllocError>
    ensures run { IfOk result (λ v. v.items ≡ run_of items.now) }
    ensures few { IfOk result (λ v. length v.items ≤ 4096 * length items.now) }
{
    let mut prims = Vec::new(alloc);
    for item in items.as_slice() {
        prims.extend_from_slice(item.prims.as_slice())?;
    }
    Ok(prims)
}

fn is_yes(verdict: &Verdict) -> bool
    ensures { IsTrue result ↔ (verdict.now ≡ Yes) }
{
    match verdict {
        Verdict::Yes => true,
        Verdict::YesPhase(_) => false,
        Verdict::No(_) => false,
        Verdict::NoPair(..) => false,
        Verdict::Stuck(_) => false,
        Verdict::Passed(_) => false,
    }
}

// The answer that tells a verdict.
fn told(qubits: u32, verdict: Verdict) -> Answer
    requires { qubits ≤ 64 }
    ensures { Says qubits (finding_of verdict) result }
{
    match verdict {
        Verdict::Yes => Answer::Yes,
        Verdict::YesPhase(phase) => Answer::YesPhase(phase),
        Verdict::No(at) => Answer::No(Input { qubits, at }),
        Verdict::NoPair(first, second) => Answer::NoPair(
            Input { qubits, at: first },
            Input { qubits, at: second },
        ),
        Verdict::Stuck(sum) => Answer::Stuck(sum),
        Verdict::Passed(evidence) => Answer::Passed(evidence.passed),
    }
}

// The answer that tells what was found of what is left behind so many items.
fn found_behind(qubits: u32, front: usize, found: Found) -> Answer
    requires { qubits ≤ 64 }
    ensures { SaysBehind qubits front (found_as found) result }
{
    match found {
        Found::Nothing => Answer::Yes,
        Found::Decided(Decision::Judged(judged)) => told_behind(qubits, front, judged.verdict),
        Found::Decided(Decision::Passed(evidence)) => Answer::Passed(evidence.passed),
        Found::Windows => Answer::Yes,
    }
}

// The answer that tells a verdict on what is left behind so many items.
fn told_behind(qubits: u32, front: usize, verdict: Verdict) -> Answer
    requires { qubits ≤ 64 }
    ensures { SaysBehind qubits front (finding_of verdict) result }
{
    match verdict {
        Verdict::No(at) => no_behind(Input { qubits, at }, front),
        verdict => told(qubits, verdict),
    }
}

// The answer that tells an input at which what is left behind so many items differs.
fn no_behind(input: Input, front: usize) -> Answer
    ensures { SaysBehind input.qubits front (no input.at) result }
{
    if front == 0 {
        Answer::No(input)
    } else {
        Answer::NoBehind(input, front)
    }
}

// The answer that tells what a replay came to.
fn echoed(replayed: Replayed) -> Answer
    ensures { Echoes replayed result }
{
    match replayed {
        Replayed::Accepted => Answer::Accepted,
        Replayed::Left(sum) => Answer::Left(sum),
        Replayed::Rejected { line, why } => Answer::Rejected { line, why },
    }
}
