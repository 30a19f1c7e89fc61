//! The text of verdicts and of limits.

ghost use Rattle.std.specs.Prelude.{◌≡◌, ◌++◌, ◌≤◌, map, IfOk, OnOk, codes, decimal};
ghost use Rattle.ps_sum.specs.Texts.{sum_text};
ghost use Rattle.ps_reply.specs.Verdicts.{input_text, turn_text, limit_text, verdict_text};

use ps_mono::Bits;
use ps_reach::Verdict;
use ps_ring::Phase;
use ps_sum::{Passed, PathSum, What};
use std::alloc::{AllocError, Global};

// Puts a basis input behind a text: a digit for each qubit, qubit 0 first.
fn push_input(text: &mut Vec<u8>, n: u32, at: &Bits) -> Result<(), AllocError>
    requires { n ≤ 64 }
    ensures { OnOk result (text.new.items ≡ text.old.items ++ input_text n at.now) }
{
    for v in 0..n as u16 {
        text.push(if at.get(v) { b'1' } else { b'0' })?;
    }
    Ok(())
}

// `no` with the input that tells the two apart.
fn no_text(alloc: Global, n: u32, at: &Bits) -> Result<Vec<u8>, AllocError>
    requires { n ≤ 64 }
    ensures { IfOk result (λ v. v.items ≡ codes "no " ++ input_text n at.now) }
{
    let mut text = b"no ".to_vec(alloc)?;
    push_input(&mut text, n, at)?;
    Ok(text)
}

// `no` with the two inputs that tell the two apart together.
fn pair_text(alloc: Global, n: u32, first: &Bits, second: &Bits) -> Result<Vec<u8>, AllocError>
    requires { n ≤ 64 }
    ensures { IfOk result (λ v. v.items ≡ codes "no " ++ input_text n first.now ++ codes " " ++ input_text n second.now) }
{
    let mut text = no_text(alloc, n, first)?;
    text.push(b' ')?;
    push_input(&mut text, n, second)?;
    Ok(text)
}

// `yes phase` with the phase as a part of a turn.
fn phase_text(alloc: Global, phase: Phase) -> Result<Vec<u8>, AllocError>
    ensures { IfOk result (λ v. v.items ≡ codes "yes phase " ++ turn_text phase) }
{
    if phase.units() == 0 {
        return b"yes phase 0".to_vec(alloc);
    }
    let power = phase.power();
    let above = phase.units() as u64 >> power;
    let below = 1u64 << (32 - power);
    let text = format!(in alloc; "yes phase {above}/{below}")?;
    Ok(text.into_bytes())
}

// `unknown stuck` with the sum that is left.
fn stuck_text(alloc: Global, sum: &PathSum) -> Result<Vec<u8>, AllocError>
    ensures { IfOk result (λ v. v.items ≡ codes "unknown stuck " ++ sum_text sum.now) }
{
    let mut text = b"unknown stuck ".to_vec(alloc)?;
    text.extend_from_slice(&sum.text(alloc)?)?;
    Ok(text)
}

/// A limit: `terms` or `variables`, and how many there were.
pub fn limit_text(alloc: Global, passed: &Passed) -> Result<Vec<u8>, AllocError>
    ensures { IfOk result (λ v. v.items ≡ limit_text passed.now) }
{
    let count = passed.count;
    let text = match passed.what {
        What::Terms => format!(in alloc; "terms {count}")?,
        What::Variables => format!(in alloc; "variables {count}")?,
    };
    Ok(text.into_bytes())
}

// `unknown passed` with the limit.
fn passed_text(alloc: Global, passed: &Passed) -> Result<Vec<u8>, AllocError>
    ensures { IfOk result (λ v. v.items ≡ codes "unknown passed " ++ limit_text passed.now) }
{
    let mut text = b"unknown passed ".to_vec(alloc)?;
    text.extend_from_slice(&limit_text(alloc, passed)?)?;
    Ok(text)
}

/// The verdict on two circuits of `n` qubits, at most 64: `yes`, `yes phase F`, `no BITS`, `no BITS BITS`,
/// `unknown stuck SUM`, or `unknown passed` with a limit. `AllocError` is want of memory.
pub fn verdict_text(alloc: Global, n: u32, verdict: &Verdict) -> Result<Vec<u8>, AllocError>
    requires { n ≤ 64 }
    ensures { IfOk result (λ v. v.items ≡ verdict_text n verdict.now) }
{
    match verdict {
        Verdict::Yes => b"yes".to_vec(alloc),
        Verdict::YesPhase(phase) => phase_text(alloc, *phase),
        Verdict::No(at) => no_text(alloc, n, at),
        Verdict::NoPair(first, second) => pair_text(alloc, n, first, second),
        Verdict::Stuck(sum) => stuck_text(alloc, sum),
        Verdict::Passed(evidence) => passed_text(alloc, &evidence.passed),
    }
}
