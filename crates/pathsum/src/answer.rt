ghost use Rattle.std.specs.Prelude.{◌≡◌, ◌++◌, ◌∷◌, [], ◌≤◌, map, IfOk, OnOk, codes, decimal};
ghost use Rattle.ps_mono.specs.Sets.{stands};
ghost use Rattle.ps_overlap.specs.Overlapping.{point};
ghost use Rattle.ps_sum.specs.Texts.{sum_text};
ghost use Rattle.pathsum.specs.Answers.{status_of, text_of, turn_text, limit_words, why_words};
ghost use Rattle.pathsum.specs.Inputs.{bit_code};
ghost use Rattle.pathsum.specs.Names.{refusal_name};

use super::input::Input;
use super::refusals::Refusal;
use ps_replay::Why;
use ps_ring::Phase;
use ps_steps::{Derivation, text};
use ps_sum::{Passed, PathSum, What};
use std::alloc::{AllocError, Global};

/// What the program answers. Each answer has an exit status, and bytes that are printed.
#[derive(Drop)]
pub enum Answer {
    /// The two circuits are one linear map.
    Yes,
    /// The two circuits are one linear map, as this derivation shows.
    Proof(Derivation),
    /// The second circuit is the linear map of the first turned by this phase.
    YesPhase(Phase),
    /// The two circuits differ at this input; or, up to a phase, none will do there.
    No(Input),
    /// No one phase will do for the two circuits at these two inputs.
    NoPair(Input, Input),
    /// What is left of the two circuits behind so many items that they have in common differs at this input.
    NoBehind(Input, usize),
    /// No rule reduces this sum, to which the overlap of the two circuits comes.
    Stuck(PathSum),
    /// A limit was passed on the way.
    Passed(Passed),
    /// The derivation shows that the two circuits are one linear map.
    Accepted,
    /// The derivation fails at this line, counted from 1.
    Rejected {
        line: u32,
        why: Why,
    },
    /// The derivation holds, and comes to this sum, which is not 1.
    Left(PathSum),
    /// The input is refused, at this line and this column, both counted from 1.
    Refused {
        why: Refusal,
        line: u32,
        column: u64,
    },
    /// The words of the command have no known form.
    Words,
    /// The input could not be read.
    Read,
    /// The input is longer than the limit.
    TooLong,
    /// Memory was wanting.
    Memory,
}

impl Answer {
    /// The exit status.
    pub fn status(&self) -> u8
        ensures { result ≡ status_of self.now }
    {
        match self {
            Answer::Yes => 0,
            Answer::Proof(_) => 0,
            Answer::YesPhase(_) => 0,
            Answer::No(_) => 1,
            Answer::NoPair(..) => 1,
            Answer::NoBehind(..) => 1,
            Answer::Stuck(_) => 2,
            Answer::Passed(_) => 2,
            Answer::Accepted => 0,
            Answer::Rejected { .. } => 1,
            Answer::Left(_) => 2,
            Answer::Refused { .. } => 65,
            Answer::Words => 64,
            Answer::Read => 66,
            Answer::TooLong => 68,
            Answer::Memory => 70,
        }
    }

    /// What is printed: one line, or those of a derivation, each with its line feed.
    pub fn text(&self, alloc: Global) -> Result<Vec<u8>, AllocError>
        ensures { IfOk result (λ v. v.items ≡ text_of self.now) }
    {
        match self {
            Answer::Yes => b"yes\n".to_vec(alloc),
            Answer::Proof(derivation) => text(alloc, derivation),
            Answer::YesPhase(phase) => phase_line(alloc, *phase),
            Answer::No(input) => no_line(alloc, input),
            Answer::NoPair(first, second) => no_pair_line(alloc, first, second),
            Answer::NoBehind(input, front) => no_behind_line(alloc, input, *front),
            Answer::Stuck(sum) => stuck_line(alloc, sum),
            Answer::Passed(passed) => passed_line(alloc, passed),
            Answer::Accepted => b"accepted\n".to_vec(alloc),
            Answer::Rejected { line, why } => rejected_line(alloc, *line, *why),
            Answer::Left(sum) => left_line(alloc, sum),
            Answer::Refused { why, line, column } => refused_line(alloc, *why, *line, *column),
            Answer::Words => b"words\n".to_vec(alloc),
            Answer::Read => b"read\n".to_vec(alloc),
            Answer::TooLong => b"too long\n".to_vec(alloc),
            Answer::Memory => b"memory\n".to_vec(alloc),
        }
    }
}

// `yes phase` with the phase as a part of a turn.
fn phase_line(alloc: Global, phase: Phase) -> Result<Vec<u8>, AllocError>
    ensures { IfOk result (λ v. v.items ≡ codes "yes phase " ++ turn_text phase ++ codes "\n") }
{
    if phase.units() == 0 {
        return b"yes phase 0\n".to_vec(alloc);
    }
    let power = phase.power();
    let above = phase.units() as u64 >> power;
    let below = 1u64 << (32 - power);
    let line = format!(in alloc; "yes phase {above}/{below}\n")?;
    Ok(line.into_bytes())
}

// Puts a digit for each qubit behind the line.
fn push_digits(line: &mut Vec<u8>, input: &Input) -> Result<(), AllocError>
    ensures { OnOk result (line.new.items ≡ line.old.items ++ map bit_code (point input.now.qubits input.now.at)) }
{
    let at = input.at;
    for v in 0..input.qubits as u16 {
        line.push(if at.get(v) { b'1' } else { b'0' })?;
    }
    Ok(())
}

// `no` with a digit for each qubit.
fn no_line(alloc: Global, input: &Input) -> Result<Vec<u8>, AllocError>
    ensures { IfOk result (λ v. v.items ≡ codes "no " ++ map bit_code (point input.now.qubits input.now.at) ++ codes "\n") }
{
    let mut line = b"no ".to_vec(alloc)?;
    push_digits(&mut line, input)?;
    line.push(b'\n')?;
    Ok(line)
}

// `no` with a digit for each qubit of the one input, and of the other.
fn no_pair_line(alloc: Global, first: &Input, second: &Input) -> Result<Vec<u8>, AllocError>
    ensures { IfOk result (λ v. v.items ≡ codes "no " ++ map bit_code (point first.now.qubits first.now.at) ++ codes " " ++ map bit_code (point second.now.qubits second.now.at) ++ codes "\n") }
{
    let mut line = b"no ".to_vec(alloc)?;
    push_digits(&mut line, first)?;
    line.push(b' ')?;
    push_digits(&mut line, second)?;
    line.push(b'\n')?;
    Ok(line)
}

// `no` with a digit for each qubit, and how many items stand before what differs.
fn no_behind_line(alloc: Global, input: &Input, front: usize) -> Result<Vec<u8>, AllocError>
    ensures { IfOk result (λ v. v.items ≡ codes "no " ++ map bit_code (point input.now.qubits input.now.at) ++ codes " behind " ++ decimal front ++ codes "\n") }
{
    let mut line = b"no ".to_vec(alloc)?;
    push_digits(&mut line, input)?;
    let behind = format!(in alloc; " behind {front}\n")?;
    line.extend_from_slice(behind.as_bytes())?;
    Ok(line)
}

// `unknown stuck` with the sum that is left.
fn stuck_line(alloc: Global, sum: &PathSum) -> Result<Vec<u8>, AllocError>
    ensures { IfOk result (λ v. v.items ≡ codes "unknown stuck " ++ sum_text sum.now ++ codes "\n") }
{
    let mut line = b"unknown stuck ".to_vec(alloc)?;
    let text = sum.text(alloc)?;
    line.extend_from_slice(&text)?;
    line.push(b'\n')?;
    Ok(line)
}

// `unknown passed` with what a limit is put on, and how many there were.
fn passed_line(alloc: Global, passed: &Passed) -> Result<Vec<u8>, AllocError>
    ensures { IfOk result (λ v. v.items ≡ limit_words passed.now ++ codes "\n") }
{
    let count = passed.count;
    let line = match passed.what {
        What::Terms => format!(in alloc; "unknown passed terms {count}\n")?,
        What::Variables => format!(in alloc; "unknown passed variables {count}\n")?,
    };
    Ok(line.into_bytes())
}

// `left` with the sum that is left.
fn left_line(alloc: Global, sum: &PathSum) -> Result<Vec<u8>, AllocError>
    ensures { IfOk result (λ v. v.items ≡ codes "left " ++ sum_text sum.now ++ codes "\n") }
{
    let mut line = b"left ".to_vec(alloc)?;
    let text = sum.text(alloc)?;
    line.extend_from_slice(&text)?;
    line.push(b'\n')?;
    Ok(line)
}

// The word for why a derivation fails.
fn why_name(why: Why) -> &'static str
    ensures { result.now ≡ why_words why }
{
    match why {
        Why::Form => "Form",
        Why::Cut => "Cut",
        Why::Order => "Order",
        Why::Redex => "Redex",
        Why::Limit => "Limit",
    }
}

// `rejected` with the line that fails, and why.
fn rejected_line(alloc: Global, line: u32, why: Why) -> Result<Vec<u8>, AllocError>
    ensures { IfOk result (λ v. v.items ≡ codes "rejected " ++ decimal line ++ codes " " ++ why_words why ++ codes "\n") }
{
    let name = why_name(why);
    let line = format!(in alloc; "rejected {line} {name}\n")?;
    Ok(line.into_bytes())
}

// `input` with why it is refused, and where.
fn refused_line(alloc: Global, why: Refusal, line: u32, column: u64) -> Result<Vec<u8>, AllocError>
    ensures { IfOk result (λ v. v.items ≡ codes "input " ++ refusal_name why ++ codes " " ++ decimal line ++ codes ":" ++ decimal column ++ codes "\n") }
{
    let name = why.name();
    let line = format!(in alloc; "input {name} {line}:{column}\n")?;
    Ok(line.into_bytes())
}
