//! Compares two quantum circuits, and serves scripts of sessions that edit circuits and ask about them.
#![tactic(auto)]

ghost use Rattle.std.specs.Prelude.{◌≡◌, ℕ, [], map, string_bytes};
ghost use Rattle.ps_journal.specs.History.{IsLegal};
ghost use Rattle.pathsum.specs.Ended.{Answers, Ends, IsOneAnswer};
ghost use Rattle.pathsum.specs.Scripts.{AskToRun, IsRun};
ghost use Rattle.pathsum.specs.Generated.{AskToGenerate, IsGeneration, GenerationEnds, Generates};
ghost use Rattle.pathsum.specs.Runs.{RunEnds, Headline, CutShort, IsOneRefusal};

mod answer;
mod calls;
mod commands;
mod ended;
mod generating;
mod generation;
mod input;
mod pair;
mod print;
mod reading;
mod refusals;
mod scripts;
mod splits;
#[cfg(test)]
mod tests;
mod verdict;
#[cfg(test)]
mod worker_tests;
mod workers;

use answer::Answer;
pub use calls::{prove_run, replay_run, same_local_run, same_phase_run, same_run};
use commands::{Command, command_of};
pub use ended::Ended;
pub use generating::gen_run;
use generation::generation_of;
use print::print;
use ps_io::{Gate, OpenGate, Sink, Source, StdSink, StdSource};
pub use scripts::script_run;
use std::alloc::{AllocError, Global};
use std::env;
use std::io::ErrorKind;
use std::process::ExitCode;
use std::rt::Env;
use std::sync::Wait;
use std::thread::Threads;
use workers::workers_of;

/// Does what the words say, with the input from the source and what is printed to the sink.
pub fn run<S: Source, W: Sink, G: Gate + Sync, R: Threads + Wait + Sync>(
    rt: &R,
    alloc: Global,
    words: &[String],
    source: &mut S,
    sink: &mut W,
    gate: &G,
) -> Ended
    // Of all words but `run W` and `gen S Q N`: what an answer prints that claims this is written, with its status.
    ensures ends { ¬ (AskToRun (map string_bytes words.now)) → ¬ (AskToGenerate (map string_bytes words.now))
        → Ends (Answers (map string_bytes words.now) (S.remaining source.old) (S.faults source.old) (S.faults source.new))
        (W.held sink.old) (W.held sink.new) (W.faults sink.old) (W.faults sink.new) result.status }
    ensures one_answer { IsOneAnswer (map string_bytes words.now) (S.remaining source.old) }
    ensures unserved { ¬ (AskToRun (map string_bytes words.now)) → ¬ (AskToGenerate (map string_bytes words.now))
        → result.journal ≡ [] }

    // Of `run W`: however it ends, what is written, of which with status 67 a prefix, and what the journal is.
    ensures run_ends { (workers : ℕ) → IsRun (map string_bytes words.now) workers
        → RunEnds workers (S.remaining source.old) (S.faults source.old) (S.faults source.new)
        (W.held sink.old) (W.held sink.new) (W.faults sink.old) (W.faults sink.new) result.journal result.status }
    // With status 0 all commands of the script are answered, and their replies are written.
    ensures headline { (workers : ℕ) → IsRun (map string_bytes words.now) workers → result.status ≡ 0
        → Headline workers (S.remaining source.old) (W.held sink.old) (W.held sink.new) result.journal }
    // With status 69 of each session the first ones are, one at least is left, and the line `full` is written behind the replies.
    ensures cut_short { (workers : ℕ) → IsRun (map string_bytes words.now) workers → result.status ≡ 69
        → CutShort workers (S.remaining source.old) (W.held sink.old) (W.held sink.new) result.journal }
    // A script with a fault is refused, with that fault.
    ensures one_refusal { AskToRun (map string_bytes words.now)
        → IsOneRefusal (S.remaining source.old) (W.held sink.old) (W.held sink.new) result.status }

    // Of `gen S Q N`: however it ends, what is written, of which with status 67 a prefix, and what the journal is.
    ensures generation_ends { (seed qubits items : ℕ) → IsGeneration (map string_bytes words.now) seed qubits items
        → GenerationEnds seed qubits items
        (W.held sink.old) (W.held sink.new) (W.faults sink.old) (W.faults sink.new) result.journal result.status }
    // With status 0 the generated commands are answered, and their replies are written.
    ensures generates { (seed qubits items : ℕ) → IsGeneration (map string_bytes words.now) seed qubits items
        → result.status ≡ 0 → Generates seed qubits items (W.held sink.old) (W.held sink.new) result.journal }

    // Whatever the words and the status, the journal is a legal history.
    ensures legal { IsLegal result.journal }
{
    if let Some(workers) = workers_of(words) {
        return script_run(rt, alloc, source, sink, gate, workers);
    }
    match generation_of(words) {
        Some(wanted) => gen_run(alloc, wanted.seed, wanted.qubits, wanted.items, sink),
        None => command_run(alloc, words, source, sink),
    }
}

// Does what the words ask of two circuits.
fn command_run<S: Source, W: Sink>(
    alloc: Global,
    words: &[String],
    source: &mut S,
    sink: &mut W,
) -> Ended
    ensures ends { Ends (Answers (map string_bytes words.now) (S.remaining source.old) (S.faults source.old) (S.faults source.new))
        (W.held sink.old) (W.held sink.new) (W.faults sink.old) (W.faults sink.new) result.status }
    ensures unserved { result.journal ≡ [] }
{
    match command_of(words) {
        None => print(alloc, sink, &Answer::Words),
        Some(Command::Same) => same_run(alloc, source, sink),
        Some(Command::SamePhase) => same_phase_run(alloc, source, sink),
        Some(Command::SameLocal) => same_local_run(alloc, source, sink),
        Some(Command::Prove) => prove_run(alloc, source, sink),
        Some(Command::Replay) => replay_run(alloc, source, sink),
    }
}

// The words behind the program's name; none where one of them is no UTF-8.
fn words<R: Env + AllocGlobal>(rt: &R) -> Result<Vec<String>, AllocError> {
    let mut words = Vec::new(rt.alloc());
    match env::args(rt) {
        Ok(arguments) => {
            for word in arguments.skip(1) {
                words.push(word)?;
            }
            Ok(words)
        }
        Err(fault) if fault.kind() == ErrorKind::OutOfMemory => Err(AllocError),
        Err(_) => Ok(words),
    }
}

// How many bytes are kept for the next sums when they are freed.
const KEPT: usize = 24 << 20;

// The C library gives freed memory back to the system, block by block, and asks for it again, unless a
// large block was freed before (mallopt(3), the dynamic threshold of M_MMAP_THRESHOLD). So one is, first
// of all; none of its pages is touched, and where there is no room for it nothing is lost but time.
fn keep_freed(alloc: Global) {
    let block: Result<Vec<u8>, AllocError> = Vec::with_capacity(alloc, KEPT);
    drop(block);
}

fn main(rt: HostRuntime) -> ExitCode {
    keep_freed(rt.alloc());
    let Ok(words) = words(&rt) else {
        return ExitCode::from(Answer::Memory.status());
    };
    let mut source = StdSource::new(rt.stdin());
    let mut sink = StdSink::new(rt.stdout());
    let ended = run(&rt, rt.alloc(), &words, &mut source, &mut sink, &OpenGate);
    ExitCode::from(ended.status)
}
