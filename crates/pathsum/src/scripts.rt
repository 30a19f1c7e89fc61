//! A script, whose sessions are run on threads of their own, beside workers.

ghost use Rattle.std.specs.Prelude.{◌≡◌, ◌≤◌, length, IfOk, All};
ghost use Rattle.ps_journal.specs.History.{IsLegal};
ghost use Rattle.ps_reply.specs.Lines.{IsOfSession};
ghost use Rattle.pathsum.specs.Scripts.{answer_to};
ghost use Rattle.pathsum.specs.Runs.{RunEnds};
ghost use Rattle.pathsum.specs.Outcomes.{Yields, YieldsOf, PrintsRun, ending_status, run_text};

use super::answer::Answer;
use super::calls::LONGEST;
use super::ended::Ended;
use super::print::{print, write};
use super::refusals::Refusal;
use ps_io::{Gate, ReadEnd, Sink, Source, read_all};
use ps_reply::text;
use ps_script::{ScriptFault, read};
use ps_sessions::Ending;
use ps_threads::{Run, run_beside};
use std::alloc::{AllocError, Global};
use std::sync::Wait;
use std::thread::Threads;

/// What the input comes to.
#[derive(Drop)]
pub enum Outcome {
    /// No command is done: the input could not be read or is no script, or memory was wanting.
    Hindered(Answer),
    /// The commands were done, of each session all of them or the first ones.
    Served(Run),
}

/// Reads a script from the source, does its commands, those of each session on a thread of its own, beside so many workers,
/// and writes the replies. Condition: at most 16 workers.
pub fn script_run<S: Source, W: Sink, G: Gate + Sync, R: Threads + Wait + Sync>(
    rt: &R,
    alloc: Global,
    source: &mut S,
    sink: &mut W,
    gate: &G,
    workers: u32,
) -> Ended
    requires few { workers ≤ 16 }
    ensures ends { RunEnds workers (S.remaining source.old) (S.faults source.old) (S.faults source.new)
        (W.held sink.old) (W.held sink.new) (W.faults sink.old) (W.faults sink.new) result.journal result.status }
    ensures legal { IsLegal result.journal }
{
    match read_and_serve(rt, alloc, source, gate, workers) {
        Outcome::Hindered(answer) => print(alloc, sink, &answer),
        Outcome::Served(run) => print_run(alloc, sink, run),
    }
}

// What the source's bytes come to.
fn read_and_serve<S: Source, G: Gate + Sync, R: Threads + Wait + Sync>(
    rt: &R,
    alloc: Global,
    source: &mut S,
    gate: &G,
    workers: u32,
) -> Outcome
    requires few { workers ≤ 16 }
    ensures { Yields workers (S.remaining source.old) (S.faults source.old) (S.faults source.new) result }
{
    match read_all(alloc, source, LONGEST) {
        Ok(bytes) => serve(rt, alloc, &bytes, gate, workers),
        Err(ReadEnd::Read) => Outcome::Hindered(Answer::Read),
        Err(ReadEnd::TooLong) => Outcome::Hindered(Answer::TooLong),
        Err(ReadEnd::Memory) => Outcome::Hindered(Answer::Memory),
    }
}

// What the bytes of an input come to.
fn serve<G: Gate + Sync, R: Threads + Wait + Sync>(
    rt: &R,
    alloc: Global,
    bytes: &[u8],
    gate: &G,
    workers: u32,
) -> Outcome
    requires short { length bytes.now ≤ 16777216 }
    requires few { workers ≤ 16 }
    ensures { YieldsOf workers bytes.now result }
{
    match read(alloc, bytes) {
        Ok(script) => match run_beside(rt, alloc, script, workers, gate) {
            Ok(run) => Outcome::Served(run),
            Err(AllocError) => Outcome::Hindered(Answer::Memory),
        },
        Err(fault) => Outcome::Hindered(refused(fault)),
    }
}

// The answer to a fault of a script.
fn refused(fault: ScriptFault) -> Answer
    ensures { result ≡ answer_to fault }
{
    match fault {
        ScriptFault::Form(line) => refused_at(Refusal::Form, line),
        ScriptFault::Session(line) => refused_at(Refusal::Session, line),
        ScriptFault::Block(line) => refused_at(Refusal::Block, line),
        ScriptFault::Memory => Answer::Memory,
    }
}

// A refusal, told at the first column of a line.
fn refused_at(why: Refusal, line: u32) -> Answer
    ensures { result ≡ Answer.Refused why line 1 }
{
    Answer::Refused {
        why,
        line,
        column: 1,
    }
}

// Writes the replies of a run, and behind them the line `full` where a command has none.
fn print_run<W: Sink>(alloc: Global, sink: &mut W, run: Run) -> Ended
    requires { All IsOfSession run.journal }
    ensures written { PrintsRun run (W.held sink.old) (W.held sink.new) (W.faults sink.old) (W.faults sink.new) result.status }
    ensures journal { result.journal ≡ run.journal }
{
    let status = print_replies(alloc, sink, &run);
    Ended {
        status,
        journal: run.journal,
    }
}

// The same, with the status alone: 0 or 69, or 70 where memory was wanting, or 67 where the sink failed.
fn print_replies<W: Sink>(alloc: Global, sink: &mut W, run: &Run) -> u8
    requires { All IsOfSession run.now.journal }
    ensures { PrintsRun run.now (W.held sink.old) (W.held sink.new) (W.faults sink.old) (W.faults sink.new) result }
{
    match replies(alloc, run) {
        Ok(text) => write(sink, &text, status_of(run.ending)),
        Err(AllocError) => write(sink, b"memory\n", Answer::Memory.status()),
    }
}

/// The status of a run.
pub fn status_of(ending: Ending) -> u8
    ensures { result ≡ ending_status ending }
{
    match ending {
        Ending::Done => 0,
        Ending::Full { .. } => 69,
    }
}

// The replies of a run, and behind them the line `full` where a command has none.
fn replies(alloc: Global, run: &Run) -> Result<Vec<u8>, AllocError>
    requires { All IsOfSession run.now.journal }
    ensures { IfOk result (λ v. v.items ≡ run_text run.now) }
{
    let mut bytes = text(alloc, run.journal.as_slice())?;
    match run.ending {
        Ending::Done => {}
        Ending::Full { .. } => bytes.extend_from_slice(b"full\n")?,
    }
    Ok(bytes)
}
