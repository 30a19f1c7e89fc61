//! The commands over a source and a sink.

ghost use Rattle.std.specs.Prelude.{◌≡◌, ◌≤◌, [], length};
ghost use Rattle.pathsum.specs.Ended.{Deserves, Ends};
ghost use Rattle.pathsum.specs.Judgements.{Judged, IsRefusal};

use super::answer::Answer;
use super::commands::Command;
use super::ended::Ended;
use super::pair::TwoTexts;
use super::print::print;
use super::reading::read_texts;
use super::refusals::Refusal;
use super::splits::parted;
use super::verdict::work;
use ps_io::{ReadEnd, Sink, Source, read_all};
use qasm_lex::place;
use std::alloc::{AllocError, Global};

/// The greatest number of bytes of an input.
pub const LONGEST: u32 = 16_777_216;

/// Reads two texts from the source, and writes whether they are one linear map.
pub fn same_run<S: Source, W: Sink>(alloc: Global, source: &mut S, sink: &mut W) -> Ended
    ensures ends { Ends (Deserves Command.Same (S.remaining source.old) (S.faults source.old) (S.faults source.new)) (W.held sink.old) (W.held sink.new) (W.faults sink.old) (W.faults sink.new) result.status }
    ensures unserved { result.journal ≡ [] }
{
    let answer = answer(alloc, Command::Same, source);
    print(alloc, sink, &answer)
}

/// Reads two texts from the source, and writes whether they are one linear map up to a global phase.
pub fn same_phase_run<S: Source, W: Sink>(alloc: Global, source: &mut S, sink: &mut W) -> Ended
    ensures ends { Ends (Deserves Command.SamePhase (S.remaining source.old) (S.faults source.old) (S.faults source.new)) (W.held sink.old) (W.held sink.new) (W.faults sink.old) (W.faults sink.new) result.status }
    ensures unserved { result.journal ≡ [] }
{
    let answer = answer(alloc, Command::SamePhase, source);
    print(alloc, sink, &answer)
}

/// Reads two texts from the source, and writes whether they are one linear map, as what is left of them
/// where they part tells.
pub fn same_local_run<S: Source, W: Sink>(alloc: Global, source: &mut S, sink: &mut W) -> Ended
    ensures ends { Ends (Deserves Command.SameLocal (S.remaining source.old) (S.faults source.old) (S.faults source.new)) (W.held sink.old) (W.held sink.new) (W.faults sink.old) (W.faults sink.new) result.status }
    ensures unserved { result.journal ≡ [] }
{
    let answer = answer(alloc, Command::SameLocal, source);
    print(alloc, sink, &answer)
}

/// Reads two texts from the source, and writes a derivation that they are one linear map, or that they
/// are not, or that it is unknown.
pub fn prove_run<S: Source, W: Sink>(alloc: Global, source: &mut S, sink: &mut W) -> Ended
    ensures ends { Ends (Deserves Command.Prove (S.remaining source.old) (S.faults source.old) (S.faults source.new)) (W.held sink.old) (W.held sink.new) (W.faults sink.old) (W.faults sink.new) result.status }
    ensures unserved { result.journal ≡ [] }
{
    let answer = answer(alloc, Command::Prove, source);
    print(alloc, sink, &answer)
}

/// Reads two texts and a derivation from the source, and writes whether the derivation shows that the
/// two texts are one linear map.
pub fn replay_run<S: Source, W: Sink>(alloc: Global, source: &mut S, sink: &mut W) -> Ended
    ensures ends { Ends (Deserves Command.Replay (S.remaining source.old) (S.faults source.old) (S.faults source.new)) (W.held sink.old) (W.held sink.new) (W.faults sink.old) (W.faults sink.new) result.status }
    ensures unserved { result.journal ≡ [] }
{
    let answer = answer(alloc, Command::Replay, source);
    print(alloc, sink, &answer)
}

/// The answer of a command to what the source gives.
pub fn answer<S: Source>(alloc: Global, command: Command, source: &mut S) -> Answer
    ensures { Deserves command (S.remaining source.old) (S.faults source.old) (S.faults source.new) result }
{
    match read_all(alloc, source, LONGEST) {
        Ok(bytes) => judge(alloc, command, &bytes),
        Err(ReadEnd::Read) => Answer::Read,
        Err(ReadEnd::TooLong) => Answer::TooLong,
        Err(ReadEnd::Memory) => Answer::Memory,
    }
}

// The answer to the bytes of an input.
fn judge(alloc: Global, command: Command, bytes: &[u8]) -> Answer
    requires { length bytes.now ≤ 16777216 }
    ensures { Judged command bytes.now result }
{
    let Some(pieces) = parted(command, bytes) else {
        return refused(bytes, Refusal::Separator, bytes.len() as u64);
    };
    match read_texts(alloc, pieces.first, pieces.second, pieces.start) {
        Ok(TwoTexts::Refuses { why, at }) => refused(bytes, why, at),
        Ok(TwoTexts::Both(pair)) => match work(alloc, command, pair, pieces.document) {
            Ok(answer) => answer,
            Err(AllocError) => Answer::Memory,
        },
        Err(AllocError) => Answer::Memory,
    }
}

// The answer to an input that is refused at a byte of it.
fn refused(bytes: &[u8], why: Refusal, at: u64) -> Answer
    requires small { length bytes.now ≤ 16777216 }
    requires near { at ≤ 8589934591 }
    ensures { IsRefusal bytes.now why at result }
{
    let inside = at.min(bytes.len() as u64);
    let (line, column) = place(bytes, inside as u32);
    Answer::Refused {
        why,
        line,
        column: u64::from(column) + (at - inside),
    }
}
