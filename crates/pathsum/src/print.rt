ghost use Rattle.std.specs.Prelude.{◌≡◌, ◌⊎◌, []};
ghost use Rattle.pathsum.specs.Answers.{status_of, text_of};
ghost use Rattle.pathsum.specs.Ended.{Writes};

use super::answer::Answer;
use super::ended::Ended;
use ps_io::{Failed, Sink, write_all};
use ps_sessions::Journal;
use std::alloc::{AllocError, Global};

/// Writes what the answer prints, for a call that served no script. Where memory for that is wanting, writes the line
/// of that.
pub fn print<W: Sink>(alloc: Global, sink: &mut W, answer: &Answer) -> Ended
    ensures written { Writes (W.held sink.old) (W.held sink.new) (W.faults sink.old) (W.faults sink.new) (text_of answer.now) (status_of answer.now) result.status
        ⊎ Writes (W.held sink.old) (W.held sink.new) (W.faults sink.old) (W.faults sink.new) (text_of Answer.Memory) 70 result.status }
    ensures unserved { result.journal ≡ [] }
{
    let status = write_answer(alloc, sink, answer);
    Ended {
        status,
        journal: Journal::from_vec(Vec::new(alloc)),
    }
}

// Writes what the answer prints, and gives the status.
fn write_answer<W: Sink>(alloc: Global, sink: &mut W, answer: &Answer) -> u8
    ensures { Writes (W.held sink.old) (W.held sink.new) (W.faults sink.old) (W.faults sink.new) (text_of answer.now) (status_of answer.now) result
        ⊎ Writes (W.held sink.old) (W.held sink.new) (W.faults sink.old) (W.faults sink.new) (text_of Answer.Memory) 70 result }
{
    match answer.text(alloc) {
        Ok(text) => write(sink, &text, answer.status()),
        Err(AllocError) => write(sink, b"memory\n", Answer::Memory.status()),
    }
}

/// Writes these bytes. The status is the wanted one, or 67 where the sink failed.
pub fn write<W: Sink>(sink: &mut W, text: &[u8], wanted: u8) -> u8
    ensures { Writes (W.held sink.old) (W.held sink.new) (W.faults sink.old) (W.faults sink.new) text.now wanted result }
{
    match write_all(sink, text) {
        Ok(()) => wanted,
        Err(Failed) => 67,
    }
}
