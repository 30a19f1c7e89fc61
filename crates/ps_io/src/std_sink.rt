ghost use Rattle.std.specs.Prelude.{◌≡◌, ℕ, ◌<◌, ◌≤◌, length, take, None, IfOk, OnErr};
ghost use Rattle.std.specs.Io.KnownBytes.{Appends};
ghost use Rattle.ps_io.specs.Counts.{Rose, one_more};
ghost use Rattle.ps_io.specs.Memory.{faults_after_write};

use crate::sink::Sink;
use crate::source::Failed;
use std::io::Write;
use std::marker::Model;

/// A sink over a writer of the standard library. It tells no content.
#[derive(Drop)]
pub struct StdSink<W: Write> {
    writer: W,
    faults: u64,
}

impl<W: Write> Model for StdSink<W> {
    ghost use Rattle.ps_io.specs.Standard.{WriterState};

    ghost Value = { WriterState };

    ghost view = { λ s. record { held = W.contents s.writer; faults = s.faults } };
}

impl<W: Write> StdSink<W> {
    /// Passes bytes on to the writer.
    pub fn new(writer: W) -> StdSink<W>
        ensures { result ≡ record { held = W.contents writer; faults = 0 } }
    {
        StdSink { writer, faults: 0 }
    }

    fn count_fault(&mut self)
        ensures risen { self.new ≡ record self.old { faults = one_more self.old.faults } }
        ensures never_falls { self.old.faults ≤ self.new.faults }
    {
        self.faults = self.faults.saturating_add(1);
    }
}

impl<W: Write> Sink for StdSink<W> {
    ghost held = { λ _. None };

    ghost faults = { λ s. s.faults };

    /// One write to the writer, and then a flush. Each Err of either is a fault.
    fn write(&mut self, bytes: &[u8]) -> Result<usize, Failed>
        ensures count { IfOk result (λ n. n ≤ length bytes.now) }
        ensures none { IfOk result (λ n. n ≡ 0 → 0 < length bytes.now → Rose self.old.faults self.new.faults) }
        ensures failed { OnErr result (Rose self.old.faults self.new.faults) }
        ensures never_falls { self.old.faults ≤ self.new.faults }

        // Where the writer says what it holds, that grew by what was taken.
        ensures passed { IfOk result (λ n. Appends self.old.held self.new.held (take n bytes.now)) }
        ensures no_fault { IfOk result (λ n. self.new.faults ≡ faults_after_write self.old.faults n (length bytes.now)) }
        ensures one_fault { OnErr result (self.new.faults ≡ one_more self.old.faults) }
    {
        let written = match self.writer.write(bytes) {
            Ok(n) => self.writer.flush().map(|()| n),
            Err(e) => Err(e),
        };
        match written {
            Ok(n) => {
                if n == 0 && !bytes.is_empty() {
                    self.count_fault();
                }
                Ok(n)
            }
            Err(_) => {
                self.count_fault();
                Err(Failed)
            }
        }
    }
}
