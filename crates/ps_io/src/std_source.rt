ghost use Rattle.std.specs.Prelude.{◌≡◌, ◌≤◌, length, None, IfOk, OnOk, OnErr};
ghost use Rattle.std.specs.Io.KnownBytes.{ReadConsumes};
ghost use Rattle.ps_io.specs.Counts.{Rose, one_more};

use crate::source::{Failed, Source};
use std::io::Read;
use std::marker::Model;

/// How many bytes are asked of a reader at a time.
const PIECE: usize = 8192;

/// A source over a reader of the standard library. It tells no content.
#[derive(Drop)]
pub struct StdSource<R: Read> {
    reader: R,
    faults: u64,
}

impl<R: Read> Model for StdSource<R> {
    ghost use Rattle.ps_io.specs.Standard.{ReaderState};

    ghost Value = { ReaderState };

    ghost view = { λ s. record { left = R.remaining s.reader; faults = s.faults } };
}

impl<R: Read> StdSource<R> {
    /// Gives what the reader gives.
    pub fn new(reader: R) -> StdSource<R>
        ensures { result ≡ record { left = R.remaining reader; faults = 0 } }
    {
        StdSource { reader, faults: 0 }
    }
}

impl<R: Read> Source for StdSource<R> {
    ghost remaining = { λ _. None };

    ghost faults = { λ s. s.faults };

    /// One read of the reader, of at most 8,192 bytes. Each Err of it is a fault.
    fn read(&mut self, buf: &mut [u8]) -> Result<usize, Failed>
        ensures count { IfOk result (λ n. n ≤ length buf.new) }
        ensures failed { OnErr result (Rose self.old.faults self.new.faults) }
        ensures untouched { OnErr result (buf.new ≡ buf.old) }
        ensures never_falls { self.old.faults ≤ self.new.faults }

        // Where the reader says what it has left, that is what was given.
        ensures passed { ReadConsumes self.old.left self.new.left result buf.new }
        ensures no_fault { OnOk result (self.new.faults ≡ self.old.faults) }
        ensures one_fault { OnErr result (self.new.faults ≡ one_more self.old.faults) }
    {
        // a reader that fails may have written to what it was given
        let mut piece = [0; PIECE];
        let most = buf.len().min(PIECE);
        match self.reader.read(&mut piece[..most]) {
            Ok(n) => {
                buf[..n].copy_from_slice(&piece[..n]);
                Ok(n)
            }
            Err(_) => {
                self.faults = self.faults.saturating_add(1);
                Err(Failed)
            }
        }
    }
}
