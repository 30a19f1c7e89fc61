ghost use Rattle.std.specs.Prelude.{◌≡◌, ◌<◌, ◌≤◌, ◌↔◌, ◌++◌, [], length, take, drop, min, Some, IsErr, IfOk, OnErr, IfSome, Contains};
ghost use Rattle.std.specs.Io.KnownBytes.{prepend_known};
ghost use Rattle.ps_io.specs.Counts.{Rose};
ghost use Rattle.ps_io.specs.Memory.{after_read, after_failed_read};

use crate::listing::is_listed;
use crate::source::{Failed, Source};
use std::marker::Model;

/// A source that gives bytes from memory and tells them, in pieces, with calls that fail where the caller says.
#[derive(Drop)]
pub struct MemorySource {
    bytes: Vec<u8>,
    given: usize,
    piece: u32,
    fails: Vec<u64>,
    calls: u64,
    faults: u64,
}

impl Model for MemorySource {
    ghost use Rattle.std.specs.Prelude.{◌<◌, ◌≤◌, drop, vec_len};
    ghost use Rattle.ps_io.specs.Memory.{MemoryInput};

    ghost Value = { MemoryInput };

    ghost view = { λ s. record {
      left = drop s.given s.bytes.items;
      piece = s.piece;
      fails = s.fails.items;
      calls = s.calls;
      faults = s.faults;
    } };

    ghost invariant = { λ s. (s.given ≤ vec_len s.bytes) × (0 < s.piece) };
}

impl MemorySource {
    /// Gives `bytes`, at most `piece` of them at a time. Calls are numbered from 0, and those in `fails` fail and
    /// give nothing.
    pub fn new(bytes: Vec<u8>, piece: u32, fails: Vec<u64>) -> MemorySource
        requires { 0 < piece }
        ensures { result ≡ record { left = bytes.items; piece = piece; fails = fails.items; calls = 0; faults = 0 } }
    {
        MemorySource {
            bytes,
            given: 0,
            piece,
            fails,
            calls: 0,
            faults: 0,
        }
    }
}

// Gives the front of the bytes left, as many as there is room for and no more than a piece, and answers how many.
fn give(left: &[u8], buf: &mut [u8], piece: u32) -> usize
    ensures amount { result ≡ min (min (length left.now) (length buf.old)) piece }
    ensures copied { buf.new ≡ take result left.now ++ drop result buf.old }
    ensures given { left.now ≡ take result buf.new ++ drop result left.now }
{
    let n = left.len().min(buf.len()).min(piece as usize);
    buf[..n].copy_from_slice(&left[..n]);
    n
}

impl Source for MemorySource {
    ghost remaining = { λ s. Some s.left };

    ghost faults = { λ s. s.faults };

    /// Fails exactly at the calls listed. Otherwise it gives as many bytes as there are, up to the greatest piece
    /// and the room.
    fn read(&mut self, buf: &mut [u8]) -> Result<usize, Failed>
        requires { 0 < length buf.old }
        ensures count { IfOk result (λ n. n ≤ length buf.new) }
        ensures bytes { IfOk result (λ n. Some self.old.left ≡ prepend_known (take n buf.new) (Some self.new.left)) }
        ensures end { IfOk result (λ n. IfSome (Some self.old.left) (λ left. (n ≡ 0) ↔ (left ≡ []))) }
        ensures failed { OnErr result (Rose self.old.faults self.new.faults) }
        ensures kept { OnErr result (Some self.new.left ≡ Some self.old.left) }
        ensures untouched { OnErr result (buf.new ≡ buf.old) }
        ensures never_falls { self.old.faults ≤ self.new.faults }

        // Exactly which answer it is, and what it leaves.
        ensures listed { IsErr result ↔ Contains self.old.fails self.old.calls }
        ensures amount { IfOk result (λ n. n ≡ min (min (length self.old.left) (length buf.old)) self.old.piece) }
        ensures copied { IfOk result (λ n. buf.new ≡ take n self.old.left ++ drop n buf.old) }
        ensures gave { IfOk result (λ n. self.new ≡ after_read self.old n) }
        ensures gave_none { OnErr result (self.new ≡ after_failed_read self.old) }
    {
        let call = self.calls;
        self.calls = call.saturating_add(1);
        if is_listed(&self.fails, call) {
            self.faults = self.faults.saturating_add(1);
            return Err(Failed);
        }
        let n = give(&self.bytes[self.given..], buf, self.piece);
        self.given += n;
        Ok(n)
    }
}
