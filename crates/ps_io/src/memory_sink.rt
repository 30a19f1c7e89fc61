ghost use Rattle.std.specs.Prelude.{◌≡◌, ℕ, ◌<◌, ◌≤◌, ◌↔◌, ◌+◌, ◌++◌, [], length, take, min, vec_len, Some, IsErr, IfOk, OnErr, Contains};
ghost use Rattle.std.specs.Io.KnownBytes.{append_known};
ghost use Rattle.ps_io.specs.Counts.{Rose, one_more};
ghost use Rattle.ps_io.specs.Memory.{after_write, after_failed_write};
ghost use Rattle.ps_io.specs.Streams.{AppendsPrefix};

use crate::listing::is_listed;
use crate::sink::Sink;
use crate::source::Failed;
use std::marker::Model;

/// A sink that takes bytes into memory and tells them, with calls that fail where the caller says.
#[derive(Drop)]
pub struct MemorySink {
    room: Vec<u8>,
    taken: usize,
    fails: Vec<u64>,
    calls: u64,
    faults: u64,
}

impl Model for MemorySink {
    ghost use Rattle.std.specs.Prelude.{◌-◌, ◌≤◌, take, vec_len};
    ghost use Rattle.ps_io.specs.Memory.{MemoryOutput};

    ghost Value = { MemoryOutput };

    ghost view = { λ s. record {
      held = take s.taken s.room.items;
      free = vec_len s.room - s.taken;
      fails = s.fails.items;
      calls = s.calls;
      faults = s.faults;
    } };

    ghost invariant = { λ s. s.taken ≤ vec_len s.room };
}

impl MemorySink {
    /// Takes as many bytes as `room` has, in place of those, from the front; it holds none at first. Calls are
    /// numbered from 0, and those in `fails` fail and take nothing.
    pub fn new(room: Vec<u8>, fails: Vec<u64>) -> MemorySink
        ensures { result ≡ record { held = []; free = vec_len room; fails = fails.items; calls = 0; faults = 0 } }
    {
        MemorySink {
            room,
            taken: 0,
            fails,
            calls: 0,
            faults: 0,
        }
    }

    /// The bytes taken, in order.
    pub fn held(&self) -> &[u8]
        ensures { result.now ≡ self.now.held }
    {
        &self.room[..self.taken]
    }

    fn count_fault(&mut self)
        ensures risen { self.new ≡ record self.old { faults = one_more self.old.faults } }
        ensures never_falls { self.old.faults ≤ self.new.faults }
    {
        self.faults = self.faults.saturating_add(1);
    }
}

// Puts the bytes in place of those from `at` on.
fn overwrite(room: &mut [u8], at: usize, bytes: &[u8])
    requires { at + length bytes.now ≤ length room.old }
    ensures { take (at + length bytes.now) room.new ≡ take at room.old ++ bytes.now }
{
    room[at..at + bytes.len()].copy_from_slice(bytes);
}

impl Sink for MemorySink {
    ghost held = { λ s. Some s.held };

    ghost faults = { λ s. s.faults };

    /// Fails exactly at the calls listed. Otherwise it takes all that there is room for; to take none of a piece
    /// that isn't empty is a fault.
    fn write(&mut self, bytes: &[u8]) -> Result<usize, Failed>
        ensures count { IfOk result (λ n. n ≤ length bytes.now) }
        ensures taken { IfOk result (λ n. Some self.new.held ≡ append_known (Some self.old.held) (take n bytes.now)) }
        ensures none { IfOk result (λ n. n ≡ 0 → 0 < length bytes.now → Rose self.old.faults self.new.faults) }
        ensures failed { OnErr result (Rose self.old.faults self.new.faults) }
        ensures prefix { OnErr result (AppendsPrefix (Some self.old.held) (Some self.new.held) bytes.now) }
        ensures never_falls { self.old.faults ≤ self.new.faults }

        // Exactly which answer it is, and what it leaves.
        ensures listed { IsErr result ↔ Contains self.old.fails self.old.calls }
        ensures amount { IfOk result (λ n. n ≡ min (length bytes.now) self.old.free) }
        ensures took { IfOk result (λ n. self.new ≡ after_write self.old bytes.now n) }
        ensures took_none { OnErr result (self.new ≡ after_failed_write self.old) }
    {
        let call = self.calls;
        self.calls = call.saturating_add(1);
        if is_listed(&self.fails, call) {
            self.count_fault();
            return Err(Failed);
        }
        let n = bytes.len().min(self.room.len() - self.taken);
        overwrite(&mut self.room, self.taken, &bytes[..n]);
        self.taken += n;
        if n == 0 && !bytes.is_empty() {
            self.count_fault();
        }
        Ok(n)
    }
}
