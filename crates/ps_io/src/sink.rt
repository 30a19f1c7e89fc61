ghost use Rattle.std.specs.Prelude.{◌≡◌, ℕ, ◌<◌, ◌≤◌, Option, List, length, take, IfOk, OnErr};
ghost use Rattle.std.specs.Io.KnownBytes.{append_known};
ghost use Rattle.ps_io.specs.Counts.{Rose};
ghost use Rattle.ps_io.specs.Streams.{AppendsPrefix};

use crate::source::Failed;

/// Where bytes go.
pub trait Sink {
    /// The bytes that it holds, in the order in which they were taken; None where the sink doesn't tell. Whether it
    /// tells never changes.
    ghost held: { Self → Option (List ℕ) };

    /// How many writes have failed. It stands still at 2^64 - 1.
    ghost faults: { Self → ℕ };

    /// Takes bytes from the front of `bytes`, and answers how many. To take none of a piece that isn't empty is a
    /// fault, at which the count of faults rises. `Failed` comes only where the count rose; some bytes from the
    /// front may have been taken then.
    fn write(&mut self, bytes: &[u8]) -> Result<usize, Failed>
        ensures count { IfOk result (λ n. n ≤ length bytes.now) }
        ensures taken { IfOk result (λ n. held self.new ≡ append_known (held self.old) (take n bytes.now)) }
        ensures none { IfOk result (λ n. n ≡ 0 → 0 < length bytes.now → Rose (faults self.old) (faults self.new)) }
        ensures failed { OnErr result (Rose (faults self.old) (faults self.new)) }
        ensures prefix { OnErr result (AppendsPrefix (held self.old) (held self.new) bytes.now) }
        ensures never_falls { faults self.old ≤ faults self.new };
}
