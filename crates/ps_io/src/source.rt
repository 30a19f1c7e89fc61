ghost use Rattle.std.specs.Prelude.{◌≡◌, ℕ, ◌<◌, ◌≤◌, ◌↔◌, Option, List, [], length, take, IfOk, OnErr, IfSome};
ghost use Rattle.std.specs.Io.KnownBytes.{prepend_known};
ghost use Rattle.ps_io.specs.Counts.{Rose};

/// The outside failed: a read gave nothing, or a write didn't take its bytes.
#[derive(Clone, Copy, Debug, PartialEq, Eq)]
pub struct Failed;

/// Where bytes come from.
pub trait Source {
    /// The bytes that reads will give from here on, up to the end of the input; None where the source doesn't tell.
    /// Whether it tells never changes.
    ghost remaining: { Self → Option (List ℕ) };

    /// How many reads have failed. It stands still at 2^64 - 1.
    ghost faults: { Self → ℕ };

    /// Puts the next bytes of the input at the front of `buf`, and answers how many. That is 0 exactly at the end
    /// of the input. `Failed` comes only where the count of faults rose; nothing was given then, and `buf` is as it was.
    fn read(&mut self, buf: &mut [u8]) -> Result<usize, Failed>
        requires { 0 < length buf.old }
        ensures count { IfOk result (λ n. n ≤ length buf.new) }
        ensures bytes { IfOk result (λ n. remaining self.old ≡ prepend_known (take n buf.new) (remaining self.new)) }
        ensures end { IfOk result (λ n. IfSome (remaining self.old) (λ left. (n ≡ 0) ↔ (left ≡ []))) }
        ensures failed { OnErr result (Rose (faults self.old) (faults self.new)) }
        ensures kept { OnErr result (remaining self.new ≡ remaining self.old) }
        ensures untouched { OnErr result (buf.new ≡ buf.old) }
        ensures never_falls { faults self.old ≤ faults self.new };
}
