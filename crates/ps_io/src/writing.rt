ghost use Rattle.std.specs.Prelude.{◌≡◌, ℕ, ◌<◌, ◌≤◌, OnOk, OnErr};
ghost use Rattle.std.specs.Io.KnownBytes.{append_known};
ghost use Rattle.ps_io.specs.Counts.{Rose};
ghost use Rattle.ps_io.specs.Streams.{AppendsPrefix};

use crate::sink::Sink;
use crate::source::Failed;

/// Writes all of `bytes`, in order. `Failed` comes only where the sink's count of faults rose; some bytes from the
/// front may have been taken then.
pub fn write_all<W: Sink>(sink: &mut W, bytes: &[u8]) -> Result<(), Failed>
    ensures all { OnOk result (W.held sink.new ≡ append_known (W.held sink.old) bytes.now) }
    ensures failed { OnErr result (Rose (W.faults sink.old) (W.faults sink.new)) }
    ensures prefix { OnErr result (AppendsPrefix (W.held sink.old) (W.held sink.new) bytes.now) }
    ensures never_falls { W.faults sink.old ≤ W.faults sink.new }
{
    let mut done = 0;
    while done < bytes.len() {
        let n = match sink.write(&bytes[done..]) {
            Ok(n) => n,
            Err(Failed) => return Err(Failed),
        };
        if n == 0 {
            return Err(Failed);
        }
        done += n;
    }
    Ok(())
}
