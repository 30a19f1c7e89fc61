//! What takes turns under one number.
ghost use Rattle.std.specs.Prelude.{◌≡◌, ℕ, ◌<◌, Some, None, Err, IfOk, IfErr};
ghost use Rattle.ps_calls.specs.Turns.{TurnView, Stays, Turned, Refused};

use ps_desk::Full;
use ps_journal::{Cmd, Reply};

/// Takes turns: each is one entry of the journal of what it stands over.
pub trait Turns {
    /// What is known of it.
    ghost view: { Self → TurnView };

    /// Its number, below 64.
    fn number(&self) -> u32
        ensures number { result ≡ (view self.now).number }
        ensures below { result < 64 };

    /// Takes a turn. `Full` comes exactly where its ticket, drawn now or earlier, is 262,144 or more: then the command
    /// is not done, and no other ticket is drawn.
    fn turn(&mut self, cmd: Cmd) -> Result<Reply, Full>
        ensures stays { Stays (view self.old) (view self.new) }
        ensures done { IfOk result (λ reply. Turned (view self.old) (view self.new) cmd reply) }
        ensures full { IfErr result (λ f. Refused (view self.old) (view self.new) f.ticket) }
        ensures again { (t : ℕ) → (view self.old).refused ≡ Some t → result ≡ Err record { ticket = t } };
}
