ghost use Rattle.std.specs.Prelude.{◌≡◌, ℕ, ◌≤◌, IsTrue, false};
ghost use Rattle.ps_io.specs.Counts.{Rose};

/// Who may ask a computation to stop. Its answer is a hint alone.
pub trait Stop {
    /// How often the answer was yes. It stands still at 2^64 - 1.
    ghost yeses: { Self → ℕ };

    /// Whether to stop. Yes comes only where the count of yeses rose.
    fn asked(&mut self) -> bool
        ensures yes { IsTrue result → Rose (yeses self.old) (yeses self.new) }
        ensures never_falls { yeses self.old ≤ yeses self.new };
}

/// Never asks to stop.
#[derive(Clone, Copy, Debug)]
pub struct NeverStop;

impl Stop for NeverStop {
    ghost yeses = { λ _. 0 };

    fn asked(&mut self) -> bool
        ensures never { result ≡ false }
        ensures yes { IsTrue result → Rose 0 0 }
        ensures never_falls { 0 ≤ 0 }
    {
        false
    }
}
