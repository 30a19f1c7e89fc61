ghost use Rattle.std.specs.Prelude.{◌≡◌};
ghost use Rattle.ps_reach.specs.Judging.{IsJudged};

use super::lists::Steps;
use super::mode::Mode;
use super::record::Record;
use super::verdict::Verdict;
use std::sync::Arc;

/// What comparing two segments on the same qubits found, in one mode, and the steps that reduced their
/// overlap.
///
/// The verdict is justified for the two runs and the mode. Where a record has a limit passed, the verdict is that of
/// the first such record, and there are no steps.
#[derive(Drop)]
pub struct Judged {
    pub first: Arc<Record>,
    pub second: Arc<Record>,
    pub mode: Mode,
    pub steps: Steps,
    pub verdict: Verdict,
    pub ghost same: { first.value.n ≡ second.value.n },
    pub ghost right: { ∥ IsJudged first.value second.value mode steps verdict ∥₁ },
}
