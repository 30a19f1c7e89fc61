ghost use Rattle.std.specs.Prelude.{◌≡◌, min};
ghost use Rattle.ps_reach.specs.Sizes.{record_size, judged_size, evidence_size};

use super::evidence::{Body, Evidence};
use super::judged::Judged;
use super::record::Record;
use super::verdict::Verdict;

// Sizes are told as this number where they are above it.
const CAP: u64 = 1_000_000_000_000;

impl Evidence {
    // The size of the sums.
    fn size(&self) -> u64
        ensures { result ≡ min (evidence_size self.now) 1000000000000 }
    {
        let first = self.first.size();
        match &self.second {
            Some(second) => (first + second.size()).min(CAP),
            None => first,
        }
    }
}

impl Record {
    /// The size of the sum, or of the evidence's sums, and the number of moves; told as 10^12 where it
    /// is above that.
    pub fn size(&self) -> u64
        ensures { result ≡ min (record_size self.now) 1000000000000 }
    {
        let body = match &self.body {
            Body::Sum(sum) => sum.size(),
            Body::Passed(evidence) => evidence.size(),
        };
        (body + (self.moves.as_slice().len() as u64).min(CAP)).min(CAP)
    }
}

impl Judged {
    /// The number of steps, and the size of a sum that is left or of the evidence's sums; told as 10^12
    /// where it is above that.
    pub fn size(&self) -> u64
        ensures { result ≡ min (judged_size self.now) 1000000000000 }
    {
        let verdict = match &self.verdict {
            Verdict::Yes => 0,
            Verdict::YesPhase(_) => 0,
            Verdict::No(_) => 0,
            Verdict::NoPair(..) => 0,
            Verdict::Stuck(sum) => sum.size(),
            Verdict::Passed(evidence) => evidence.size(),
        };
        (verdict + (self.steps.as_slice().len() as u64).min(CAP)).min(CAP)
    }
}
