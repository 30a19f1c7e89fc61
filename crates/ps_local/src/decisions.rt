//! What a decision says, without what it rests on.

ghost use Rattle.std.specs.Prelude.{◌≡◌, ◌↔◌, IsTrue};
ghost use Rattle.ps_reach.specs.Findings.{yes};
ghost use Rattle.ps_reach.specs.Judging.{finding_of};
ghost use Rattle.ps_local.specs.Local.{decided_as};
ghost use Rattle.ps_local.specs.Windows.{IsUnknown, IsLimit};

use ps_normal::Decision;
use ps_reach::Verdict;

fn says_yes(verdict: &Verdict) -> bool
    ensures { IsTrue result ↔ (finding_of verdict.now ≡ yes) }
{
    match verdict {
        Verdict::Yes => true,
        Verdict::YesPhase(_) => false,
        Verdict::No(_) => false,
        Verdict::NoPair(..) => false,
        Verdict::Stuck(_) => false,
        Verdict::Passed(_) => false,
    }
}

fn says_unknown(verdict: &Verdict) -> bool
    ensures { IsTrue result ↔ IsUnknown (finding_of verdict.now) }
{
    match verdict {
        Verdict::Yes => false,
        Verdict::YesPhase(_) => false,
        Verdict::No(_) => false,
        Verdict::NoPair(..) => false,
        Verdict::Stuck(_) => true,
        Verdict::Passed(_) => true,
    }
}

fn says_limit(verdict: &Verdict) -> bool
    ensures { IsTrue result ↔ IsLimit (finding_of verdict.now) }
{
    match verdict {
        Verdict::Yes => false,
        Verdict::YesPhase(_) => false,
        Verdict::No(_) => false,
        Verdict::NoPair(..) => false,
        Verdict::Stuck(_) => false,
        Verdict::Passed(_) => true,
    }
}

/// Whether the two lists are one linear map.
pub fn is_yes(decision: &Decision) -> bool
    ensures { IsTrue result ↔ (decided_as decision.now ≡ yes) }
{
    match decision {
        Decision::Judged(judged) => says_yes(&judged.verdict),
        Decision::Passed(_) => false,
    }
}

/// Whether neither yes nor no was found.
pub fn is_unknown(decision: &Decision) -> bool
    ensures { IsTrue result ↔ IsUnknown (decided_as decision.now) }
{
    match decision {
        Decision::Judged(judged) => says_unknown(&judged.verdict),
        Decision::Passed(_) => true,
    }
}

/// Whether a limit was passed.
pub fn is_limit(decision: &Decision) -> bool
    ensures { IsTrue result ↔ IsLimit (decided_as decision.now) }
{
    match decision {
        Decision::Judged(judged) => says_limit(&judged.verdict),
        Decision::Passed(_) => true,
    }
}
