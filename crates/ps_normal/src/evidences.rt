//! Evidence and moves of a filling.

ghost use Rattle.std.specs.Prelude.{◌≡◌, ◌++◌, ◌∷◌, IfOk, OnOk};
ghost use Rattle.ps_reach.specs.Fillings.{overrun, rewrites};
ghost use Rattle.ps_reach.specs.Parts.{held, overrun_of};

use super::parts::Places;
use ps_reach::Evidence;
use ps_rules::{Move, Step};
use ps_sum::{Passed, PathSum};
use std::alloc::{AllocError, Global};
use std::sync::Arc;

/// The evidence of these sums.
pub fn evidence(
    alloc: Global,
    passed: Passed,
    places: Places,
    first: PathSum,
    second: Option<PathSum>,
) -> Result<Evidence, AllocError>
    ensures { IfOk result (λ e. overrun_of e ≡ overrun passed places.from places.middle places.to first second) }
{
    let second = match second {
        Some(second) => Some(Arc::new(alloc, second)?),
        None => None,
    };
    Ok(Evidence {
        passed,
        from: places.from,
        middle: places.middle,
        to: places.to,
        first: Arc::new(alloc, first)?,
        second,
    })
}

/// The evidence of these sums, which are shared.
pub fn shared_evidence(
    passed: Passed,
    places: Places,
    first: Arc<PathSum>,
    second: Option<Arc<PathSum>>,
) -> Evidence
    ensures { overrun_of result ≡ overrun passed places.from places.middle places.to first.value (held second) }
{
    Evidence {
        passed,
        from: places.from,
        middle: places.middle,
        to: places.to,
        first,
        second,
    }
}

/// Puts a move and the steps that follow it behind the moves.
pub fn push_moves(moves: &mut Vec<Move>, first: Move, steps: &[Step]) -> Result<(), AllocError>
    ensures { OnOk result (moves.new.items ≡ moves.old.items ++ first ∷ rewrites steps.now) }
{
    moves.push(first)?;
    for step in steps {
        moves.push(Move::Rewrite(*step))?;
    }
    Ok(())
}
