//! Which sums follow one another, and which are whole sides.

ghost use Rattle.std.specs.Prelude.{◌≡◌, ◌↔◌, IsTrue};
ghost use Rattle.ps_reach.specs.Replays.{whole_run};
ghost use Rattle.ps_steps.specs.Holding.{AllSided};
ghost use Rattle.ps_replay.specs.declared.held.Place.TheVariants.{Both};
ghost use Rattle.ps_replay.specs.Places.{run_of, stack, IsMet, IsTogether, IsWholeSide};
ghost use Rattle.ps_replay.specs.Stacks.{SidedAbove};

use super::held::{Held, Place, Stretch};
use ps_prim::Prim;

// Both stretches together, if the second follows the first.
fn met(first: Stretch, second: Stretch) -> Option<Stretch>
    ensures { IsMet first second result }
{
    match first {
        Stretch::Empty => Some(second),
        Stretch::Span { from, to: middle } => match second {
            Stretch::Empty => Some(first),
            Stretch::Span { from: next, to } => {
                if next == middle {
                    Some(Stretch::Span { from, to })
                } else {
                    None
                }
            }
        },
    }
}

/// What two sums stand for together, if the second follows the first on its side.
pub fn together(first: Place, second: Place) -> Option<Place>
    ensures { IsTogether first second result }
{
    match first {
        Place::Both => None,
        Place::Side { b, stretch } => match second {
            Place::Both => None,
            Place::Side {
                b: other,
                stretch: next,
            } => {
                if b != other {
                    return None;
                }
                match met(stretch, next) {
                    Some(whole) => Some(Place::Side { b, stretch: whole }),
                    None => None,
                }
            }
        },
    }
}

// Whether the stretch is all of the prims.
fn is_all(stretch: Stretch, prims: &[Prim]) -> bool
    ensures { IsTrue result ↔ (run_of stretch ≡ whole_run prims.now) }
{
    match stretch {
        Stretch::Empty => prims.is_empty(),
        Stretch::Span { from, to } => {
            !prims.is_empty() && from == 0 && to as usize == prims.len()
        }
    }
}

/// Whether it stands for all prims of this side.
pub fn is_whole(place: Place, b: bool, prims: &[Prim]) -> bool
    ensures { IsTrue result ↔ IsWholeSide b prims.now place }
{
    match place {
        Place::Side { b: side, stretch } => side == b && is_all(stretch, prims),
        Place::Both => false,
    }
}

/// Whether it stands for the overlap.
pub fn is_overlap(place: Place) -> bool
    ensures { IsTrue result ↔ (place ≡ Both) }
{
    match place {
        Place::Side { .. } => false,
        Place::Both => true,
    }
}

/// Whether none is the overlap; only the oldest may be.
pub fn all_sided(held: &[Held]) -> bool
    requires { SidedAbove (stack held.now) }
    ensures { IsTrue result ↔ AllSided (stack held.now) }
{
    if held.is_empty() {
        return true;
    }
    let oldest = &held[0];
    !is_overlap(oldest.place)
}
