ghost use Rattle.std.specs.Prelude.{◌≤◌, length};
ghost use Rattle.ps_prim.specs.Maps.{AllWithin};
ghost use Rattle.ps_prim.specs.Items.{AllWithin-prop};
ghost use Rattle.ps_reach.specs.Runs.{run_of};
ghost use Rattle.ps_reach.specs.Parts.{IsScaled, IsScaled-prop, IsRight};

use super::evidence::Body;
use super::items::Items;
use super::lists::Moves;
use std::sync::Arc;

/// What is kept of a segment on `n` qubits: its items, at most 65,536; what their prims come to, all
/// together the segment's run; and the moves that lead there.
///
/// A sum is normal for the run and is reached by the moves, and a limit is passed as the evidence says.
#[derive(Drop)]
pub struct Record {
    pub n: u32,
    pub items: Arc<Items>,
    pub moves: Moves,
    pub body: Body,
    pub ghost qubits: { (1 ≤ n) × (n ≤ 64) },
    pub ghost few: { length items.value ≤ 65536 },
    pub ghost within: { AllWithin n (run_of items.value) } by { AllWithin-prop n (run_of items.value) },
    pub ghost scaled: { IsScaled (run_of items.value) body } by { IsScaled-prop (run_of items.value) body },
    pub ghost right: { ∥ IsRight n (run_of items.value) moves body ∥₁ },
}
