ghost use Rattle.std.specs.Prelude.{◌≡◌, ℕ, ◌<◌, ◌≤◌, ◌+◌, ◌*◌, ◌++◌, ◌∷◌, [], List, length, false, IfOk, IfErr, IfSome, OnOk, pos, negsuc, ◌+ℤ◌, ◌≤ℤ◌, IsTrue};
ghost use Rattle.ps_prim.specs.declared.prims.Primitive.{Primitive as Prim};
ghost use Rattle.ps_prim.specs.declared.prims.Primitive.TheVariants.{U, Cx};
ghost use Rattle.ps_prim.specs.Amplitudes.{exchanged};
ghost use Rattle.ps_prim.specs.Maps.{IsWithin};
ghost use Rattle.ps_prim.specs.Sums.{Denotes};
ghost use Rattle.ps_phase.specs.Phases.{phase_occurs};
ghost use Rattle.ps_sum.specs.declared.sums.PathSum.{PathSum};
ghost use Rattle.ps_sum.specs.Sums.{path_values};
ghost use Rattle.ps_join.specs.Joining.{IsLeafOf, IsJoinOf, JoinFits};
ghost use Rattle.ps_join.specs.OntoFaults.{IsOntoFault};
ghost use Rattle.ps_join.specs.Placing.{OthersSame};
ghost use Rattle.ps_join.specs.Plainly.{IsBehind, IsAdded, IsLift, IsNear};

use super::joins::join_onto;
use super::leaves::leaf;
use super::limits::MOST_TERMS;
use super::onto_fault::OntoFault;
use super::running::Running;
use ps_bool::BoolPoly;
use ps_phase::PhasePoly;
use ps_prim::Prim;
use ps_ring::{Angle, Phase};
use ps_sum::{Outputs, PathSum, lift, raw_term};
use std::alloc::{AllocError, Global};

// The phase `turn` where the polynomial is 1; `None` where it may be that a limit is passed.
fn lifted(alloc: Global, poly: &BoolPoly, turn: Phase) -> Result<Option<PhasePoly>, AllocError>
    ensures { IfOk result (λ r. IfSome r (λ p. IsLift poly.now turn p)) }
{
    if raw_term(turn, poly.count()) > MOST_TERMS {
        return Ok(None);
    }
    let phase = lift(alloc, poly, turn)?;
    if phase.count() > MOST_TERMS {
        return Ok(None);
    }
    Ok(Some(phase))
}

// The sum with output `c` added to output `t`.
pub(crate) fn with_exchange(first: PathSum, c: u32, t: u32) -> Result<PathSum, AllocError>
    requires control { c < length first.outs }
    requires target { t < length first.outs }
    ensures behind { IfOk result (λ s. IsBehind first (exchanged c t) (λ x. 0) s) }
    ensures others { IfOk result (λ s. OthersSame t first.outs s.outs) }
{
    let PathSum {
        n,
        m,
        k,
        phase,
        outs,
    } = first;
    let mut outs = outs.into_polys();
    let sum = outs[t as usize].xor(&outs[c as usize])?;
    outs[t as usize] = sum;
    Ok(PathSum {
        n,
        m,
        k,
        phase,
        outs: Outputs::of(outs),
    })
}

// By way of the prim's sum.
fn join_leaf(alloc: Global, first: Running, prim: &Prim) -> Result<Running, OntoFault>
    requires width { (1 ≤ first.n) × (first.n ≤ 64) }
    requires within { IsWithin first.n prim.now }
    requires wide { length first.outs ≡ first.n }
    requires scaled { (negsuc 1999999999 ≤ℤ first.k) × (first.k ≤ℤ pos 1999999998) }
    ensures sum { IfOk result (λ s. (S : PathSum) → IsLeafOf first.n prim.now S → IsJoinOf first S s) }
    ensures fits { OnOk result ((S : PathSum) → IsLeafOf first.n prim.now S → JoinFits first S) }
    ensures denotes { IfOk result (λ s. (A : List Prim) → Denotes first.n (path_values first) A → Denotes first.n (path_values s) (A ++ prim.now ∷ [])) }
    ensures wide { IfOk result (λ s. length s.outs ≡ first.n) }
    ensures passed { IfErr result (λ e. (S : PathSum) → IsLeafOf first.n prim.now S → IsOntoFault first S e) }
{
    let Ok(first) = first.settled() else {
        return Err(OntoFault::Memory);
    };
    let Ok(second) = leaf(alloc, prim, first.n) else {
        return Err(OntoFault::Memory);
    };
    match join_onto(alloc, first, &second) {
        Ok(sum) => Ok(Running::of(alloc, sum)),
        Err(fault) => Err(fault),
    }
}

// A controlled not from qubit `c` to qubit `t`.
fn join_exchange(first: Running, c: u32, t: u32) -> Result<Running, OntoFault>
    requires width { (1 ≤ first.n) × (first.n ≤ 64) }
    requires within { IsWithin first.n (Cx c t) }
    requires wide { length first.outs ≡ first.n }
    requires near { IsNear first }
    ensures sum { IfOk result (λ s. (S : PathSum) → IsLeafOf first.n (Cx c t) S → IsJoinOf first S s) }
    ensures fits { OnOk result ((S : PathSum) → IsLeafOf first.n (Cx c t) S → JoinFits first S) }
    ensures denotes { IfOk result (λ s. (A : List Prim) → Denotes first.n (path_values first) A → Denotes first.n (path_values s) (A ++ Cx c t ∷ [])) }
    ensures wide { IfOk result (λ s. length s.outs ≡ first.n) }
    ensures passed { IfErr result (λ e. (S : PathSum) → IsLeafOf first.n (Cx c t) S → IsOntoFault first S e) }
{
    match first.exchanged(c, t) {
        Ok(sum) => Ok(sum),
        Err(_) => Err(OntoFault::Memory),
    }
}

// A turn of qubit `q`, which the prim is.
fn join_turn(
    alloc: Global,
    first: Running,
    prim: &Prim,
    phi: Angle,
    lambda: Angle,
    q: u32,
) -> Result<Running, OntoFault>
    requires width { (1 ≤ first.n) × (first.n ≤ 64) }
    requires turn { prim.now ≡ U 0 phi lambda q }
    requires within { q < first.n }
    requires wide { length first.outs ≡ first.n }
    requires scaled { (negsuc 1999999999 ≤ℤ first.k) × (first.k ≤ℤ pos 1999999998) }
    requires near { IsNear first }
    ensures sum { IfOk result (λ s. (S : PathSum) → IsLeafOf first.n prim.now S → IsJoinOf first S s) }
    ensures fits { OnOk result ((S : PathSum) → IsLeafOf first.n prim.now S → JoinFits first S) }
    ensures denotes { IfOk result (λ s. (A : List Prim) → Denotes first.n (path_values first) A → Denotes first.n (path_values s) (A ++ prim.now ∷ [])) }
    ensures wide { IfOk result (λ s. length s.outs ≡ first.n) }
    ensures passed { IfErr result (λ e. (S : PathSum) → IsLeafOf first.n prim.now S → IsOntoFault first S e) }
{
    let turn = phi.whole().add(lambda.whole());
    match lifted(alloc, first.output(q), turn) {
        Ok(Some(more)) => match first.added(alloc, &more) {
            Ok(sum) => Ok(sum),
            Err(_) => Err(OntoFault::Memory),
        },
        Ok(None) => join_leaf(alloc, first, prim),
        Err(_) => Err(OntoFault::Memory),
    }
}

/// `join_onto` for the sum of one gate, which itself is made only where a limit may be passed, or
/// where it has path variables: a `U` at theta 0 adds to the phase, and a `Cx` changes one output.
pub fn join_prim(alloc: Global, first: Running, prim: &Prim) -> Result<Running, OntoFault>
    requires width { (1 ≤ first.n) × (first.n ≤ 64) }
    requires within { IsWithin first.n prim.now }
    requires wide { length first.outs ≡ first.n }
    requires scaled { (negsuc 1999999999 ≤ℤ first.k) × (first.k ≤ℤ pos 1999999998) }
    ensures sum { IfOk result (λ s. (S : PathSum) → IsLeafOf first.n prim.now S → IsJoinOf first S s) }
    ensures fits { OnOk result ((S : PathSum) → IsLeafOf first.n prim.now S → JoinFits first S) }
    ensures denotes { IfOk result (λ s. (A : List Prim) → Denotes first.n (path_values first) A → Denotes first.n (path_values s) (A ++ prim.now ∷ [])) }
    ensures wide { IfOk result (λ s. length s.outs ≡ first.n) }
    ensures passed { IfErr result (λ e. (S : PathSum) → IsLeafOf first.n prim.now S → IsOntoFault first S e) }
{
    if !first.is_near() {
        return join_leaf(alloc, first, prim);
    }
    match *prim {
        Prim::Cx { c, t } => join_exchange(first, c, t),
        Prim::U {
            theta,
            phi,
            lambda,
            q,
        } => {
            if theta.units() == 0 {
                join_turn(alloc, first, prim, phi, lambda, q)
            } else {
                join_leaf(alloc, first, prim)
            }
        }
    }
}
