//! Sums with terms that are still to be added to their phase.

ghost use Rattle.std.specs.Prelude.{◌≡◌, ℕ, ◌<◌, ◌≤◌, ◌+◌, ◌*◌, List, [], length, get_or, IfOk, IfErr, OnOk, IsTrue, true, Some, ◌++◌, pos, negsuc, ◌+ℤ◌, ◌≤ℤ◌};
ghost use Rattle.ps_mono.specs.Sets.{stands};
ghost use Rattle.ps_prim.specs.Amplitudes.{exchanged};
ghost use Rattle.ps_prim.specs.declared.prims.Primitive.{Primitive as Prim};
ghost use Rattle.ps_prim.specs.Sums.{Denotes};
ghost use Rattle.ps_bool.specs.Polys.{occurs};
ghost use Rattle.ps_phase.specs.Phases.{IsPhasePoly};
ghost use Rattle.ps_sum.specs.Forms.{IsPhasePoly-prop};
ghost use Rattle.ps_sum.specs.Sums.{path_values};
ghost use Rattle.ps_join.specs.Plainly.{IsBehind, IsAdded, IsNear};
ghost use Rattle.ps_join.specs.Joining.{IsJoinOf, JoinFits};
ghost use Rattle.ps_join.specs.OntoFaults.{IsOntoFault};
ghost use Rattle.ps_join.specs.Changing.{AllShort, NoLonger};
ghost use Rattle.ps_join.specs.Totals.{IsNamed};
ghost use Rattle.ps_join.specs.Widening.{CanWiden, IsWidened};

use super::gating::all_short;
use super::joins::join_onto;
use super::limits::{MOST_VARIABLES, SHORT};
use super::naming::bool_support;
use super::onto_fault::OntoFault;
use super::plains::with_exchange;
use super::putting::{Output, longest, longest_with, placed};
use ps_bool::BoolPoly;
use ps_mono::Mono;
use ps_phase::PhasePoly;
use ps_sum::{Outputs, PathSum};
use std::alloc::{AllocError, Global};
use std::marker::Model;

// So many terms may wait beside a sum without any.
const FEW: u64 = 16;

// So many more may wait beside a sum of many terms, so that what a gate adds is never far from its place.
const MANY: u64 = 1_024;

/// A path sum, and terms that are still to be added to its phase, so that those of several gates are
/// taken in together. Clauses see the sum with them. How many monomials the longest
/// output has at most is kept beside it.
#[derive(Drop)]
pub struct Running {
    sum: PathSum,
    more: PhasePoly,
    longest: u64,
    ghost form: { IsPhasePoly more } by { IsPhasePoly-prop more },
    ghost named: { IsNamed sum more },
    ghost few: { NoLonger longest sum.outs },
}

impl Model for Running {
    ghost use Rattle.ps_sum.specs.declared.sums.PathSum.{PathSum};
    ghost use Rattle.ps_sum.specs.contracts.sums.PathSum as e;
    ghost use Rattle.std.specs.Coded.{codes};
    ghost use Rattle.ps_join.specs.Totals.{with_more};

    ghost Value = { PathSum };

    ghost coded = { Prim.hlevel (codes, e.the_row.coded) };

    ghost view = { λ r. with_more r.sum r.more r.form r.named };
}

impl Running {
    /// The sum, to which nothing is to be added.
    pub fn of(alloc: Global, sum: PathSum) -> Running
        ensures { result ≡ sum }
    {
        let longest = longest(sum.outs.polys());
        Running {
            sum,
            more: PhasePoly::zero(alloc),
            longest,
        }
    }

    /// The sum with all terms. `AllocError` is want of memory.
    pub fn settled(self) -> Result<PathSum, AllocError>
        ensures { IfOk result (λ s. s ≡ self) }
    {
        let Running { sum, more, .. } = self;
        if more.count() == 0 {
            return Ok(sum);
        }
        let PathSum {
            n,
            m,
            k,
            phase,
            outs,
        } = sum;
        let mut phase = phase;
        phase.add_to(&more)?;
        Ok(PathSum {
            n,
            m,
            k,
            phase,
            outs,
        })
    }

    /// How many qubits.
    pub fn qubits(&self) -> u32
        ensures { result ≡ self.now.n }
    {
        self.sum.n
    }

    /// The output of a qubit.
    pub(crate) fn output(&self, q: u32) -> &BoolPoly
        requires { q < length self.now.outs }
        ensures { result.now ≡ get_or self.now.outs q [] }
    {
        &self.sum.outs.polys()[q as usize]
    }

    /// The outputs.
    pub fn outputs(&self) -> &[BoolPoly]
        ensures { result.now ≡ self.now.outs }
    {
        self.sum.outs.polys()
    }

    /// The variables that stand in the output of a qubit.
    pub fn variables(&self, q: u32) -> Mono
        requires { q < length self.now.outs }
        ensures { (v : ℕ) → stands v result ≡ occurs v (get_or self.now.outs q []) }
    {
        bool_support(self.output(q))
    }

    // The sum without the terms that wait.
    pub(crate) fn bare(&self) -> &PathSum
        ensures qubits { result.now.n ≡ self.now.n }
        ensures paths { result.now.m ≡ self.now.m }
        ensures scale { result.now.k ≡ self.now.k }
        ensures outs { result.now.outs ≡ self.now.outs }
    {
        &self.sum
    }

    // Whether each output is short.
    pub(crate) fn is_short(&self) -> bool
        ensures { IsTrue result → AllShort self.now.outs }
    {
        self.longest < SHORT || all_short(self.sum.outs.polys())
    }

    // Whether no limit is passed where a controlled not comes behind the sum.
    pub(crate) fn is_near(&self) -> bool
        ensures { IsTrue result → IsNear self.now }
    {
        2 * self.sum.n + self.sum.m <= MOST_VARIABLES && self.is_short()
    }

    // The sum with more terms in its phase.
    #[inline]
    pub(crate) fn added(self, alloc: Global, terms: &PhasePoly) -> Result<Running, AllocError>
        requires { IsNamed self terms.now }
        ensures { IfOk result (λ s. IsAdded self terms.now s) }
    {
        if terms.count() == 0 {
            return Ok(self);
        }
        let Running { sum, more, longest } = self;
        let mut more = more;
        more.add_to(terms)?;
        let next = Running { sum, more, longest };
        next.relieved(alloc)
    }

    // The same sum, in whose phase the terms that wait are taken where there are many.
    fn relieved(self, alloc: Global) -> Result<Running, AllocError>
        ensures { IfOk result (λ s. s ≡ self) }
    {
        if self.more.count() <= FEW + (self.sum.phase.count() / 4).min(MANY) {
            return Ok(self);
        }
        Ok(Running::of(alloc, self.settled()?))
    }

    // The sum with output `c` added to output `t`.
    pub(crate) fn exchanged(self, c: u32, t: u32) -> Result<Running, AllocError>
        requires control { c < length self.outs }
        requires target { t < length self.outs }
        ensures { IfOk result (λ s. IsBehind self (exchanged c t) (λ x. 0) s) }
    {
        let Running { sum, more, longest } = self;
        let sum = with_exchange(sum, c, t)?;
        let longest = longest_with(longest, sum.outs.polys(), Some(t));
        Ok(Running { sum, more, longest })
    }

    // The sum with the path variables and the scale of the second beside its own, and with the output that
    // changes behind it in its place.
    pub(crate) fn widened(
        self,
        alloc: Global,
        second: &PathSum,
        output: Output,
    ) -> Result<Running, AllocError>
        requires { CanWiden self second.now output }
        ensures { IfOk result (λ s. IsWidened self second.now output s) }
    {
        let Running { sum, more, longest } = self;
        let place = output.place();
        let sum = widened(alloc, sum, second, output)?;
        let longest = longest_with(longest, sum.outs.polys(), place);
        Ok(Running { sum, more, longest })
    }
}

// The same of a sum alone.
fn widened(
    alloc: Global,
    first: PathSum,
    second: &PathSum,
    output: Output,
) -> Result<PathSum, AllocError>
    requires { CanWiden first second.now output }
    ensures { IfOk result (λ s. IsWidened first second.now output s) }
{
    let PathSum {
        n,
        m,
        k,
        phase,
        outs,
    } = first;
    let outs = placed(alloc, outs.into_polys(), output)?;
    Ok(PathSum {
        n,
        m: m + second.m,
        k: k + second.k,
        phase,
        outs: Outputs::of(outs),
    })
}

/// `join_onto` for a sum with terms that wait, which are taken in first.
pub(crate) fn join_settled(
    alloc: Global,
    first: Running,
    second: &PathSum,
) -> Result<Running, OntoFault>
    requires qubits { first.n ≡ second.now.n }
    requires first_open { 0 < length first.outs }
    requires second_open { 0 < length second.now.outs }
    requires scaled { (negsuc 1999999999 ≤ℤ (first.k +ℤ second.now.k)) × ((first.k +ℤ second.now.k) ≤ℤ pos 2000000000) }
    ensures sum { IfOk result (λ s. IsJoinOf first second.now s) }
    ensures fits { OnOk result (JoinFits first second.now) }
    ensures denotes { IfOk result (λ s. (A1 A2 : List Prim) → Denotes first.n (path_values first) A1 → Denotes first.n (path_values second.now) A2 → Denotes first.n (path_values s) (A1 ++ A2)) }
    ensures wide { IfOk result (λ s. length s.outs ≡ first.n) }
    ensures passed { IfErr result (λ e. IsOntoFault first second.now e) }
{
    let Ok(first) = first.settled() else {
        return Err(OntoFault::Memory);
    };
    match join_onto(alloc, first, second) {
        Ok(sum) => Ok(Running::of(alloc, sum)),
        Err(fault) => Err(fault),
    }
}
