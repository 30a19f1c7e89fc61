//! Sums that are ready to be put behind others.

ghost use Rattle.std.specs.Prelude.{◌≡◌, ◌≢◌, ℕ, ◌<◌, ◌≤◌, [], ◌∷◌, length, false, Some, IfSome, IsTrue};
ghost use Rattle.ps_mono.specs.Sets.{stands};
ghost use Rattle.ps_join.specs.Changing.{OthersStay, IsChange, IsChange-prop, IsKind, OnlyInput, NoOther};

use super::changes::Change;
use super::naming::phase_support;
use super::replacing::is_input;
use ps_bool::BoolPoly;
use ps_mono::Mono;
use ps_phase::PhasePoly;
use ps_sum::PathSum;
use std::sync::Arc;

/// A sum with what it does to the outputs of a sum before it, as far as that is simple. The sum of a
/// primitive gate changes at most one output, and has at most one input in its phase.
#[derive(Drop)]
pub struct Gate {
    /// The sum.
    pub sum: Arc<PathSum>,
    pub(crate) input: Option<u16>,
    pub(crate) change: Change,
    pub ghost lone: { (q : ℕ) → input ≡ Some q → (q < sum.value.n) × OnlyInput sum.value.n q sum.value.phase },
    pub ghost changes: { IsChange sum.value.n sum.value.outs change } by { IsChange-prop sum.value.n sum.value.outs change },
}

impl Gate {
    /// This sum. What it changes is looked up once.
    pub fn of(sum: Arc<PathSum>) -> Gate
        ensures { result.sum ≡ sum }
    {
        let input = lone_input(&sum.phase, sum.n as u16);
        let change = change_of(sum.outs.polys(), sum.n as u16);
        Gate { sum, input, change }
    }

    /// Which of its outputs it changes.
    pub fn change(&self) -> Change
        ensures changes { IsChange self.now.sum.value.n self.now.sum.value.outs result }
    {
        self.change
    }
}

// Whether the input is `q`, or stands not among the variables.
fn is_idle(support: &Mono, q: u16, input: u16) -> bool
    requires { input < 512 }
    ensures { IsTrue result → input ≢ q → stands input support.now ≡ false }
{
    input == q || !support.contains(input)
}

// Whether of the inputs only `q` may stand among the variables.
fn is_only(support: &Mono, q: u16, n: u16) -> bool
    requires { n ≤ 64 }
    ensures { IsTrue result → NoOther q n support.now }
{
    for input in 0..n {
        if !is_idle(support, q, input) {
            return false;
        }
    }
    true
}

// The input that stands in the phase, or any where none does; `None` where there are two.
fn lone_input(phase: &PhasePoly, n: u16) -> Option<u16>
    requires { (1 ≤ n) × (n ≤ 64) }
    ensures { IfSome result (λ q. (q < n) × OnlyInput n q phase.now) }
{
    let support = phase_support(phase);
    let mut q = 0;
    if support.degree() > 0 && support.var_at(0) < n {
        q = support.var_at(0);
    }
    if is_only(&support, q, n) {
        Some(q)
    } else {
        None
    }
}

// The first output that is not its input, or how many there are.
fn first_changed(outs: &[BoolPoly]) -> u16
    requires { length outs.now ≤ 64 }
    ensures { result ≤ length outs.now }
{
    for i in 0..outs.len() as u16 {
        if !is_input(&outs[i as usize], i) {
            return i;
        }
    }
    outs.len() as u16
}

// Whether the output is number `q`, or its input.
fn stays(poly: &BoolPoly, i: u16, q: u16) -> bool
    requires { i < 512 }
    ensures { IsTrue result → i ≢ q → poly.now ≡ (i ∷ []) ∷ [] }
{
    i == q || is_input(poly, i)
}

// Whether each output but `q` is its input.
fn others_stay(outs: &[BoolPoly], q: u16) -> bool
    requires { length outs.now ≤ 64 }
    ensures { IsTrue result → OthersStay q outs.now }
{
    for i in 0..outs.len() as u16 {
        if !stays(&outs[i as usize], i, q) {
            return false;
        }
    }
    true
}

// What becomes of output `q`, which is one monomial.
fn path_kind(poly: &BoolPoly, q: u16, n: u16) -> Change
    requires { length poly.now ≡ 1 }
    ensures { IsKind n q poly.now result }
{
    let mono = poly.mono(0);
    if mono.degree() != 1 {
        return Change::More;
    }
    let y = mono.var_at(0);
    if n <= y {
        Change::Path { q, y }
    } else {
        Change::More
    }
}

// What becomes of output `q`, which is two monomials.
fn flip_kind(poly: &BoolPoly, q: u16) -> Change
    requires { length poly.now ≡ 2 }
    ensures { (n : ℕ) → IsKind n q poly.now result }
{
    if poly.mono(0).degree() != 0 {
        return Change::More;
    }
    let last = poly.mono(1);
    if last.degree() != 1 {
        return Change::More;
    }
    if last.var_at(0) == q {
        Change::Flip { q }
    } else {
        Change::More
    }
}

// What becomes of output `q`.
fn kind_of(poly: &BoolPoly, q: u16, n: u16) -> Change
    ensures { IsKind n q poly.now result }
{
    match poly.count() {
        1 => path_kind(poly, q, n),
        2 => flip_kind(poly, q),
        _ => Change::More,
    }
}

// Which outputs change.
fn change_of(outs: &[BoolPoly], n: u16) -> Change
    requires { length outs.now ≤ 64 }
    ensures { IsChange n outs.now result }
{
    let q = first_changed(outs);
    if !others_stay(outs, q) {
        return Change::More;
    }
    if q as usize >= outs.len() {
        return Change::Stay;
    }
    kind_of(&outs[q as usize], q, n)
}
