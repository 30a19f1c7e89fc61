ghost use Rattle.std.specs.Prelude.{◌≡◌, ℕ, ◌≤◌, ◌↔◌, IsTrue, IsSome, IfSome, false, nat_lt};
ghost use Rattle.ps_mono.specs.Sets.{stands};
ghost use Rattle.ps_bool.specs.Polys.{occurs, IsPoly};
ghost use Rattle.ps_phase.specs.Phases.{phase_occurs, IsPhasePoly};
ghost use Rattle.ps_sum.specs.Bounds.{FitsSum};
ghost use Rattle.ps_sum.specs.Forms.{AllPolys};
ghost use Rattle.ps_sum.specs.Outs.{outs_occur};

use super::outputs::Outputs;
use super::sums::PathSum;
use ps_bool::BoolPoly;
use ps_mono::Bits;
use ps_phase::PhasePoly;

/// The assignment at which just the first `count` variables are true. Condition: `count` is at most
/// 512.
pub fn first_variables(count: u32) -> Bits
    requires { count ≤ 512 }
    ensures { (v : ℕ) → stands v result ≡ nat_lt v count }
{
    let mut bits = Bits::zero();
    for v in 0..count as u16 {
        bits.set(v, true);
    }
    bits
}

// Each variable of the polynomial is one of these.
fn phase_within(poly: &PhasePoly, names: &Bits) -> bool
    ensures form { IsPhasePoly poly.now }
    ensures exactly { IsTrue result ↔ ((v : ℕ) → stands v names.now ≡ false → phase_occurs v poly.now ≡ false) }
{
    for term in poly.terms() {
        if !term.mono.holds(names) {
            return false;
        }
    }
    true
}

// The same of a Boolean polynomial.
fn bool_within(poly: &BoolPoly, names: &Bits) -> bool
    ensures form { IsPoly poly.now }
    ensures exactly { IsTrue result ↔ ((v : ℕ) → stands v names.now ≡ false → occurs v poly.now ≡ false) }
{
    for mono in poly.monos() {
        if !mono.holds(names) {
            return false;
        }
    }
    true
}

// The same of each output.
fn outs_within(outs: &Outputs, names: &Bits) -> bool
    ensures form { IsTrue result → AllPolys outs.now }
    ensures exactly { IsTrue result ↔ ((v : ℕ) → stands v names.now ≡ false → outs_occur v outs.now ≡ false) }
{
    for poly in outs.polys() {
        if !bool_within(poly, names) {
            return false;
        }
    }
    true
}

impl PathSum {
    /// The sum with these parts, or none where they make no path sum: `n` is 1 to 64, `n + m` at most
    /// 512, `k` from -2·10^9 to 2·10^9, each variable below `n + m`, and there are `n` outputs or none.
    pub fn of(n: u32, m: u32, k: i32, phase: PhasePoly, outs: Outputs) -> Option<PathSum>
        ensures some { IfSome result (λ s. (s.n ≡ n) × (s.m ≡ m) × (s.k ≡ k) × (s.phase ≡ phase) × (s.outs ≡ outs)) }
        ensures exactly { IsSome result ↔ FitsSum n m k phase outs }
    {
        if n == 0 || n > 64 || m > 512 - n {
            return None;
        }
        if k < -2_000_000_000 || k > 2_000_000_000 {
            return None;
        }
        let count = outs.polys().len();
        if count != 0 && count != n as usize {
            return None;
        }
        let names = first_variables(n + m);
        if !phase_within(&phase, &names) || !outs_within(&outs, &names) {
            return None;
        }
        Some(PathSum {
            n,
            m,
            k,
            phase,
            outs,
        })
    }
}
