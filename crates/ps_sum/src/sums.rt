ghost use Rattle.std.specs.Prelude.{◌≡◌, ℕ, ◌+◌, ◌<◌, ◌≤◌, false, length, pos, negsuc, ◌≤ℤ◌};
ghost use Rattle.ps_phase.specs.Phases.{phase_occurs};
ghost use Rattle.ps_sum.specs.Forms.{IsFormed, IsFormed-prop};
ghost use Rattle.ps_sum.specs.Outs.{outs_occur};

use super::outputs::Outputs;
use ps_phase::PhasePoly;

/// A sum over paths on `n` qubits: for each assignment of `m` path variables a turn of the phase and
/// the outputs, over the k-th power of the root of 2.
///
/// Variables 0 to n-1 are the inputs, and n to n+m-1 the path variables. There are n outputs, or
/// none in a closed sum. n is 1 to 64, n + m at most 512, and k from -2·10^9 to 2·10^9. Phase and
/// outputs are in their one form, so two sums with the same numbers and values are the same.
#[derive(Drop)]
pub struct PathSum {
    pub n: u32,
    pub m: u32,
    pub k: i32,
    pub phase: PhasePoly,
    pub outs: Outputs,
    pub ghost qubits: { (1 ≤ n) × (n ≤ 64) },
    pub ghost named: { n + m ≤ 512 },
    pub ghost scaled: { (negsuc 1999999999 ≤ℤ k) × (k ≤ℤ pos 2000000000) },
    pub ghost phase_below: { (v : ℕ) → n + m ≤ v → phase_occurs v phase ≡ false },
    pub ghost outs_below: { (v : ℕ) → n + m ≤ v → outs_occur v outs ≡ false },
    pub ghost width: { 0 < length outs → length outs ≡ n },
    pub ghost formed: { IsFormed phase outs } by { IsFormed-prop phase outs },
}
