//! The variables that no step takes away, all at once.

ghost use Rattle.std.specs.Prelude.{◌≡◌, ℕ, ◌≤◌, true, false, ◌||◌, IsTrue};
ghost use Rattle.ps_mono.specs.Sets.{stands};
ghost use Rattle.ps_bool.specs.Polys.{occurs};
ghost use Rattle.ps_sum.specs.Outs.{outs_occur};
ghost use Rattle.ps_rules.specs.Sights.{IsFine, IsSpoilt};

use super::sights::{HALF, is_quarter};
use ps_bool::BoolPoly;
use ps_mono::Bits;
use ps_phase::Term;
use ps_sum::PathSum;

// Variables that stand in an output, or in a term that no step at them allows. No term is read once
// each path variable is among them.
pub fn spoilt(sum: &PathSum) -> Bits
    ensures spoilt { (v : ℕ) → stands v result ≡ true → IsSpoilt v sum.now.outs sum.now.phase }
    ensures silent { (v : ℕ) → stands v result ≡ false → outs_occur v sum.now.outs ≡ false }
{
    let mut out = spoken_in(sum.outs.polys());
    let mut y = unspoilt_from(&out, sum, 0);
    for term in sum.phase.terms() {
        if y as u32 == sum.m {
            return out;
        }
        if spoils(term) {
            out.add(&term.mono);
            y = unspoilt_from(&out, sum, y);
        }
    }
    out
}

// The first path variable from `y` on that is not among these, or how many path variables there are.
fn unspoilt_from(spoilt: &Bits, sum: &PathSum, y: u16) -> u16
    ensures { result ≤ sum.now.m }
{
    for u in y..sum.m as u16 {
        if !spoilt.get(sum.n as u16 + u) {
            return u;
        }
    }
    sum.m as u16
}

// Whether no step takes a variable of the term away.
fn spoils(term: &Term) -> bool
    ensures { IsTrue result → (v : ℕ) → IsFine v term.now → ⊥ }
{
    let units = term.phase.units();
    units != HALF && !(is_quarter(units) && term.mono.degree() == 1)
}

// The variables that stand in these outputs.
fn spoken_in(outs: &[BoolPoly]) -> Bits
    ensures { (v : ℕ) → stands v result ≡ outs_occur v outs.now }
{
    let mut out = Bits::zero();
    for poly in outs {
        add_poly(&mut out, poly);
    }
    out
}

// The variables of the polynomial beside those that are there.
fn add_poly(out: &mut Bits, poly: &BoolPoly)
    ensures { (v : ℕ) → stands v out.new ≡ (stands v out.old || occurs v poly.now) }
{
    for mono in poly.monos() {
        out.add(mono);
    }
}
