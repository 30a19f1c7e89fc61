ghost use Rattle.std.specs.Prelude.{◌≡◌, ℕ, ◌+◌, ◌<◌, ◌≤◌, min, length};
ghost use Rattle.ps_sum.specs.Counts.{raw_term, raw_phase, raw_bool};

use ps_bool::BoolPoly;
use ps_phase::PhasePoly;
use ps_ring::Phase;

// Counts are told as this number where they are above it.
const CAP: u64 = 1_000_000_000_000;

// From here on two of so many things can be chosen in more than `CAP` ways.
const MANY: u64 = 2_000_000;

/// How many terms come of one term with phase `by` where a variable of it is replaced by a
/// polynomial of `t` monomials: one for each product of 1 or more of them, as far as its phase is
/// no whole number of turns. Told as 10^12 where it is above that.
pub fn raw_term(by: Phase, t: u64) -> u64
    ensures { result ≡ min (raw_term by t) 1000000000000 }
{
    let most = (32 - by.power() as u64).min(t);
    if most == 0 {
        return 0;
    }
    if most == 1 {
        return t.min(CAP);
    }
    if t > MANY {
        return CAP;
    }
    let mut total = 0;
    let mut ways = 1;
    for s in 0..most {
        ways = ways * (t - s) / (s + 1);
        total += ways;
        if total >= CAP {
            return CAP;
        }
    }
    total
}

/// How many terms `poly` has where `v` is replaced by `by`, before any are added: the terms without
/// `v`, and for each with `v` what comes of it. Told as 10^12 where it is above that.
pub fn raw_phase(poly: &PhasePoly, v: u16, by: &BoolPoly) -> u64
    requires { v < 512 }
    ensures { result ≡ min (raw_phase v (length by.now) poly.now) 1000000000000 }
{
    let t = by.count();
    let mut total = 0;
    for term in poly.terms() {
        let more = if term.mono.contains(v) {
            raw_term(term.phase, t)
        } else {
            1
        };
        total = (total + more).min(CAP);
    }
    total
}

/// How many monomials `poly` has where `v` is replaced by `by`, before any cancel: the monomials
/// without `v`, and for each with `v` as many as `by` has. Told as 10^12 where it is above that.
pub fn raw_bool(poly: &BoolPoly, v: u16, by: &BoolPoly) -> u64
    requires { v < 512 }
    ensures { result ≡ min (raw_bool v (length by.now) poly.now) 1000000000000 }
{
    let t = by.count().min(CAP);
    let mut total = 0;
    for mono in poly.monos() {
        let more = if mono.contains(v) { t } else { 1 };
        total = (total + more).min(CAP);
    }
    total
}
