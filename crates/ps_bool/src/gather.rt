ghost use Rattle.std.specs.Prelude.{◌≡◌, ℕ, ◌<◌, Bool, true, false, not, cond, ◌&&◌, ◌||◌, nat_eq, filter, IfOk, OnOk};
ghost use Rattle.ps_mono.specs.Sets.{stands, holds};
ghost use Rattle.ps_mono.specs.Truth.{differ, with_value};
ghost use Rattle.ps_bool.specs.Polys.{bool_value, occurs, AllSets};
ghost use Rattle.ps_bool.specs.Merging.{cancelled};

use ps_mono::Mono;
use std::alloc::{AllocError, Global};

// Drops equal neighbours in pairs, from the front on.
pub fn cancel_pairs(monos: &mut Vec<Mono>)
    ensures items { monos.new.items ≡ cancelled monos.old.items }
    ensures sets { AllSets monos.new.items }
{
    let mut kept = 0;
    let mut i = 0;
    while i < monos.len() {
        let mono = monos[i];
        if i + 1 < monos.len() && mono == monos[i + 1] {
            i += 2;
        } else {
            mono.known();
            monos[kept] = mono;
            kept += 1;
            i += 1;
        }
    }
    monos.truncate(kept);
}

// Puts the products of `mono` with each of `others` behind what `out` has.
fn push_products(out: &mut Vec<Mono>, mono: &Mono, others: &[Mono]) -> Result<(), AllocError>
    ensures value { OnOk result ((a : ℕ → Bool) → bool_value out.new.items a ≡
        differ (bool_value out.old.items a) (holds mono.now a && bool_value others.now a)) }
    ensures variables { OnOk result ((v : ℕ) → stands v mono.now ≡ false → occurs v others.now ≡ false →
        occurs v out.old.items ≡ false → occurs v out.new.items ≡ false) }
{
    for other in others {
        out.push(mono.union(other))?;
    }
    Ok(())
}

// The product of each of `xs` with each of `ys`.
pub fn products(alloc: Global, xs: &[Mono], ys: &[Mono]) -> Result<Vec<Mono>, AllocError>
    ensures value { IfOk result (λ f. (a : ℕ → Bool) →
        bool_value f.items a ≡ (bool_value xs.now a && bool_value ys.now a)) }
    ensures variables { IfOk result (λ f. (v : ℕ) →
        occurs v xs.now ≡ false → occurs v ys.now ≡ false → occurs v f.items ≡ false) }
{
    let mut out = Vec::new(alloc);
    for x in xs {
        push_products(&mut out, x, ys)?;
    }
    Ok(out)
}

// The monomials without variable `v`.
pub fn without_variable(alloc: Global, monos: &[Mono], v: u16) -> Result<Vec<Mono>, AllocError>
    requires { v < 512 }
    ensures { IfOk result (λ f. f.items ≡ filter (λ m. not (stands v m)) monos.now) }
{
    let mut out = Vec::with_capacity(alloc, monos.len())?;
    for mono in monos {
        if !mono.contains(v) {
            out.push(*mono)?;
        }
    }
    Ok(out)
}

// The monomials with variable `v`, each multiplied out with `by` in place of `v`.
pub fn replaced(alloc: Global, monos: &[Mono], v: u16, by: &[Mono]) -> Result<Vec<Mono>, AllocError>
    requires { v < 512 }
    ensures value { IfOk result (λ f. (a : ℕ → Bool) → bool_value f.items a ≡
        bool_value (filter (λ m. stands v m) monos.now) (with_value a v (bool_value by.now a))) }
    ensures variables { IfOk result (λ f. (u : ℕ) → (occurs u monos.now && not (nat_eq u v)) ≡ false →
        occurs u by.now ≡ false → occurs u f.items ≡ false) }
{
    let mut out = Vec::new(alloc);
    for mono in monos {
        if mono.contains(v) {
            push_products(&mut out, &mono.removed(v), by)?;
        }
    }
    Ok(out)
}
