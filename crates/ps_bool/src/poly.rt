ghost use Rattle.std.specs.Prelude.{◌≡◌, ℕ, ◌<◌, ◌↔◌, Bool, true, false, not, cond, ◌&&◌, ◌||◌, [], ◌∷◌, nat_eq, filter, length, slice_get, Some, Ok, IsTrue, IfOk, IsNone, IfSome};
ghost use Rattle.ps_mono.specs.Sets.{stands, IsVarSet};
ghost use Rattle.ps_mono.specs.Truth.{differ, with_value};
ghost use Rattle.ps_bool.specs.Polys.{bool_value, occurs, IsPoly};

use super::flipping::with_one_flipped;
use super::gather::{cancel_pairs, products, replaced, without_variable};
use super::merge::merged;
use ps_mono::{Bits, Mono};
use std::alloc::{AllocError, Global};
use std::marker::Model;

/// A Boolean polynomial: a sum modulo 2 of distinct monomials, in the order of `Mono::compare`.
///
/// Each polynomial has one form only: two that are equal at each assignment have the same monomials.
/// Where a call answers `Err`, memory was wanting, and its arguments are as they were.
#[derive(Drop)]
pub struct BoolPoly {
    monos: Vec<Mono>,
}

impl Model for BoolPoly {
    ghost use Rattle.std.specs.Prelude.{List, ℕ};
    ghost use Rattle.ps_bool.specs.Polys.{IsPoly};

    ghost Value = { List (List ℕ) };

    ghost view = { λ p. p.monos.items };

    ghost invariant = { λ p. IsPoly p.monos.items };
}

impl BoolPoly {
    /// The polynomial that is 0 everywhere: no monomials.
    pub fn zero(alloc: Global) -> BoolPoly
        ensures { result ≡ [] }
    {
        BoolPoly {
            monos: Vec::new(alloc),
        }
    }

    /// The polynomial that is 1 everywhere: the empty monomial.
    pub fn one(alloc: Global) -> Result<BoolPoly, AllocError>
        ensures { IfOk result (λ p. p ≡ [] ∷ []) }
    {
        BoolPoly::of(alloc, &Mono::one())
    }

    /// The polynomial of variable `v` alone, which is below 512.
    pub fn var(alloc: Global, v: u16) -> Result<BoolPoly, AllocError>
        requires { v < 512 }
        ensures { IfOk result (λ p. p ≡ (v ∷ []) ∷ []) }
    {
        BoolPoly::of(alloc, &Mono::var(v))
    }

    /// The polynomial of one monomial.
    pub fn of(alloc: Global, mono: &Mono) -> Result<BoolPoly, AllocError>
        ensures { IfOk result (λ p. p ≡ mono.now ∷ []) }
    {
        mono.known();
        let mut monos = Vec::new(alloc);
        monos.push(*mono)?;
        Ok(BoolPoly { monos })
    }

    /// The sum modulo 2 of monomials in any order, which may repeat. It sorts them once.
    pub fn sum_of(monos: Vec<Mono>) -> BoolPoly
        ensures value { (a : ℕ → Bool) → bool_value result a ≡ bool_value monos.items a }
        ensures variables { (v : ℕ) → occurs v result ≡ true → occurs v monos.items ≡ true }
        ensures form { IsPoly result }
    {
        let mut monos = monos;
        monos.sort_unstable();
        cancel_pairs(&mut monos);
        BoolPoly { monos }
    }

    /// The sum modulo 2, by one merge of the two lists.
    pub fn xor(&self, other: &BoolPoly) -> Result<BoolPoly, AllocError>
        ensures value { IfOk result (λ p. (a : ℕ → Bool) →
            bool_value p a ≡ differ (bool_value self.now a) (bool_value other.now a)) }
        ensures variables { IfOk result (λ p. (v : ℕ) →
            occurs v p ≡ true → (occurs v self.now || occurs v other.now) ≡ true) }
        ensures form { IfOk result (λ p. IsPoly p) }
    {
        let monos = merged(*self.monos.allocator(), &self.monos, &other.monos)?;
        Ok(BoolPoly { monos })
    }

    /// The sum modulo 2 with 1, in the memory of the polynomial: the monomial 1 is taken out where it
    /// stands, and else put in. The polynomial is given away, also where the call answers `Err`.
    pub fn flipped(self) -> Result<BoolPoly, AllocError>
        ensures value { IfOk result (λ p. (a : ℕ → Bool) →
            bool_value p a ≡ differ (bool_value self a) (bool_value ([] ∷ []) a)) }
        ensures variables { IfOk result (λ p. (v : ℕ) →
            occurs v p ≡ true → (occurs v self || occurs v ([] ∷ [])) ≡ true) }
        ensures form { IfOk result (λ p. IsPoly p) }
    {
        let BoolPoly { monos } = self;
        let monos = with_one_flipped(monos)?;
        Ok(BoolPoly { monos })
    }

    /// The product.
    pub fn and(&self, other: &BoolPoly) -> Result<BoolPoly, AllocError>
        ensures value { IfOk result (λ p. (a : ℕ → Bool) →
            bool_value p a ≡ (bool_value self.now a && bool_value other.now a)) }
        ensures variables { IfOk result (λ p. (v : ℕ) →
            occurs v p ≡ true → (occurs v self.now || occurs v other.now) ≡ true) }
        ensures form { IfOk result (λ p. IsPoly p) }
    {
        let products = products(*self.monos.allocator(), &self.monos, &other.monos)?;
        Ok(BoolPoly::sum_of(products))
    }

    /// The polynomial with `by` in place of variable `v`, which is below 512. Where `v` stands in `by`,
    /// it keeps its meaning there. Only the monomials with `v` are multiplied out and sorted; the
    /// others are merged in.
    pub fn subst(&self, v: u16, by: &BoolPoly) -> Result<BoolPoly, AllocError>
        requires { v < 512 }
        ensures value { IfOk result (λ p. (a : ℕ → Bool) →
            bool_value p a ≡ bool_value self.now (with_value a v (bool_value by.now a))) }
        ensures variables { IfOk result (λ p. (u : ℕ) → occurs u p ≡ true →
            ((occurs u self.now && not (nat_eq u v)) || occurs u by.now) ≡ true) }
        ensures form { IfOk result (λ p. IsPoly p) }
    {
        let alloc = *self.monos.allocator();
        let kept = without_variable(alloc, &self.monos, v)?;
        let replaced = BoolPoly::sum_of(replaced(alloc, &self.monos, v, &by.monos)?);
        Ok(BoolPoly {
            monos: merged(alloc, &kept, &replaced.monos)?,
        })
    }

    /// The same polynomial, in memory of its own.
    pub fn copy(&self) -> Result<BoolPoly, AllocError>
        ensures same { IfOk result (λ p. p ≡ self.now) }
        ensures form { IfOk result (λ p. IsPoly p) }
    {
        Ok(BoolPoly {
            monos: self.monos.clone()?,
        })
    }

    /// The polynomial of these monomials, which are in its one form already: in order, and none
    /// twice. Takes no memory.
    pub fn ordered(monos: Vec<Mono>) -> BoolPoly
        requires { IsPoly monos.items }
        ensures { result ≡ monos.items }
    {
        BoolPoly { monos }
    }

    /// The monomials in order, given away. Takes no memory.
    pub fn into_monos(self) -> Vec<Mono>
        ensures value { result.items ≡ self }
        ensures form { IsPoly result.items }
    {
        let BoolPoly { monos } = self;
        monos
    }

    /// How many monomials the polynomial has.
    pub fn count(&self) -> u64
        ensures { result ≡ length self.now }
    {
        self.monos.len() as u64
    }

    /// The monomial at a place in order, counted from 0. The place is below the count.
    pub fn mono(&self, place: u64) -> &Mono
        requires { place < length self.now }
        ensures value { slice_get self.now place ≡ Some result.now }
        ensures form { IsVarSet result.now }
    {
        let mono = &self.monos[place as usize];
        mono.known();
        mono
    }

    /// The monomials in order.
    pub fn monos(&self) -> &[Mono]
        ensures items { result.now ≡ self.now }
        ensures form { IsPoly self.now }
    {
        &self.monos
    }

    /// The least monomial, or `None` for zero. Where its variables are true and no others, the
    /// polynomial is 1.
    pub fn least(&self) -> Option<&Mono>
        ensures none { IsNone result ↔ (self.now ≡ []) }
        ensures first { IfSome result (λ m. slice_get self.now 0 ≡ Some m.now) }
        ensures point { IfSome result (λ m. bool_value self.now (λ v. stands v m.now) ≡ true) }
        ensures form { IfSome result (λ m. IsVarSet m.now) }
    {
        if self.monos.is_empty() {
            return None;
        }
        let mono = &self.monos[0];
        mono.known();
        Some(mono)
    }

    /// Whether variable `v`, which is below 512, stands in a monomial.
    pub fn contains(&self, v: u16) -> bool
        requires { v < 512 }
        ensures { result ≡ occurs v self.now }
    {
        for mono in &self.monos {
            if mono.contains(v) {
                return true;
            }
        }
        false
    }

    /// Whether variable `v`, which is below 512, stands in one monomial alone and that monomial is
    /// `v` alone.
    pub fn linear_in(&self, v: u16) -> bool
        requires { v < 512 }
        ensures { IsTrue result ↔ (filter (λ m. stands v m) self.now ≡ (v ∷ []) ∷ []) }
    {
        let mut found = false;
        for mono in &self.monos {
            if mono.contains(v) {
                if found || mono.degree() != 1 {
                    return false;
                }
                found = true;
            }
        }
        found
    }

    /// The value at an assignment.
    pub fn eval(&self, at: &Bits) -> bool
        ensures { result ≡ bool_value self.now (λ v. stands v at.now) }
    {
        let mut odd = false;
        for mono in &self.monos {
            if mono.holds(at) {
                odd = !odd;
            }
        }
        odd
    }

    /// Whether both polynomials have the same monomials, which is so exactly where they have the same
    /// value at each assignment.
    pub fn same(&self, other: &BoolPoly) -> bool
        ensures list { IsTrue result ↔ (self.now ≡ other.now) }
        ensures values { IsTrue result ↔ ((a : ℕ → Bool) → bool_value self.now a ≡ bool_value other.now a) }
    {
        self.monos == other.monos
    }
}
