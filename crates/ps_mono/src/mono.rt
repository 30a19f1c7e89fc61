ghost use Rattle.std.specs.Prelude.{◌≡◌, ℕ, ◌<◌, ◌≤◌, List, [], ◌∷◌, ◌&&◌, ◌||◌, not, nat_eq, length, get_or, Ok, IsOkAnd, IsNone, IfSome, IsTrue, false, ◌↔◌};
ghost use Rattle.std.specs.Cmp.{partial_equiv_from_equiv};
ghost use Rattle.std.specs.Cmp.Lexicographic.{pointwise, slice_cmp};
ghost use Rattle.std.specs.Ordering.{nat_cmp, as_partial_cmp};
ghost use Rattle.std.proofs.Common.{refl};
ghost use Rattle.ps_mono.specs.Orders.{mono_total, mono_ties, mono_partial_order};
ghost use Rattle.std.proofs.lemmas.Cmp.{nat_list_eq_equiv};
ghost use Rattle.ps_mono.specs.Sets.{stands, IsVarSet, mono_cmp, holds};
ghost use Rattle.ps_mono.specs.Keys.{order_key, low_key, IsLow};

use super::bits::Bits;
use super::keys::{mirrored, with_word};
use super::select::nth_one;
use super::words::{count_vars, joined_words};
use std::alloc::{AllocError, Global};
use std::cmp::Ordering;
use std::marker::Model;

// How many variables fit into a number of 64 bits, at nine each, beside how many there are.
const MOST_IN_KEY: u32 = 6;

/// A monomial: a set of variables below 512, whose product it is. Clauses see the ascending list of
/// its variables.
#[derive(Clone, Copy, Debug)]
pub struct Mono {
    pub(crate) words: [u64; 8],
    pub(crate) degree: u32,
}

impl Model for Mono {
    ghost use Rattle.std.specs.Prelude.{List, ℕ, length};
    ghost use Rattle.std.proofs.Common.{ap₂};
    ghost use Rattle.ps_mono.specs.Sets.{vars, eight_words, IsCounted};
    ghost use Rattle.ps_mono.specs.Words.{words_back, degree_back};

    ghost Value = { List ℕ };

    ghost view = { λ a. vars a.words };

    ghost invariant = { λ a. IsCounted a.words a.degree };

    ghost inverse = { λ m. record { words = eight_words m; degree = length m } };

    ghost inverse_ok = { λ a h. ap₂ (λ ws d. record { words = ws; degree = d }) (words_back a.words h.fits) (degree_back a.words a.degree h) };
}

impl PartialEq for Mono {
    ghost eq = { pointwise nat_eq };

    ghost laws = { partial_equiv_from_equiv nat_list_eq_equiv };

    fn eq(&self, other: &Mono) -> bool {
        self.words == other.words
    }
}

impl Eq for Mono {
    ghost laws = { nat_list_eq_equiv };
}

impl Ord for Mono {
    ghost cmp = { mono_cmp };

    ghost total = { mono_total };

    ghost matches_partial_cmp = { λ _ _. refl };

    ghost matches_eq = { mono_ties };

    fn cmp(&self, other: &Mono) -> Ordering {
        self.compare(other)
    }
}

impl PartialOrd for Mono {
    ghost partial_cmp = { as_partial_cmp mono_cmp };

    ghost laws = { mono_partial_order };

    fn partial_cmp(&self, other: &Mono) -> Option<Ordering> {
        Some(self.compare(other))
    }
}

impl Mono {
    /// Nothing but the knowledge that the list of variables ascends and stays below 512.
    pub fn known(&self)
        ensures { IsVarSet self.now }
    {
        let _ = &self.words;
    }

    /// The empty product, which is 1 everywhere.
    pub fn one() -> Mono
        ensures { result ≡ [] }
    {
        Mono {
            words: [0; 8],
            degree: 0,
        }
    }

    /// The monomial of variable `v` alone, which is below 512.
    pub fn var(v: u16) -> Mono
        requires { v < 512 }
        ensures { result ≡ v ∷ [] }
    {
        let mut words = [0; 8];
        words[(v / 64) as usize] = 1u64 << (v % 64);
        Mono { words, degree: 1 }
    }

    /// The product: the variables of both.
    #[inline]
    pub fn union(&self, other: &Mono) -> Mono
        ensures members { (v : ℕ) → stands v result ≡ (stands v self.now || stands v other.now) }
        ensures form { IsVarSet result }
    {
        let words = joined_words(&self.words, &other.words);
        let degree = count_vars(&words);
        Mono { words, degree }
    }

    /// The monomial without variable `v`, which is below 512 and need not stand in it.
    pub fn removed(&self, v: u16) -> Mono
        requires { v < 512 }
        ensures members { (u : ℕ) → stands u result ≡ (stands u self.now && not (nat_eq u v)) }
        ensures form { IsVarSet result }
    {
        if !self.contains(v) {
            return *self;
        }
        let mut words = self.words;
        let place = (v / 64) as usize;
        words[place] &= !(1u64 << (v % 64));
        Mono {
            words,
            degree: self.degree - 1,
        }
    }

    /// The monomial of the variables that are true.
    pub fn of_bits(bits: &Bits) -> Mono
        ensures value { result ≡ bits.now }
        ensures form { IsVarSet result }
    {
        let words = bits.words;
        let degree = count_vars(&words);
        Mono { words, degree }
    }

    /// The product, as `union` gives it. It takes no memory and so always answers `Ok`.
    pub fn product(&self, _alloc: Global, other: &Mono) -> Result<Mono, AllocError>
        ensures members { IsOkAnd result (λ m. (v : ℕ) → stands v m ≡ (stands v self.now || stands v other.now)) }
        ensures form { IsOkAnd result (λ m. IsVarSet m) }
    {
        Ok(self.union(other))
    }

    /// The monomial without variable `v`, as `removed` gives it. It takes no memory and so always
    /// answers `Ok`.
    pub fn without(&self, _alloc: Global, v: u16) -> Result<Mono, AllocError>
        requires { v < 512 }
        ensures members { IsOkAnd result (λ m. (u : ℕ) → stands u m ≡ (stands u self.now && not (nat_eq u v))) }
        ensures form { IsOkAnd result (λ m. IsVarSet m) }
    {
        Ok(self.removed(v))
    }

    /// The same monomial. It takes no memory and so always answers `Ok`; `*self` is the same.
    pub fn copy(&self, _alloc: Global) -> Result<Mono, AllocError>
        ensures { result ≡ Ok self.now }
    {
        Ok(*self)
    }

    /// Whether variable `v`, which is below 512, stands in the monomial.
    #[inline]
    pub fn contains(&self, v: u16) -> bool
        requires { v < 512 }
        ensures { result ≡ stands v self.now }
    {
        (self.words[(v / 64) as usize] >> (v % 64)) & 1 == 1
    }

    /// How many variables the monomial has.
    #[inline]
    pub fn degree(&self) -> u32
        ensures { result ≡ length self.now }
    {
        self.degree
    }

    /// The variable at a place in ascending order, counted from 0. The place is below the degree.
    pub fn var_at(&self, place: u32) -> u16
        requires { place < length self.now }
        ensures value { result ≡ get_or self.now place 0 }
        ensures small { result < 512 }
    {
        let mut left = place;
        for i in 0..8u16 {
            let word = self.words[i as usize];
            let count = word.count_ones();
            if left < count {
                return 64 * i + nth_one(word, left) as u16;
            }
            left -= count;
        }
        unreachable!()
    }

    /// The least variable, and the monomial without it; `None` for the empty product.
    pub fn split_first(&self) -> Option<(u16, Mono)>
        ensures none { IsNone result ↔ (self.now ≡ []) }
        ensures split { IfSome result (λ p. self.now ≡ p.0 ∷ p.1) }
        ensures small { IfSome result (λ p. p.0 < 512) }
        ensures form { IfSome result (λ p. IsVarSet p.1) }
    {
        if self.degree() == 0 {
            return None;
        }
        self.known();
        let first = self.var_at(0);
        Some((first, self.removed(first)))
    }

    /// The order of monomials: by degree, and at one degree by the ascending lists of variables, the
    /// first place where they differ deciding.
    #[inline]
    pub fn compare(&self, other: &Mono) -> Ordering
        ensures { result ≡ mono_cmp self.now other.now }
    {
        match self.degree().cmp(&other.degree()) {
            Ordering::Less => Ordering::Less,
            Ordering::Greater => Ordering::Greater,
            Ordering::Equal => self.compare_equal(other),
        }
    }

    // At one degree, the set with the lowest variable that is not in both comes first.
    #[inline]
    fn compare_equal(&self, other: &Mono) -> Ordering
        requires { length self.now ≡ length other.now }
        ensures { result ≡ slice_cmp nat_cmp self.now other.now }
    {
        for i in 0..8 {
            let differing = self.words[i] ^ other.words[i];
            if differing != 0 {
                let place = differing.trailing_zeros();
                return if (self.words[i] >> place) & 1 == 1 {
                    Ordering::Less
                } else {
                    Ordering::Greater
                };
            }
        }
        Ordering::Equal
    }

    /// A number by which monomials of at most six variables are sorted: it has the degree, and behind it
    /// the ascending variables at nine bits each. So of two such monomials the one that `compare` puts
    /// first has the lower number, and only equal ones have the same. With more variables it is the
    /// highest number of all.
    #[inline]
    pub fn order_key(&self) -> u64
        ensures value { result ≡ order_key self.now }
        ensures order { length self.now ≤ 6 → (m : List ℕ) → IsVarSet m → length m ≤ 6 → nat_cmp result (order_key m) ≡ mono_cmp self.now m }
    {
        if self.degree > MOST_IN_KEY {
            return u64::MAX;
        }
        let mut key = u64::from(self.degree);
        for i in 0..8u64 {
            key = with_word(key, self.words[i as usize], 64 * i);
        }
        key
    }

    /// Whether all variables are below 119, so that the monomial has a `low_key`.
    #[inline]
    pub fn is_low(&self) -> bool
        ensures { IsTrue result ↔ IsLow self.now }
    {
        let second = self.words[1] >> 55;
        let middle = self.words[2] | self.words[3] | self.words[4];
        let last = self.words[5] | self.words[6] | self.words[7];
        second | middle | last == 0
    }

    /// A number by which monomials of any degree are sorted whose variables all are below 119: it has the
    /// degree, and behind it a bit for each of these variables, the lowest first, which is 0 where the
    /// variable stands in the monomial. So of two such monomials the one that `compare` puts first has the
    /// lower number, and only equal ones have the same.
    #[inline]
    pub fn low_key(&self) -> u128
        requires { IsLow self.now }
        ensures value { result ≡ low_key self.now }
        ensures order { (m : List ℕ) → IsVarSet m → IsLow m → nat_cmp result (low_key m) ≡ mono_cmp self.now m }
    {
        let first = !mirrored(self.words[0]);
        let second = !mirrored(self.words[1]) >> 9;
        (u128::from(self.degree) << 119) + (u128::from(first) << 55) + u128::from(second)
    }

    /// Whether all variables of the monomial are true.
    #[inline]
    pub fn holds(&self, at: &Bits) -> bool
        ensures { result ≡ holds self.now (λ v. stands v at.now) }
    {
        for i in 0..8 {
            if self.words[i] & !at.words[i] != 0 {
                return false;
            }
        }
        true
    }
}
