ghost use Rattle.std.specs.Prelude.{◌≡◌, ℕ, ◌<◌, [], nat_eq, cond};
ghost use Rattle.ps_mono.specs.Sets.{stands, IsVarSet};

use std::marker::Model;

/// A truth value for each variable below 512. Clauses see the ascending list of those that are true.
#[derive(Clone, Copy, Debug)]
pub struct Bits {
    pub(crate) words: [u64; 8],
}

impl Model for Bits {
    ghost use Rattle.std.specs.Prelude.{List, ℕ};
    ghost use Rattle.std.proofs.Common.{ap};
    ghost use Rattle.ps_mono.specs.Sets.{vars, eight_words, Fits8};
    ghost use Rattle.ps_mono.specs.Words.{words_back};

    ghost Value = { List ℕ };

    ghost view = { λ a. vars a.words };

    ghost invariant = { λ a. Fits8 a.words };

    ghost inverse = { λ m. record { words = eight_words m } };

    ghost inverse_ok = { λ a h. ap (λ ws. record { words = ws }) (words_back a.words h) };
}

impl Bits {
    /// All variables false.
    pub fn zero() -> Bits
        ensures { result ≡ [] }
    {
        Bits { words: [0; 8] }
    }

    /// The value of variable `v`, which is below 512.
    pub fn get(&self, v: u16) -> bool
        requires { v < 512 }
        ensures { result ≡ stands v self.now }
    {
        (self.words[(v / 64) as usize] >> (v % 64)) & 1 == 1
    }

    /// Gives variable `v`, which is below 512, a value. The others keep theirs.
    pub fn set(&mut self, v: u16, value: bool)
        requires { v < 512 }
        ensures values { (u : ℕ) → stands u self.new ≡ cond (nat_eq u v) value (stands u self.old) }
        ensures form { IsVarSet self.new }
    {
        let place = (v / 64) as usize;
        let bit = 1u64 << (v % 64);
        if value {
            self.words[place] |= bit;
        } else {
            self.words[place] &= !bit;
        }
    }
}
