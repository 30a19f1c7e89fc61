ghost use Rattle.std.specs.Prelude.{◌≡◌, ℕ, ◌||◌};
ghost use Rattle.ps_mono.specs.Sets.{stands, IsVarSet};

use super::bits::Bits;
use super::mono::Mono;
use super::words::joined_words;

impl Bits {
    /// Makes the variables of a monomial true. The others keep their values.
    #[inline]
    pub fn add(&mut self, mono: &Mono)
        ensures values { (v : ℕ) → stands v self.new ≡ (stands v self.old || stands v mono.now) }
        ensures form { IsVarSet self.new }
    {
        self.words = joined_words(&self.words, &mono.words);
    }
}
