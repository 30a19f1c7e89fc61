ghost use Rattle.std.specs.Prelude.{◌≡◌, ℕ, ◌<◌, ◌≤◌, ◌+◌, ◌*◌, ◌/◌, nat_eq, nat_lt, false};
ghost use Rattle.ps_mono.specs.Sets.{is_set, stands, IsVarSet};
ghost use Rattle.ps_mono.specs.Names.{opened};

use super::mono::Mono;
use super::words::{close_twice, close_words, word_below};

/// How names close up where one variable is gone: each above it is one lower. All variables are
/// below `names`, which is at most 512.
#[derive(Clone, Copy)]
pub struct Closing {
    pub gone: u16,
    pub names: u16,
    pub ghost inside: { gone < names },
    pub ghost small: { names ≤ 512 },
}

impl Closing {
    /// Where `v` is gone, which is one of the names.
    pub fn within(v: u16, names: u16) -> Closing
        requires inside { v < names }
        requires small { names ≤ 512 }
        ensures gone { result.gone ≡ v }
        ensures names { result.names ≡ names }
    {
        Closing { gone: v, names }
    }

    /// Whether the variable that is gone is the last one, so that all names stay.
    #[inline]
    pub fn is_last(self) -> bool
        ensures { result ≡ nat_eq (self.gone + 1) self.names }
    {
        self.gone + 1 == self.names
    }

    /// Makes the names above the variable that is gone one lower, in place. That one does not stand
    /// in the monomial, and no variable from `names` on does.
    #[inline]
    pub fn close(self, mono: &mut Mono)
        requires apart { stands self.gone mono.old ≡ false }
        requires below { (w : ℕ) → self.names ≤ w → stands w mono.old ≡ false }
        ensures members { (w : ℕ) → stands w mono.new ≡ stands (opened self.gone w) mono.old }
        ensures form { IsVarSet mono.new }
    {
        let used = ((self.names + 63) / 64) as usize;
        close_words(&mut mono.words, self.gone, used);
    }

    /// Whether the variable that is gone stands in the monomial.
    #[inline]
    pub fn meets(self, mono: &Mono) -> bool
        ensures { result ≡ stands self.gone mono.now }
    {
        mono.contains(self.gone)
    }
}

/// How names close up where two variables are gone: each above `low` is one lower, and each above
/// `high` two. All variables are below `names`, which is at most 512.
#[derive(Clone, Copy)]
pub struct ClosingPair {
    pub low: u16,
    pub high: u16,
    pub names: u16,
    last: u16,
    kept: u64,
    once: u64,
    pub ghost order: { low < high },
    pub ghost inside: { high < names },
    pub ghost small: { names ≤ 512 },
    ghost before: { last + 1 ≡ high },
    ghost kept_is: { (j : ℕ) → j < 64 → is_set kept j ≡ nat_lt (64 * (low / 64) + j) low },
    ghost once_is: { (j : ℕ) → j < 64 → is_set once j ≡ nat_lt (64 * (last / 64) + j) last },
}

impl ClosingPair {
    /// Where `high` is gone and then `low`, which is below it.
    pub fn of(high: Closing, low: Closing) -> ClosingPair
        requires order { low.gone < high.gone }
        ensures low { result.low ≡ low.gone }
        ensures high { result.high ≡ high.gone }
        ensures names { result.names ≡ high.names }
    {
        let last = high.gone - 1;
        let kept = word_below(low.gone, low.gone / 64);
        let once = word_below(last, last / 64);
        ClosingPair {
            low: low.gone,
            high: high.gone,
            names: high.names,
            last,
            kept,
            once,
        }
    }

    /// Makes the names above each variable that is gone one lower, in place, in one pass. Neither
    /// stands in the monomial, and no variable from `names` on does.
    #[inline]
    pub fn close(&self, mono: &mut Mono)
        requires low { stands self.now.low mono.old ≡ false }
        requires high { stands self.now.high mono.old ≡ false }
        requires below { (w : ℕ) → self.now.names ≤ w → stands w mono.old ≡ false }
        ensures members { (w : ℕ) → stands w mono.new ≡ stands (opened self.now.high (opened self.now.low w)) mono.old }
        ensures form { IsVarSet mono.new }
    {
        let used = ((self.names + 63) / 64) as usize;
        close_twice(
            &mut mono.words,
            self.low,
            self.last,
            self.kept,
            self.once,
            used,
        );
    }
}
