ghost use Rattle.std.specs.Prelude.{◌≡◌, ℕ, ◌<◌, ◌≤◌, ◌+◌, ◌^◌, length, get_or, bit_or, nat_lt, true, false, ◌*◌, ◌/◌};
ghost use Rattle.ps_mono.specs.Sets.{is_set, has, vars, Fits8};
ghost use Rattle.ps_mono.specs.Names.{opened};

// How many variables the words have.
#[inline]
pub fn count_vars(words: &[u64; 8]) -> u32
    requires { Fits8 words.now }
    ensures { result ≡ length (vars words.now) }
{
    let mut count = 0;
    for i in 0..8 {
        let word = words[i];
        if word != 0 {
            count += word.count_ones();
        }
    }
    count
}

// The words with the ones of both.
#[inline]
pub fn joined_words(xs: &[u64; 8], ys: &[u64; 8]) -> [u64; 8]
    requires first { Fits8 xs.now }
    requires second { Fits8 ys.now }
    ensures fits { Fits8 result }
    ensures ones { (i : ℕ) → i < 8 → get_or result i 0 ≡ bit_or (get_or xs.now i 0) (get_or ys.now i 0) }
{
    let mut words = [0; 8];
    for i in 0..8 {
        words[i] = xs[i] | ys[i];
    }
    words
}

// The word behind word i, of which the last has none.
#[inline]
fn word_after(words: &[u64; 8], i: usize) -> u64
    requires fits { Fits8 words.now }
    requires inside { i < 8 }
    ensures value { result ≡ get_or words.now (i + 1) 0 }
{
    if i < 7 { words[i + 1] } else { 0 }
}

// The bits of word i below bit v of all words.
#[inline]
pub fn word_below(v: u16, i: u16) -> u64
    requires { i < 8 }
    ensures bits { (j : ℕ) → j < 64 → is_set result j ≡ nat_lt (64 * i + j) v }
    ensures small { result < 2 ^ 64 }
{
    let start = 64 * i;
    if v <= start {
        0
    } else if v - start >= 64 {
        u64::MAX
    } else {
        (1u64 << (v - start)) - 1
    }
}

// The bits of `kept` stay, and each other bit is the one above it; the first of the next word comes
// in at the top.
#[inline]
fn closed_word(word: u64, next: u64, kept: u64) -> u64
    ensures below { (j : ℕ) → j < 64 → is_set kept j ≡ true → is_set result j ≡ is_set word j }
    ensures above { (j : ℕ) → j < 63 → is_set kept j ≡ false → is_set result j ≡ is_set word (j + 1) }
    ensures top { is_set kept 63 ≡ false → is_set result 63 ≡ is_set next 0 }
    ensures small { result < 2 ^ 64 }
{
    let lower = (word >> 1) | (next << 63);
    (word & kept) | (lower & !kept)
}

// Makes each bit above bit v one lower, in place; bit v goes. The words from `used` on are 0.
#[inline]
pub fn close_words(words: &mut [u64; 8], v: u16, used: usize)
    requires words { Fits8 words.old }
    requires inside { v < 64 * used }
    requires used { used ≤ 8 }
    requires empty { (i : ℕ) → used ≤ i → get_or words.old i 0 ≡ 0 }
    ensures fits { Fits8 words.new }
    ensures bits { (w : ℕ) → w < 512 → has words.new w ≡ has words.old (opened v w) }
{
    let first = (v / 64) as usize;
    words[first] = closed_word(
        words[first],
        word_after(words, first),
        word_below(v, v / 64),
    );
    for i in first + 1..used {
        words[i] = closed_word(words[i], word_after(words, i), 0);
    }
}

// The bits of word i, each the next one above it of all words.
#[inline]
fn one_lower(words: &[u64; 8], i: usize) -> u64
    requires fits { Fits8 words.now }
    requires inside { i < 8 }
    ensures bits { (j : ℕ) → j < 64 → is_set result j ≡ has words.now (64 * i + j + 1) }
    ensures small { result < 2 ^ 64 }
{
    (words[i] >> 1) | (word_after(words, i) << 63)
}

// The bits of word i, each the second one above it of all words.
#[inline]
fn two_lower(words: &[u64; 8], i: usize) -> u64
    requires fits { Fits8 words.now }
    requires inside { i < 8 }
    ensures bits { (j : ℕ) → j < 64 → is_set result j ≡ has words.now (64 * i + j + 2) }
    ensures small { result < 2 ^ 64 }
{
    (words[i] >> 2) | (word_after(words, i) << 62)
}

// The bits of `first` where the mask has ones, and those of `second` elsewhere.
#[inline]
fn chosen(mask: u64, first: u64, second: u64) -> u64
    ensures on { (j : ℕ) → j < 64 → is_set mask j ≡ true → is_set result j ≡ is_set first j }
    ensures off { (j : ℕ) → j < 64 → is_set mask j ≡ false → is_set result j ≡ is_set second j }
    ensures small { result < 2 ^ 64 }
{
    (first & mask) | (second & !mask)
}

// Makes each bit of the words from `from` to before `to` the next one above it, in place.
#[inline]
fn lower_once(words: &mut [u64; 8], from: usize, to: usize)
    requires fits { Fits8 words.old }
    requires order { from ≤ to }
    requires inside { to ≤ 8 }
    ensures fits { Fits8 words.new }
    ensures bits { (k : ℕ) → from ≤ k → k < to → (j : ℕ) → j < 64 → is_set (get_or words.new k 0) j ≡ has words.old (64 * k + j + 1) }
    ensures before { (k : ℕ) → k < from → get_or words.new k 0 ≡ get_or words.old k 0 }
    ensures behind { (k : ℕ) → to ≤ k → get_or words.new k 0 ≡ get_or words.old k 0 }
{
    for i in from..to {
        words[i] = one_lower(words, i);
    }
}

// Makes each bit of the words from `from` to before `to` the second one above it, in place.
#[inline]
fn lower_twice(words: &mut [u64; 8], from: usize, to: usize)
    requires fits { Fits8 words.old }
    requires order { from ≤ to }
    requires inside { to ≤ 8 }
    ensures fits { Fits8 words.new }
    ensures bits { (k : ℕ) → from ≤ k → k < to → (j : ℕ) → j < 64 → is_set (get_or words.new k 0) j ≡ has words.old (64 * k + j + 2) }
    ensures before { (k : ℕ) → k < from → get_or words.new k 0 ≡ get_or words.old k 0 }
    ensures behind { (k : ℕ) → to ≤ k → get_or words.new k 0 ≡ get_or words.old k 0 }
{
    for i in from..to {
        words[i] = two_lower(words, i);
    }
}

// Makes each bit from `low` on one lower, and those above `last + 1` two, in place; the bits `low`
// and `last + 1` go. The mask `kept` has the bits below `low` in the word of `low`, and `once` those
// below `last` in the word of `last`. The words from `used` on are 0.
#[inline]
pub fn close_twice(words: &mut [u64; 8], low: u16, last: u16, kept: u64, once: u64, used: usize)
    requires words { Fits8 words.old }
    requires order { low ≤ last }
    requires inside { last < 64 * used }
    requires used { used ≤ 8 }
    requires empty { (i : ℕ) → used ≤ i → get_or words.old i 0 ≡ 0 }
    requires kept { (j : ℕ) → j < 64 → is_set kept j ≡ nat_lt (64 * (low / 64) + j) low }
    requires once { (j : ℕ) → j < 64 → is_set once j ≡ nat_lt (64 * (last / 64) + j) last }
    ensures fits { Fits8 words.new }
    ensures bits { (w : ℕ) → w < 512 → has words.new w ≡ has words.old (opened (last + 1) (opened low w)) }
{
    let first = (low / 64) as usize;
    let second = (last / 64) as usize;
    if first == second {
        let moved = chosen(once, one_lower(words, first), two_lower(words, first));
        words[first] = chosen(kept, words[first], moved);
        lower_twice(words, first + 1, used);
        return;
    }
    words[first] = chosen(kept, words[first], one_lower(words, first));
    lower_once(words, first + 1, second);
    words[second] = chosen(once, one_lower(words, second), two_lower(words, second));
    lower_twice(words, second + 1, used);
}
