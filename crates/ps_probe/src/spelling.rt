//! Patterns as words.

ghost use Rattle.std.specs.Prelude.{◌≡◌, ◌<◌, ◌≤◌, IfSome, IsNone, ◌↔◌};
ghost use Rattle.ps_probe.specs.Patterns.{Spells, IsWord, is_fixed, is_one, free_count};

use super::pattern::Pattern;

impl Pattern {
    /// The pattern of a word of 1 to 64 characters `0`, `1` or `-`, of which the first is for input 0; `-` leaves
    /// the input free. `None` exactly where the word isn't one. Takes no memory.
    pub fn of(word: &[u8]) -> Option<Pattern>
        ensures some { IfSome result (Spells word.now) }
        ensures none { IsNone result ↔ ¬ (IsWord word.now) }
    {
        if word.is_empty() || word.len() > 64 {
            return None;
        }
        let mut fixed = 0u64;
        let mut ones = 0u64;
        for i in 0..word.len() {
            let mark = word[i];
            let bit = 1u64 << i;
            if mark == b'1' {
                fixed |= bit;
                ones |= bit;
            } else if mark == b'0' {
                fixed |= bit;
            } else if mark != b'-' {
                return None;
            }
        }
        Some(Pattern {
            len: word.len() as u32,
            fixed,
            ones,
        })
    }

    /// Whether input `i` is fixed.
    pub fn is_fixed(&self, i: u32) -> bool
        requires { i < 64 }
        ensures { result ≡ is_fixed self.now i }
    {
        i < self.len && (self.fixed >> i) & 1 == 1
    }

    /// Whether input `i`, if it is fixed, is 1.
    pub fn is_one(&self, i: u32) -> bool
        requires { i < 64 }
        ensures { result ≡ is_one self.now i }
    {
        (self.ones >> i) & 1 == 1
    }

    /// How many inputs are free.
    pub fn free(&self) -> u32
        requires { self.now.len ≤ 64 }
        ensures value { result ≡ free_count self.now self.now.len }
        ensures few { result ≤ self.now.len }
    {
        let mut free = 0;
        for i in 0..self.len {
            if !self.is_fixed(i) {
                free += 1;
            }
        }
        free
    }
}
