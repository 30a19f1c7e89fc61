//! The words `gen S Q N`.

ghost use Rattle.std.specs.Prelude.{◌≡◌, ◌↔◌, ℕ, IsTrue, MatchOption, map, string_bytes};
ghost use Rattle.pathsum.specs.Generated.{IsGeneration, IsNumber, IsWithin};

use itoa::Buffer;

/// What is generated: the seed, the qubits, and how many items are drawn.
#[derive(Clone, Copy, Debug, PartialEq, Eq)]
pub struct Generation {
    pub seed: u32,
    pub qubits: u32,
    pub items: u32,
}

/// What the words ask to be generated; none where they have another form.
pub fn generation_of(words: &[String]) -> Option<Generation>
    ensures { MatchOption result ((s q n : ℕ) → ¬ (IsGeneration (map string_bytes words.now) s q n))
        (λ g. IsGeneration (map string_bytes words.now) g.seed g.qubits g.items) }
{
    let [word, seed, qubits, items] = words else {
        return None;
    };
    if word.as_str() != "gen" {
        return None;
    }
    let seed = number(seed.as_str())?;
    let qubits = number(qubits.as_str())?;
    let items = number(items.as_str())?;
    if !is_within(qubits, items) {
        return None;
    }
    Some(Generation {
        seed,
        qubits,
        items,
    })
}

// Whether so much may be generated.
fn is_within(qubits: u32, items: u32) -> bool
    ensures { IsTrue result ↔ IsWithin qubits items }
{
    2 <= qubits && qubits <= 16 && 1 <= items && items <= 32_768
}

/// The number below 2^32 that the word is, without a leading zero.
pub fn number(word: &str) -> Option<u32>
    ensures { MatchOption result ((n : ℕ) → ¬ (IsNumber word.now n)) (λ n. IsNumber word.now n) }
{
    let Ok(value) = word.parse::<u32>() else {
        return None;
    };
    let mut buffer = Buffer::new();
    if buffer.format(value) == word {
        Some(value)
    } else {
        None
    }
}
