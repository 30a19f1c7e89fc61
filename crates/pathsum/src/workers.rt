//! The words `run W`.

ghost use Rattle.std.specs.Prelude.{◌≡◌, ℕ, MatchOption, map, string_bytes};
ghost use Rattle.pathsum.specs.Scripts.{IsRun};

use super::generation::number;

/// How many workers there may be.
const MOST: u32 = 16;

/// Beside how many workers the words ask for a script to be run; none where they have another form.
pub fn workers_of(words: &[String]) -> Option<u32>
    ensures { MatchOption result ((w : ℕ) → ¬ (IsRun (map string_bytes words.now) w)) (λ w. IsRun (map string_bytes words.now) w) }
{
    let [word, workers] = words else {
        return None;
    };
    if word.as_str() != "run" {
        return None;
    }
    let workers = number(workers.as_str())?;
    if workers > MOST {
        return None;
    }
    Some(workers)
}
