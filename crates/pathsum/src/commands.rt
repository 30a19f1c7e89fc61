//! The words of the program.

ghost use Rattle.std.specs.Prelude.{◌≡◌, ◌∷◌, [], ◌↔◌, IsTrue, MatchOption, map, string_bytes};
ghost use Rattle.pathsum.specs.declared.commands.Command.{Command as Wanted};
ghost use Rattle.pathsum.specs.Commands.{IsCommand};

/// What the words ask of two circuits.
#[derive(Clone, Copy, Debug, PartialEq, Eq)]
pub enum Command {
    /// Whether two circuits are one linear map.
    Same,
    /// Whether they are so up to a global phase.
    SamePhase,
    /// Whether they are one linear map, asked of what is left of them where they part.
    SameLocal,
    /// Whether they are one linear map, with the derivation where they are.
    Prove,
    /// Whether a derivation shows that two circuits are one linear map.
    Replay,
}

/// The command that the words are; none where they have another form.
pub fn command_of(words: &[String]) -> Option<Command>
    ensures { MatchOption result ((c : Wanted) → ¬ (IsCommand c (map string_bytes words.now))) (λ c. IsCommand c (map string_bytes words.now)) }
{
    if is_word(words, "same") {
        Some(Command::Same)
    } else if are_two(words, "same", "phase") {
        Some(Command::SamePhase)
    } else if are_two(words, "same", "local") {
        Some(Command::SameLocal)
    } else if is_word(words, "prove") {
        Some(Command::Prove)
    } else if is_word(words, "replay") {
        Some(Command::Replay)
    } else {
        None
    }
}

// Whether the words are this one word.
fn is_word(words: &[String], word: &str) -> bool
    ensures { IsTrue result ↔ (map string_bytes words.now ≡ word.now ∷ []) }
{
    words.len() == 1 && words[0].as_str() == word
}

// Whether the words are these two.
fn are_two(words: &[String], first: &str, second: &str) -> bool
    ensures { IsTrue result ↔ (map string_bytes words.now ≡ first.now ∷ second.now ∷ []) }
{
    if words.len() != 2 {
        return false;
    }
    words[0].as_str() == first && words[1].as_str() == second
}
