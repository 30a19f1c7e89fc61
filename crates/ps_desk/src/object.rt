//! What a desk serves.
ghost use Rattle.std.specs.Prelude.{◌≡◌, ℕ, ◌+◌, ◌<◌, List, [], ◌∷◌, ◌++◌};
ghost use Rattle.ps_desk.specs.declared.entry.Entry.{Entry};

/// An object with a journal, to which each command adds the one entry of its turn.
pub trait Object {
    type Cmd: Drop;

    type Reply;

    /// The entries of all commands so far, the oldest first.
    ghost journal: { Self → List (Entry Self.Cmd Self.Reply) };

    /// How many commands there is still room for.
    ghost spare: { Self → ℕ };

    /// The journals that can come about.
    ghost legal: { List (Entry Self.Cmd Self.Reply) → Type 0 };

    /// Does one command of a seat, and answers it.
    fn apply(&mut self, seat: u32, cmd: Self::Cmd) -> Self::Reply
        requires room { 0 < spare self.old }
        requires seat { seat < 64 }
        ensures entry { journal self.new ≡ journal self.old ++ record { seat = seat; cmd = cmd; reply = result } ∷ [] }
        // the new entry is legal after those before it
        ensures lawful { legal (journal self.old) → legal (journal self.new) }
        ensures spare { spare self.new + 1 ≡ spare self.old };

    /// An object may begin with no entry.
    ghost empty_is_legal: { legal [] };
}
