//! Scripts: the commands of sessions, in order.

ghost use Rattle.std.specs.Prelude.{◌≡◌, ◌≤◌};

use crate::command::Command;
use std::marker::Model;

/// A command of a session. Sessions are numbered from 0 to 15.
#[derive(Drop)]
pub struct Line {
    pub session: u32,
    pub command: Command,
    pub ghost low: { session ≤ 15 },
}

/// Lines in order. Clauses see the list of them.
#[derive(Drop)]
pub struct Lines {
    list: Vec<Line>,
}

impl Model for Lines {
    ghost use Rattle.std.specs.Prelude.{List};
    ghost use Rattle.ps_script.specs.declared.script.Line.{Line};

    ghost Value = { List Line };

    ghost view = { λ s. s.list.items };
}

impl Lines {
    /// The list that the vector holds. Takes no memory.
    pub fn from_vec(list: Vec<Line>) -> Lines
        ensures { result ≡ list.items }
    {
        Lines { list }
    }

    /// The lines in order. Takes no memory.
    pub fn as_slice(&self) -> &[Line]
        ensures { result.now ≡ self.now }
    {
        &self.list
    }

    /// The lines, to be taken out one by one. Takes no memory.
    pub fn into_vec(self) -> Vec<Line>
        ensures { result.items ≡ self }
    {
        self.list
    }
}

/// The commands of a script, in the order in which they stand there.
#[derive(Drop)]
pub struct Script {
    pub lines: Lines,
}
