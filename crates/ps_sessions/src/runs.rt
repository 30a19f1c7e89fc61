//! What the run of a script gives.

ghost use Rattle.std.specs.Prelude.{◌≡◌};

use ps_journal::{Entry, Reply};
use std::marker::Model;

/// How a run ended.
#[derive(Clone, Copy, Debug, PartialEq, Eq, Drop)]
pub enum Ending {
    /// All commands were answered.
    Done,
    /// A turn of a command was refused, with this ticket. That command is not answered, and none behind it was begun.
    Full { ticket: u64 },
}

/// What a command of a session was answered.
#[derive(Drop)]
pub struct Response {
    pub session: u32,
    pub reply: Reply,
}

/// Responses in order. Clauses see the list of them.
#[derive(Drop)]
pub struct Responses {
    list: Vec<Response>,
}

impl Model for Responses {
    ghost use Rattle.std.specs.Prelude.{List};
    ghost use Rattle.ps_sessions.specs.declared.runs.Response.{Response};
    ghost use Rattle.std.specs.Coded.{codes};
    ghost use Rattle.ps_journal.specs.contracts.replies.Reply as replies;

    ghost Value = { List Response };

    ghost coded = { Prim.hlevel (codes, replies.the_row.coded) };

    ghost view = { λ s. s.list.items };
}

impl Responses {
    /// The list that the vector holds. Takes no memory.
    pub fn from_vec(list: Vec<Response>) -> Responses
        ensures { result ≡ list.items }
    {
        Responses { list }
    }

    /// The responses in order. Takes no memory.
    pub fn as_slice(&self) -> &[Response]
        ensures { result.now ≡ self.now }
    {
        &self.list
    }
}

/// The entries of a journal, the oldest first. Clauses see the list of them.
#[derive(Drop)]
pub struct Journal {
    list: Vec<Entry>,
}

impl Model for Journal {
    ghost use Rattle.std.specs.Prelude.{List};
    ghost use Rattle.ps_journal.specs.History.{Entry};
    ghost use Rattle.std.specs.Coded.{codes};
    ghost use Rattle.ps_journal.specs.contracts.commands.Cmd as commands;
    ghost use Rattle.ps_journal.specs.contracts.replies.Reply as replies;

    ghost Value = { List Entry };

    ghost coded = { Prim.hlevel (codes, commands.the_row.coded, replies.the_row.coded) };

    ghost view = { λ s. s.list.items };
}

impl Journal {
    /// The list that the vector holds. Takes no memory.
    pub fn from_vec(list: Vec<Entry>) -> Journal
        ensures { result ≡ list.items }
    {
        Journal { list }
    }

    /// The entries, the oldest first. Takes no memory.
    pub fn as_slice(&self) -> &[Entry]
        ensures { result.now ≡ self.now }
    {
        &self.list
    }
}

/// The run of a script: all turns that were taken, what each command was answered, in the order of the script, and how
/// it ended.
#[derive(Drop)]
pub struct Run {
    pub journal: Journal,
    pub responses: Responses,
    pub ending: Ending,
}
