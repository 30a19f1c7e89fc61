ghost use Rattle.std.specs.Prelude.{◌≡◌};

use ps_rules::{Move, Step};
use std::marker::Model;

/// Steps of building a path sum, the first of them first.
#[derive(Drop)]
pub struct Moves {
    list: Vec<Move>,
}

impl Model for Moves {
    ghost use Rattle.std.specs.Prelude.{List};
    ghost use Rattle.ps_rules.specs.declared.steps.Move.{Move};

    ghost Value = { List Move };

    ghost view = { λ s. s.list.items };
}

impl Moves {
    /// The list that the vector holds. Takes no memory.
    pub fn from_vec(list: Vec<Move>) -> Moves
        ensures { result ≡ list.items }
    {
        Moves { list }
    }

    /// The moves in order. Takes no memory.
    pub fn as_slice(&self) -> &[Move]
        ensures { result.now ≡ self.now }
    {
        &self.list
    }
}

/// Steps of rewriting a path sum, the first of them first.
#[derive(Drop)]
pub struct Steps {
    list: Vec<Step>,
}

impl Model for Steps {
    ghost use Rattle.std.specs.Prelude.{List};
    ghost use Rattle.ps_rules.specs.declared.steps.Step.{Step};

    ghost Value = { List Step };

    ghost view = { λ s. s.list.items };
}

impl Steps {
    /// The list that the vector holds. Takes no memory.
    pub fn from_vec(list: Vec<Step>) -> Steps
        ensures { result ≡ list.items }
    {
        Steps { list }
    }

    /// The steps in order. Takes no memory.
    pub fn as_slice(&self) -> &[Step]
        ensures { result.now ≡ self.now }
    {
        &self.list
    }
}
