//! The lines of a derivation.

ghost use Rattle.std.specs.Prelude.{◌≡◌};

use ps_rules::Step;
use std::marker::Model;

/// A line of a derivation. Side b is `true` and side a is `false`.
#[derive(Clone, Copy, Debug, PartialEq, Eq)]
pub enum Line {
    /// The first line, with the number of the form, which is 1.
    Head(u32),
    /// The sum of a prim, counted from 0, of a side.
    Leaf { b: bool, prim: u32 },
    /// The identity of a side.
    Id { b: bool },
    /// The last two sums, one after the other.
    Join,
    /// A step of rewriting the last sum.
    Rewrite(Step),
    /// The overlap of the two sums that are left.
    Overlap,
    /// The last line.
    End,
}

/// Lines in order. Clauses see the list of them.
#[derive(Drop)]
pub struct Lines {
    list: Vec<Line>,
}

impl Model for Lines {
    ghost use Rattle.std.specs.Prelude.{List};
    ghost use Rattle.ps_steps.specs.declared.lines.Line.{Line};

    ghost Value = { List Line };

    ghost view = { λ s. s.list.items };
}

impl Lines {
    /// The list that the vector holds. Takes no memory.
    pub fn from_vec(list: Vec<Line>) -> Lines
        ensures { result ≡ list.items }
    {
        Lines { list }
    }

    /// The lines in order. Takes no memory.
    pub fn as_slice(&self) -> &[Line]
        ensures { result.now ≡ self.now }
    {
        &self.list
    }
}
