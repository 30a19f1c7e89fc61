//! Nodes as callers see them.
ghost use Rattle.std.specs.Prelude.{◌≡◌};

use std::marker::Model;

/// The name of a node: its place in the table that made it, from 0.
#[derive(Clone, Copy, Debug, PartialEq, Eq)]
pub struct Node {
    number: u64,
}

impl Model for Node {
    ghost use Rattle.std.specs.Prelude.{ℕ, ◌<◌, ◌^◌};

    ghost Value = { ℕ };

    ghost view = { λ n. n.number };

    ghost invariant = { λ n. n.number < 2 ^ 64 };

    ghost inverse = { λ n. record { number = n } };
}

impl Node {
    pub(crate) fn at(number: u64) -> Node
        ensures { result ≡ number }
    {
        Node { number }
    }

    /// The node's place in its table, from 0.
    pub fn number(self) -> u64
        ensures { result ≡ self }
    {
        self.number
    }
}

/// What a node is.
#[derive(Clone, Copy, Debug)]
pub enum Seen<'a> {
    /// 1 to 8 item numbers, in order.
    Leaf(&'a [u64]),
    /// The left side and the right side, both older than the branch.
    Branch(Node, Node),
}
