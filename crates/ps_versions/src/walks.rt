//! How far a walk over the segments of a tree has come.
ghost use Rattle.std.specs.Prelude.{◌≡◌};
ghost use Rattle.ps_versions.specs.Walks.{is_found, start, outcome};

use seg_tree::Node;

/// A walk that looks for the first ready segment, or for the next one behind a segment.
#[derive(Clone, Copy)]
pub(crate) enum Walk {
    Seeking(Node),
    Looking,
    Found(Node),
}

impl Walk {
    /// A walk that begins behind a segment, or at the first one.
    pub(crate) fn start(after: Option<Node>) -> Walk
        ensures { result ≡ start after }
    {
        match after {
            None => Walk::Looking,
            Some(node) => Walk::Seeking(node),
        }
    }

    /// The segment that the walk has found, where it has.
    pub(crate) fn outcome(self) -> Option<Node>
        ensures { result ≡ outcome self }
    {
        match self {
            Walk::Seeking(_) => None,
            Walk::Looking => None,
            Walk::Found(node) => Some(node),
        }
    }

    /// Whether the walk has found what it looks for.
    pub(crate) fn is_found(&self) -> bool
        ensures { result ≡ is_found self.now }
    {
        match self {
            Walk::Seeking(_) => false,
            Walk::Looking => false,
            Walk::Found(_) => true,
        }
    }
}
