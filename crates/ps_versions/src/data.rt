//! What is kept of circuits and versions, and what is told of them.
use ps_script::Place;
use seg_tree::Node;

/// What is told of a circuit.
#[derive(Clone, Copy, Debug, PartialEq, Eq)]
pub struct About {
    /// The number of qubits.
    pub qubits: u32,
    /// The entry that opened it.
    pub opened: u32,
    /// The number of its latest version.
    pub latest: u32,
}

/// What is told of a version.
#[derive(Clone, Copy, Debug, PartialEq, Eq)]
pub struct State {
    /// The entry that retired it, where one did.
    pub retired: Option<u32>,
    /// How many pins stand on it.
    pub pins: u32,
    /// The entry by which it stopped being kept, where it did.
    pub ended: Option<u32>,
}

/// A ready segment, and the version as a segment of which it was found.
#[derive(Clone, Copy, Debug, PartialEq, Eq)]
pub struct Ready {
    pub place: Place,
    pub node: Node,
}

/// A version: the root of its tree, where it has items, and what befell it.
#[derive(Drop)]
pub(crate) struct Edition {
    pub(crate) root: Option<Node>,
    pub(crate) retired: Option<u32>,
    pub(crate) ended: Option<u32>,
    pub(crate) pins: u32,
}

/// A circuit and its versions, numbered from 1.
#[derive(Drop)]
pub(crate) struct Course {
    pub(crate) qubits: u32,
    pub(crate) opened: u32,
    pub(crate) editions: Vec<Edition>,
}

/// What a segment keeps, and the entry that stored it.
#[derive(Drop)]
pub(crate) struct Stored<R> {
    pub(crate) entry: u32,
    pub(crate) kept: R,
}
