//! What is asked of a version, answered by a walk over the segments of its tree.
ghost use Rattle.std.specs.Prelude.{◌≡◌, ◌<◌, ◌≤◌, true, false, Some, None, IsSome, IfSome, MatchOption, is_some, length};
ghost use Rattle.seg_tree.specs.Trees.{name_of, height};
ghost use Rattle.seg_tree.specs.Measures.{IsWhole};
ghost use Rattle.seg_tree.specs.Table.{tree, root_tree, IsRoot};
ghost use Rattle.seg_tree.specs.Seen.{Shows};
ghost use Rattle.ps_versions.specs.Lookup.{version_at, root_of};
ghost use Rattle.ps_versions.specs.Records.{record_at, IsPassedIn};
ghost use Rattle.ps_versions.specs.Reached.{is_segment};
ghost use Rattle.ps_versions.specs.Questions.{segments, lacks, has_sum, has_passed, below_have_sums, is_ready, missing_in, settled_in, missing, is_settled, ready_from, first_named, first_passed, IsStorable, FindsStorable};
ghost use Rattle.ps_versions.specs.Walks.{visited, walked};

use crate::kept::Kept;
use crate::versions::Versions;
use crate::walks::Walk;
use ps_script::Place;
use seg_tree::{Node, Seen};

impl<R: Kept> Versions<R> {
    /// What a node is.
    pub(crate) fn look(&self, node: Node) -> Seen<'_>
        requires { node < length self.now.nodes }
        ensures { Shows self.now.nodes node result }
    {
        self.nodes().look(node)
    }

    /// The height of a node's tree, which has few segments.
    pub(crate) fn height(&self, node: Node) -> u32
        requires { node < length self.now.nodes }
        ensures value { result ≡ height (tree self.now.nodes node) }
        ensures few { length (segments (tree self.now.nodes node)) ≤ 131072 }
        ensures low { result ≤ 32 }
        ensures whole { IsWhole node (tree self.now.nodes node) }
    {
        let nodes = self.nodes();
        let _ = nodes.len(node);
        nodes.height(node)
    }

    /// Whether a node keeps nothing. Where it keeps something, all segments below it keep sums.
    pub(crate) fn lacks(&self, node: Node) -> bool
        requires { node < length self.now.nodes }
        ensures value { result ≡ lacks self.now.kept (tree self.now.nodes node) }
        ensures named { name_of (tree self.now.nodes node) ≡ Some node }
        ensures below { result ≡ false → below_have_sums self.now.kept R.passed (tree self.now.nodes node) ≡ true }
    {
        let _ = self.look(node);
        self.kept_at(node).is_none()
    }

    /// How many segments of a node's tree keep nothing.
    fn missing_at(&self, node: Node) -> u32
        requires there { node < length self.now.nodes }
        requires few { length (segments (tree self.now.nodes node)) ≤ 131072 }
        ensures { result ≡ missing_in self.now.kept (Some (tree self.now.nodes node)) }
    {
        if !self.lacks(node) {
            return 0;
        }
        match self.look(node) {
            Seen::Leaf(_) => 1,
            Seen::Branch(left, right) => {
                let below = self.missing_at(left) + self.missing_at(right);
                below + 1
            }
        }
    }

    /// Whether there is a version at a place.
    pub fn exists(&self, place: &Place) -> bool
        ensures { result ≡ is_some (version_at self.now.circuits place.now.name place.now.version) }
    {
        match self.circuit_of(place.name) {
            None => false,
            Some(about) => place.version > 0 && place.version <= about.latest,
        }
    }

    /// How many segments of a version keep nothing, or None exactly where there is no version at the place.
    pub fn missing(&self, place: &Place) -> Option<u32>
        ensures { result ≡ missing self.now (version_at self.now.circuits place.now.name place.now.version) }
    {
        if !self.exists(place) {
            return None;
        }
        match self.root(place) {
            None => Some(0),
            Some(root) => {
                let _ = self.height(root);
                Some(self.missing_at(root))
            }
        }
    }
}

impl<R: Kept> Versions<R> {
    /// Whether a node keeps a sum.
    fn has_sum(&self, node: Node) -> bool
        requires { node < length self.now.nodes }
        ensures { result ≡ has_sum self.now.kept R.passed (tree self.now.nodes node) }
    {
        let _ = self.look(node);
        match self.kept_at(node) {
            None => false,
            Some((_, kept)) => !kept.is_passed(),
        }
    }

    /// Whether a node keeps that a limit was passed.
    fn has_passed(&self, node: Node) -> bool
        requires { node < length self.now.nodes }
        ensures { result ≡ has_passed self.now.kept R.passed (tree self.now.nodes node) }
    {
        let _ = self.look(node);
        match self.kept_at(node) {
            None => false,
            Some((_, kept)) => kept.is_passed(),
        }
    }

    /// The first segment of a node's tree at which a limit was passed.
    fn passed_at(&self, node: Node) -> Option<Node>
        requires { node < length self.now.nodes }
        ensures { result ≡ first_named (has_passed self.now.kept R.passed) (segments (tree self.now.nodes node)) }
    {
        if !self.lacks(node) {
            return if self.has_passed(node) {
                Some(node)
            } else {
                None
            };
        }
        match self.look(node) {
            Seen::Leaf(_) => None,
            Seen::Branch(left, right) => match self.passed_at(left) {
                Some(first) => Some(first),
                None => self.passed_at(right),
            },
        }
    }

    /// The same, told without a walk where no limit was passed anywhere.
    fn passed_in(&self, node: Node) -> Option<Node>
        requires { node < length self.now.nodes }
        ensures { result ≡ first_named (has_passed self.now.kept R.passed) (segments (tree self.now.nodes node)) }
    {
        if self.passed == 0 {
            return None;
        }
        self.passed_at(node)
    }

    /// Whether a tree is settled: its root keeps a sum, or a limit was passed at one of its segments.
    pub(crate) fn is_settled(&self, root: Node) -> bool
        requires { root < length self.now.nodes }
        ensures { result ≡ settled_in self.now.kept R.passed (Some (tree self.now.nodes root)) }
    {
        self.has_sum(root) || self.passed_in(root).is_some()
    }

    /// Whether a version, which exists, is settled: it has no items, or its root keeps a sum, or a limit was passed at
    /// one of its segments. Where no limit was passed anywhere, its root alone is looked at.
    pub fn settled(&self, place: &Place) -> bool
        requires { IsSome (version_at self.now.circuits place.now.name place.now.version) }
        ensures { result ≡ is_settled R.passed self.now (version_at self.now.circuits place.now.name place.now.version) }
    {
        match self.root(place) {
            None => true,
            Some(root) => self.is_settled(root),
        }
    }

    /// The first segment of a version, which exists, at which a limit was passed. The sides of a segment come before it,
    /// the left one first.
    pub fn first_passed(&self, place: &Place) -> Option<Node>
        requires { IsSome (version_at self.now.circuits place.now.name place.now.version) }
        ensures value { result ≡ first_passed R.passed self.now (version_at self.now.circuits place.now.name place.now.version) }
        ensures there { IfSome result (λ k. k < length self.now.nodes) }
        ensures passed { IfSome result (λ k. IsPassedIn R.passed (record_at self.now.kept k)) }
        ensures segment { IfSome result (λ k. is_segment self.now (version_at self.now.circuits place.now.name place.now.version) k ≡ true) }
    {
        let _ = self.nodes();
        match self.root(place) {
            None => None,
            Some(root) => self.passed_in(root),
        }
    }

    /// Whether a node keeps nothing, and its sides, where it has them, keep sums.
    pub(crate) fn is_ready(&self, node: Node) -> bool
        requires { node < length self.now.nodes }
        ensures { result ≡ is_ready self.now.kept R.passed (tree self.now.nodes node) }
    {
        if !self.lacks(node) {
            return false;
        }
        match self.look(node) {
            Seen::Leaf(_) => true,
            Seen::Branch(left, right) => { self.has_sum(left) && self.has_sum(right) }
        }
    }

    /// A walk one segment further.
    #[tactic(auto, using(crate::proofs::Storing::ready_storable, crate::proofs::Counting::named_shown))]
    fn visit(&self, node: Node, walk: Walk) -> Walk
        requires { node < length self.now.nodes }
        ensures value { result ≡ visited (is_ready self.now.kept R.passed) walk (tree self.now.nodes node) }
        ensures storable { FindsStorable R.passed self.now walk → FindsStorable R.passed self.now result }
    {
        let _ = self.look(node);
        match walk {
            Walk::Seeking(after) => {
                if node.number() == after.number() {
                    Walk::Looking
                } else {
                    Walk::Seeking(after)
                }
            }
            Walk::Looking => {
                if self.is_ready(node) {
                    Walk::Found(node)
                } else {
                    Walk::Looking
                }
            }
            Walk::Found(found) => Walk::Found(found),
        }
    }

    /// Whether a walk passes over a node's tree: it has found what it looks for, or what it looks for is not there.
    fn passes_over(&self, node: Node, walk: &Walk) -> bool
        requires { node < length self.now.nodes }
        ensures { result ≡ true → walked (is_ready self.now.kept R.passed) walk.now (segments (tree self.now.nodes node)) ≡ walk.now }
    {
        let _ = self.height(node);
        match walk {
            Walk::Seeking(after) => node.number() < after.number(),
            Walk::Looking => !self.lacks(node),
            Walk::Found(_) => true,
        }
    }

    /// A walk over the segments of a node's tree.
    fn walk(&self, node: Node, walk: Walk) -> Walk
        requires { node < length self.now.nodes }
        ensures value { result ≡ walked (is_ready self.now.kept R.passed) walk (segments (tree self.now.nodes node)) }
        ensures storable { FindsStorable R.passed self.now walk → FindsStorable R.passed self.now result }
    {
        if self.passes_over(node, &walk) {
            return walk;
        }
        match self.look(node) {
            Seen::Leaf(_) => self.visit(node, walk),
            Seen::Branch(left, right) => {
                let before = self.walk(left, walk);
                let between = self.walk(right, before);
                self.visit(node, between)
            }
        }
    }

    /// The first segment of a version, which exists, that keeps nothing while its sides, where it has them, keep sums;
    /// or the next such one behind a segment of that version. The sides of a segment come before it, the left one first.
    pub fn ready(&self, place: &Place, after: Option<Node>) -> Option<Node>
        requires { IsSome (version_at self.now.circuits place.now.name place.now.version) }
        ensures value { result ≡ ready_from R.passed self.now (version_at self.now.circuits place.now.name place.now.version) after }
        ensures storable { IfSome result (IsStorable R.passed self.now) }
        ensures segment { IfSome result (λ k. is_segment self.now (version_at self.now.circuits place.now.name place.now.version) k ≡ true) }
    {
        match self.root(place) {
            None => None,
            Some(root) => self.walk(root, Walk::start(after)).outcome(),
        }
    }
}
