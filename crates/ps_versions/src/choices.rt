//! Which of the ready segments is taken next: the lightest of the first version that has it.
ghost use Rattle.std.specs.Prelude.{◌≡◌, ◌<◌, ◌&&◌, ℕ, true, [], ◌∷◌, Option, Some, None, IsSome, is_none, slice_get, length};
ghost use Rattle.std.specs.List.{list_all};
ghost use Rattle.seg_tree.specs.Table.{tree, root_tree, IsRoot};
ghost use Rattle.ps_versions.specs.Held.{Circuit};
ghost use Rattle.ps_versions.specs.Lookup.{version_at};
ghost use Rattle.ps_versions.specs.Views.{version_of};
ghost use Rattle.ps_versions.specs.Questions.{segments, is_ready, settled_in, is_settled};
ghost use Rattle.ps_versions.specs.declared.data.Ready.{Ready};
ghost use Rattle.ps_versions.specs.Choices.{lightest, lighter_of, names_where, ready_at, open_in, open_at, open_from, open_segments, is_done, all_settled, comes_before};

use crate::data::{Edition, Ready};
use crate::kept::Kept;
use crate::versions::Versions;
use ps_script::{Name, Place};
use seg_tree::{Node, Seen};

/// How much stands against taking a node, as the number of those that are at it already.
pub trait Weights {
    ghost weight: { Self → ℕ → ℕ };

    /// The weight of a node.
    fn weight(&self, node: Node) -> u32
        ensures { result ≡ weight self.now node };
}

/// The lighter one of two, and the first where they weigh the same.
fn lighter_of<W: Weights>(weights: &W, first: Option<Ready>, second: Ready) -> Option<Ready>
    ensures { result ≡ lighter_of (W.weight weights.now) first (Some second) }
{
    match first {
        None => Some(second),
        Some(first) => {
            if weights.weight(second.node) < weights.weight(first.node) {
                Some(second)
            } else {
                Some(first)
            }
        }
    }
}

/// Whether nothing is lighter than what was found.
fn is_least<W: Weights>(weights: &W, best: &Option<Ready>) -> bool
    ensures { result ≡ true → (other : Option Ready) → lighter_of (W.weight weights.now) best.now other ≡ best.now }
{
    match best {
        None => false,
        Some(best) => weights.weight(best.node) == 0,
    }
}

impl<R: Kept> Versions<R> {
    /// Of what was found before and a node, where it is ready, the lighter one.
    fn weigh<W: Weights>(
        &self,
        node: Node,
        place: &Place,
        weights: &W,
        best: Option<Ready>,
    ) -> Option<Ready>
        requires { node < length self.now.nodes }
        ensures { result ≡ lighter_of (W.weight weights.now) best (lightest (W.weight weights.now) (ready_at place.now (names_where (is_ready self.now.kept R.passed) (tree self.now.nodes node ∷ [])))) }
    {
        let _ = self.look(node);
        if !self.is_ready(node) {
            return best;
        }
        let ready = Ready {
            place: *place,
            node,
        };
        lighter_of(weights, best, ready)
    }

    /// Of what was found before and the ready segments of a node's tree, the lightest.
    fn lighten<W: Weights>(
        &self,
        node: Node,
        place: &Place,
        weights: &W,
        best: Option<Ready>,
    ) -> Option<Ready>
        requires { node < length self.now.nodes }
        ensures { result ≡ lighter_of (W.weight weights.now) best (lightest (W.weight weights.now) (ready_at place.now (names_where (is_ready self.now.kept R.passed) (segments (tree self.now.nodes node))))) }
    {
        if is_least(weights, &best) {
            return best;
        }
        if !self.lacks(node) {
            return best;
        }
        match self.look(node) {
            Seen::Leaf(_) => self.weigh(node, place, weights, best),
            Seen::Branch(left, right) => {
                let first = self.lighten(left, place, weights, best);
                let second = self.lighten(right, place, weights, first);
                self.weigh(node, place, weights, second)
            }
        }
    }

    /// The same of a version's tree, which is passed over where it is settled.
    fn lighten_tree<W: Weights>(
        &self,
        root: &Option<Node>,
        place: &Place,
        weights: &W,
        best: Option<Ready>,
    ) -> Option<Ready>
        requires { IsRoot self.now.nodes root.now }
        ensures value { result ≡ lighter_of (W.weight weights.now) best (lightest (W.weight weights.now) (open_in R.passed self.now place.now root.now)) }
        ensures none { is_none result ≡ (is_none best && settled_in self.now.kept R.passed (root_tree self.now.nodes root.now)) }
    {
        match root {
            None => best,
            Some(root) => {
                let _ = self.height(*root);
                if self.is_settled(*root) {
                    return best;
                }
                self.lighten(*root, place, weights, best)
            }
        }
    }

    /// Of what was found before and the ready segments of a version, which exists, the first with the least weight. A
    /// settled version is passed over. None comes exactly where nothing was found before and the version is settled.
    pub fn lightest_at<W: Weights>(
        &self,
        place: &Place,
        weights: &W,
        best: Option<Ready>,
    ) -> Option<Ready>
        requires { IsSome (version_at self.now.circuits place.now.name place.now.version) }
        ensures value { result ≡ lighter_of (W.weight weights.now) best (lightest (W.weight weights.now) (open_at R.passed self.now place.now)) }
        ensures none { is_none result ≡ (is_none best && is_settled R.passed self.now (version_at self.now.circuits place.now.name place.now.version)) }
    {
        let root = self.root(place);
        self.lighten_tree(&root, place, weights, best)
    }

    /// The version of a circuit at an index among its versions, from 0.
    fn edition_at(&self, index: usize, number: u32) -> &Edition
        requires circuit { index < length self.now.circuits }
        requires version { (c : Circuit) → slice_get self.now.circuits index ≡ Some c → number < length c.versions }
        ensures value { (c : Circuit) → slice_get self.now.circuits index ≡ Some c → slice_get c.versions number ≡ Some (version_of result.now) }
        ensures there { IsRoot self.now.nodes result.now.root }
    {
        let course = &self.courses[index];
        &course.editions[number as usize]
    }

    /// The same of one version of a circuit, which is passed over where it is not kept.
    fn lighten_version<W: Weights>(
        &self,
        edition: &Edition,
        place: &Place,
        weights: &W,
        best: Option<Ready>,
    ) -> Option<Ready>
        requires { IsRoot self.now.nodes edition.now.root }
        ensures value { result ≡ lighter_of (W.weight weights.now) best (lightest (W.weight weights.now) (open_from R.passed self.now place.now.name place.now.version (version_of edition.now ∷ []))) }
        ensures none { is_none result ≡ (is_none best && is_done R.passed self.now (version_of edition.now)) }
    {
        if edition.retired.is_some() && edition.pins == 0 {
            return best;
        }
        self.lighten_tree(&edition.root, place, weights, best)
    }

    /// The same of all versions of a circuit.
    fn lighten_circuit<W: Weights>(
        &self,
        index: usize,
        weights: &W,
        best: Option<Ready>,
    ) -> Option<Ready>
        requires { index < length self.now.circuits }
        ensures value { (c : Circuit) → slice_get self.now.circuits index ≡ Some c → result ≡ lighter_of (W.weight weights.now) best (lightest (W.weight weights.now) (open_from R.passed self.now c.name 1 c.versions)) }
        ensures none { (c : Circuit) → slice_get self.now.circuits index ≡ Some c → is_none result ≡ (is_none best && list_all (is_done R.passed self.now) c.versions) }
    {
        let name = self.name(index);
        let mut best = best;
        for number in 0..self.course(index).latest {
            let place = Place {
                name,
                version: number + 1,
            };
            best = self.lighten_version(self.edition_at(index, number), &place, weights, best);
        }
        best
    }

    /// The ready segment with the least weight, over all kept versions that are not settled; of those with the least
    /// weight the first, by circuit in order of opening, by version, and by segment, the sides of each before it. None
    /// comes exactly where every kept version is settled.
    pub fn lightest<W: Weights>(&self, weights: &W) -> Option<Ready>
        ensures value { result ≡ lightest (W.weight weights.now) (open_segments R.passed self.now) }
        ensures none { is_none result ≡ all_settled R.passed self.now }
    {
        let mut best = None;
        for index in 0..self.count() {
            best = self.lighten_circuit(index, weights, best);
        }
        best
    }

    /// Whether a place comes before another: its circuit was opened before, or it is the earlier version of one circuit.
    pub fn comes_before(&self, first: &Place, second: &Place) -> bool
        ensures { result ≡ comes_before self.now.circuits first.now second.now }
    {
        match self.place_of(&first.name) {
            None => false,
            Some(before) => match self.place_of(&second.name) {
                None => false,
                Some(behind) => {
                    before < behind || (before == behind && first.version < second.version)
                }
            },
        }
    }
}
