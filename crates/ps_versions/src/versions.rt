//! Circuits, versions and records.
ghost use Rattle.std.specs.Prelude.{◌≡◌, ◌<◌, ◌≤◌, ◌||◌, ℕ, true, is_none, nat_lt, [], None, Some, IsSome, IfSome, MatchOption, slice_get, slice_set, length};
ghost use Rattle.seg_tree.specs.Table.{tree};
ghost use Rattle.ps_versions.specs.Held.{Version};
ghost use Rattle.ps_versions.specs.Lookup.{place_of, circuit_at, version_in, version_at, root_of, replaced};
ghost use Rattle.ps_versions.specs.Lives.{is_kept, IsLife, IsLive, IsLiveAtEnd};
ghost use Rattle.ps_versions.specs.Told.{about, Tells};
ghost use Rattle.ps_versions.specs.Views.{version_of};
ghost use Rattle.ps_versions.specs.Records.{record_at, ChildrenHaveSums, IsOnce};
ghost use Rattle.ps_versions.specs.Questions.{below_have_sums};
ghost use Rattle.ps_versions.specs.Reached.{is_reached};

use crate::data::{About, Course, Edition, State, Stored};
use crate::kept::Kept;
use indexmap::IndexSet;
use ps_script::{Name, Place};
use seg_tree::{Node, Nodes};
use std::alloc::Global;
use std::marker::Model;

/// Circuits by name in order of opening, each with its versions, and what the segments of their trees keep.
#[derive(Drop)]
pub struct Versions<R: Kept> {
    pub(crate) names: IndexSet<Name>,
    pub(crate) courses: Vec<Course>,
    pub(crate) nodes: Nodes,
    pub(crate) records: Vec<Option<Stored<R>>>,
    /// How many records say that a limit was passed.
    pub(crate) passed: u64,
}

impl<R: Kept> Model for Versions<R> {
    ghost use Rattle.ps_versions.specs.Held.{Held, held_code};

    ghost Value = { Held R };

    ghost coded = { held_code R.code };

    ghost use Rattle.ps_versions.specs.Views.{seen, IsSound};

    ghost view = { seen };

    ghost invariant = { IsSound R.passed };
}

impl<R: Kept> Versions<R> {
    /// No circuit.
    pub fn new(alloc: Global) -> Versions<R>
        ensures circuits { result.circuits ≡ [] }
        ensures nodes { result.nodes ≡ [] }
        ensures kept { result.kept ≡ [] }
    {
        Versions {
            names: IndexSet::new(alloc),
            courses: Vec::new(alloc),
            nodes: Nodes::new(alloc),
            records: Vec::new(alloc),
            passed: 0,
        }
    }

    /// Where the circuit of a name stands in the order of opening, from 0.
    pub fn place_of(&self, name: &Name) -> Option<usize>
        ensures place { result ≡ place_of self.now.circuits name.now }
        ensures found { MatchOption result (circuit_at self.now.circuits name.now ≡ None) (λ i. (i < length self.now.circuits) × (circuit_at self.now.circuits name.now ≡ slice_get self.now.circuits i)) }
    {
        self.names.get_index_of(name)
    }

    /// The number of circuits.
    pub fn count(&self) -> usize
        ensures value { result ≡ length self.now.circuits }
        ensures few { result ≤ 256 }
    {
        self.courses.len()
    }

    /// The circuit at an index in the order of opening, from 0: its name, and what is told of it.
    pub fn circuit(&self, index: usize) -> (Name, About)
        requires { index < length self.now.circuits }
        ensures about { Some result.1 ≡ about (slice_get self.now.circuits index) }
        ensures name { IfSome (slice_get self.now.circuits index) (λ c. c.name ≡ result.0) }
        ensures named { circuit_at self.now.circuits result.0 ≡ slice_get self.now.circuits index }
        ensures place { place_of self.now.circuits result.0 ≡ Some index }
    {
        (self.name(index), self.course(index))
    }

    /// The name of the circuit at an index.
    pub(crate) fn name(&self, index: usize) -> Name
        requires { index < length self.now.circuits }
        ensures place { place_of self.now.circuits result ≡ Some index }
        ensures circuit { IfSome (slice_get self.now.circuits index) (λ c. c.name ≡ result) }
    {
        self.names.as_slice()[index]
    }

    /// What is told of the circuit at an index.
    pub(crate) fn course(&self, index: usize) -> About
        requires { index < length self.now.circuits }
        ensures about { Some result ≡ about (slice_get self.now.circuits index) }
        ensures latest { IsLive (version_in (slice_get self.now.circuits index) result.latest) }
    {
        let course = &self.courses[index];
        About {
            qubits: course.qubits,
            opened: course.opened,
            latest: course.editions.len() as u32,
        }
    }

    /// What is told of the circuit of a name, or None where there is none. Its latest version exists and is live.
    pub fn circuit_of(&self, name: Name) -> Option<About>
        ensures about { result ≡ about (circuit_at self.now.circuits name) }
        ensures latest { IfSome result (λ a. IsLive (version_at self.now.circuits name a.latest)) }
    {
        match self.place_of(&name) {
            None => None,
            Some(index) => Some(self.course(index)),
        }
    }

    /// The version at a place.
    pub(crate) fn edition(&self, place: &Place) -> &Edition
        requires { IsSome (version_at self.now.circuits place.now.name place.now.version) }
        ensures value { version_at self.now.circuits place.now.name place.now.version ≡ Some (version_of result.now) }
        ensures once { IsOnce self.now.nodes result.now.root }
        ensures life { IsLife (version_of result.now) }
        ensures live { IsLiveAtEnd (circuit_at self.now.circuits place.now.name) place.now.version result.now.retired }
    {
        match self.place_of(&place.name) {
            None => unreachable!(),
            Some(index) => {
                let course = &self.courses[index];
                &course.editions[(place.version - 1) as usize]
            }
        }
    }

    /// What is told of the version at a place, which exists. A version is kept while it is live or pinned, and it has an
    /// entry by which it stopped being kept exactly where it is not.
    pub fn state(&self, place: &Place) -> State
        requires { IsSome (version_at self.now.circuits place.now.name place.now.version) }
        ensures told { Tells (version_at self.now.circuits place.now.name place.now.version) result }
        ensures kept { is_none result.ended ≡ (is_none result.retired || nat_lt 0 result.pins) }
    {
        let edition = self.edition(place);
        State {
            retired: edition.retired,
            pins: edition.pins,
            ended: edition.ended,
        }
    }

    /// The root of the tree of the version at a place, which exists. No node stands twice in that tree.
    pub fn root(&self, place: &Place) -> Option<Node>
        requires { IsSome (version_at self.now.circuits place.now.name place.now.version) }
        ensures value { result ≡ root_of (version_at self.now.circuits place.now.name place.now.version) }
        ensures once { IsOnce self.now.nodes result }
    {
        self.edition(place).root
    }

    /// Puts another state of a version in the place of the old one.
    pub(crate) fn replace(&mut self, place: &Place, edition: Edition)
        requires there { IsSome (version_at self.old.circuits place.now.name place.now.version) }
        requires once { IsOnce self.old.nodes edition.root }
        requires life { IsLife (version_of edition) }
        requires live { IsLiveAtEnd (circuit_at self.old.circuits place.now.name) place.now.version edition.retired }
        ensures circuits { self.new.circuits ≡ replaced self.old.circuits place.now.name place.now.version (version_of edition) }
        ensures nodes { self.new.nodes ≡ self.old.nodes }
        ensures kept { self.new.kept ≡ self.old.kept }
    {
        match self.place_of(&place.name) {
            None => unreachable!(),
            Some(index) => {
                let course = &mut self.courses[index];
                course.editions[(place.version - 1) as usize] = edition;
            }
        }
    }

    /// The table of all nodes. There is a place for what each of them keeps.
    pub fn nodes(&self) -> &Nodes
        ensures nodes { result.now ≡ self.now.nodes }
        ensures kept { length self.now.kept ≡ length self.now.nodes }
    {
        &self.nodes
    }

    /// What a node keeps, with the entry that stored it. Where it keeps something, all segments below it keep sums.
    pub fn kept_at(&self, node: Node) -> Option<(u32, &R)>
        requires { node < length self.now.nodes }
        ensures below { IsSome result → below_have_sums self.now.kept R.passed (tree self.now.nodes node) ≡ true }
        ensures value { MatchOption result (record_at self.now.kept node ≡ None) (λ r. record_at self.now.kept node ≡ Some (r.0, r.1.now)) }
    {
        match &self.records[node.number() as usize] {
            None => None,
            Some(stored) => Some((stored.entry, &stored.kept)),
        }
    }
}

impl<R: Kept + Drop> Versions<R> {
    /// Keeps a value at a node that keeps none and is a segment of a kept version, and the sides of which, where it has
    /// them, keep sums.
    pub fn store(&mut self, node: Node, entry: u32, kept: R)
        requires there { node < length self.old.nodes }
        requires free { record_at self.old.kept node ≡ None }
        requires ready { ChildrenHaveSums R.passed self.old.kept (tree self.old.nodes node) }
        requires reached { is_reached self.old node ≡ true }
        ensures kept { self.new.kept ≡ slice_set self.old.kept node (Some (entry, kept)) }
        ensures stored { record_at self.new.kept node ≡ Some (entry, kept) }
        ensures circuits { self.new.circuits ≡ self.old.circuits }
        ensures nodes { self.new.nodes ≡ self.old.nodes }
    {
        let _ = self.nodes.look(node);
        self.passed += u64::from(kept.is_passed());
        self.records[node.number() as usize] = Some(Stored { entry, kept });
    }
}
