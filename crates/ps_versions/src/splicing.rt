//! How a circuit gets its next version.
ghost use Rattle.std.specs.Prelude.{◌≡◌, ◌<◌, ◌≤◌, ◌+◌, ◌-◌, ◌*◌, [], ◌∷◌, Some, None, IsSome, slice_get, length, IfOk, OnOk, OnErr, vec_len, vec_capacity};
ghost use Rattle.seg_tree.specs.Trees.{run_maybe};
ghost use Rattle.seg_tree.specs.Measures.{height_maybe};
ghost use Rattle.seg_tree.specs.Table.{root_tree, IsRoot};
ghost use Rattle.ps_versions.specs.Lookup.{place_of, circuit_at};
ghost use Rattle.ps_versions.specs.Records.{IsOnce};
ghost use Rattle.ps_versions.specs.Spliced.{latest_of, latest_root, latest_tree, SplicesAt, Splices};
ghost use Rattle.ps_versions.specs.Gains.{Gains, HasRoom, HasCount};

use crate::data::{Course, Edition, Stored};
use crate::kept::Kept;
use crate::opening::fill;
use crate::versions::Versions;
use ps_script::Name;
use seg_tree::Node;
use std::alloc::AllocError;

impl<R: Kept> Versions<R> {
    /// Gives a circuit its next version, and the number of that version. Its items are those of the latest version with
    /// the ones from a place to another replaced by other items, at most 65,536, and so is their number afterwards. The
    /// circuit is there, and the number of its latest version is below 4,294,967,295. The new version shares the
    /// segments outside the range with the latest one, so few of its segments keep nothing that kept something there.
    /// Where memory is wanting, all stays as it was.
    pub fn splice(
        &mut self,
        name: Name,
        from: u32,
        to: u32,
        items: &[u64],
    ) -> Result<u32, AllocError>
        requires there { IsSome (circuit_at self.old.circuits name) }
        requires number { latest_of (circuit_at self.old.circuits name) < 4294967295 }
        requires order { from ≤ to }
        requires within { to ≤ length (run_maybe (latest_tree self.old (place_of self.old.circuits name))) }
        requires inserted { length items.now ≤ 65536 }
        requires fits { length (run_maybe (latest_tree self.old (place_of self.old.circuits name))) - (to - from) + length items.now ≤ 65536 }
        ensures spliced { IfOk result (λ number. Splices self.old self.new name from to items.now number) }
        ensures err { OnErr result (self.new ≡ self.old) }
    {
        match self.place_of(&name) {
            None => unreachable!(),
            Some(index) => self.splice_at(index, from, to, items),
        }
    }

    /// The root of the latest version of a circuit.
    fn latest_root(&self, index: usize) -> Option<Node>
        requires { index < length self.now.circuits }
        ensures value { result ≡ latest_root (slice_get self.now.circuits index) }
        ensures once { IsOnce self.now.nodes result }
    {
        let course = &self.courses[index];
        let count = course.editions.len();
        if count == 0 {
            return None;
        }
        course.editions[count - 1].root
    }

    /// The height of a tree that may be empty.
    fn height_below(&self, root: &Option<Node>) -> u32
        requires { IsRoot self.now.nodes root.now }
        ensures value { result ≡ height_maybe (root_tree self.now.nodes root.now) }
        ensures low { result ≤ 32 }
    {
        match root {
            None => 0,
            Some(node) => self.height(*node),
        }
    }

    /// The next version of the circuit at a place among the circuits.
    fn splice_at(
        &mut self,
        index: usize,
        from: u32,
        to: u32,
        items: &[u64],
    ) -> Result<u32, AllocError>
        requires there { index < length self.old.circuits }
        requires number { latest_of (slice_get self.old.circuits index) < 4294967295 }
        requires order { from ≤ to }
        requires within { to ≤ length (run_maybe (latest_tree self.old (Some index))) }
        requires inserted { length items.now ≤ 65536 }
        requires fits { length (run_maybe (latest_tree self.old (Some index))) - (to - from) + length items.now ≤ 65536 }
        ensures spliced { IfOk result (λ number. SplicesAt self.old self.new (Some index) from to items.now number) }
        ensures err { OnErr result (self.new ≡ self.old) }
    {
        let root = self.latest_root(index);
        let _ = self.height_below(&root);
        // no tree is higher than 32
        let more = 64 * 33 + 2 * items.len();
        let Ok(count) = make_place(&mut self.courses, index, &mut self.records, more) else {
            return Err(AllocError);
        };
        let Ok(next) = self.nodes.splice(root, from, to, items) else {
            return Err(AllocError);
        };
        fill(&mut self.records, self.nodes.count() as usize);
        add_version(&mut self.courses, index, next);
        Ok(count as u32 + 1)
    }
}

/// Room for one version more of a circuit and for so many more records. Gives the number of the circuit's versions.
fn make_place<R>(
    courses: &mut Vec<Course>,
    index: usize,
    records: &mut Vec<Option<Stored<R>>>,
    more: usize,
) -> Result<usize, AllocError>
    requires { index < vec_len courses.old }
    ensures courses { Gains courses.old.items courses.new.items index [] }
    ensures records { records.new.items ≡ records.old.items }
    ensures count { IfOk result (λ n. HasCount courses.old.items index n) }
    ensures version { OnOk result (HasRoom courses.new.items index) }
    ensures record { OnOk result (vec_len records.new + more ≤ vec_capacity records.new) }
{
    let Ok(count) = reserve_version(courses, index) else {
        return Err(AllocError);
    };
    let Ok(()) = records.reserve(more) else {
        return Err(AllocError);
    };
    Ok(count)
}

/// Room for one version more of a circuit, and the number of its versions.
fn reserve_version(courses: &mut Vec<Course>, index: usize) -> Result<usize, AllocError>
    requires { index < vec_len courses.old }
    ensures courses { Gains courses.old.items courses.new.items index [] }
    ensures count { IfOk result (λ n. HasCount courses.old.items index n) }
    ensures room { OnOk result (HasRoom courses.new.items index) }
{
    let course = &mut courses[index];
    let count = course.editions.len();
    match course.editions.reserve(1) {
        Ok(()) => Ok(count),
        Err(e) => Err(e),
    }
}

/// One version more of a circuit, for which there is room.
fn add_version(courses: &mut Vec<Course>, index: usize, root: Option<Node>)
    requires there { index < vec_len courses.old }
    requires room { HasRoom courses.old.items index }
    ensures { Gains courses.old.items courses.new.items index (record { root = root; retired = None; ended = None; pins = 0 } ∷ []) }
{
    let course = &mut courses[index];
    course.editions.push_reserved(Edition {
        root,
        retired: None,
        ended: None,
        pins: 0,
    });
}
