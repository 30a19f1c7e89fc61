//! How circuits are opened.
ghost use Rattle.std.specs.Prelude.{◌≡◌, ◌<◌, ◌≤◌, ◌+◌, ◌-◌, ◌++◌, [], ◌∷◌, None, false, length, replicate, IfOk, OnOk, OnErr, nat_eq, vec_len, vec_capacity};
ghost use Rattle.std.specs.Cmp.Lexicographic.{pointwise};
ghost use Rattle.indexmap.specs.IndexSet.{spare, contains};
ghost use Rattle.ps_versions.specs.Lookup.{circuit_at};
ghost use Rattle.ps_versions.specs.Opened.{Opens};

use crate::data::{Course, Edition, Stored};
use crate::kept::Kept;
use crate::versions::Versions;
use indexmap::IndexSet;
use ps_script::Name;
use std::alloc::AllocError;

impl<R: Kept> Versions<R> {
    /// Opens a circuit with one version, the tree of which is built of the items. The name is new, and fewer than 256
    /// circuits are there. Where memory is wanting, all stays as it was.
    pub fn open(
        &mut self,
        name: Name,
        qubits: u32,
        items: &[u64],
        entry: u32,
    ) -> Result<(), AllocError>
        requires new { circuit_at self.old.circuits name ≡ None }
        requires few { length self.old.circuits < 256 }
        requires fits { length items.now ≤ 65536 }
        ensures opened { OnOk result (Opens self.old self.new name qubits items.now entry) }
        ensures err { OnErr result (self.new ≡ self.old) }
    {
        let Ok(mut editions) = make_room(
            &mut self.names,
            &mut self.courses,
            &mut self.records,
            2 * items.len(),
        ) else {
            return Err(AllocError);
        };
        let Ok(root) = self.nodes.build(items) else {
            return Err(AllocError);
        };
        fill(&mut self.records, self.nodes.count() as usize);
        editions.push_reserved(Edition {
            root,
            retired: None,
            ended: None,
            pins: 0,
        });
        let course = Course {
            qubits,
            opened: entry,
            editions,
        };
        add_course(&mut self.names, &mut self.courses, name, course);
        Ok(())
    }
}

/// Room for one circuit more and for so many more records, and a list with room for one version.
fn make_room<R>(
    names: &mut IndexSet<Name>,
    courses: &mut Vec<Course>,
    records: &mut Vec<Option<Stored<R>>>,
    more: usize,
) -> Result<Vec<Edition>, AllocError>
    ensures names { names.new.keys ≡ names.old.keys }
    ensures courses { courses.new.items ≡ courses.old.items }
    ensures records { records.new.items ≡ records.old.items }
    ensures name { OnOk result (0 < spare names.new) }
    ensures course { OnOk result (vec_len courses.new < vec_capacity courses.new) }
    ensures record { OnOk result (vec_len records.new + more ≤ vec_capacity records.new) }
    ensures editions { IfOk result (λ v. (v.items ≡ []) × (vec_len v < vec_capacity v)) }
{
    names.reserve(1)?;
    courses.reserve(1)?;
    records.reserve(more)?;
    Vec::with_capacity(*courses.allocator(), 1)
}

/// One circuit more, for which there is room.
fn add_course(names: &mut IndexSet<Name>, courses: &mut Vec<Course>, name: Name, course: Course)
    requires new { contains (pointwise nat_eq) names.old name ≡ false }
    requires name { 0 < spare names.old }
    requires course { vec_len courses.old < vec_capacity courses.old }
    ensures names { names.new.keys ≡ names.old.keys ++ name ∷ [] }
    ensures courses { courses.new.items ≡ courses.old.items ++ course ∷ [] }
{
    courses.push_reserved(course);
    match names.insert(name) {
        Ok(_) => (),
        Err(_) => unreachable!(),
    }
}

/// Fills a column up to a number of places, for which there is room.
pub(crate) fn fill<R>(records: &mut Vec<Option<Stored<R>>>, count: usize)
    requires longer { vec_len records.old ≤ count }
    requires room { count ≤ vec_capacity records.old }
    ensures items { records.new.items ≡ records.old.items ++ replicate (count - vec_len records.old) None }
    ensures len { vec_len records.new ≡ count }
{
    while records.len() < count {
        records.push_reserved(None);
    }
}
