//! How versions are retired, pinned and released.
ghost use Rattle.std.specs.Prelude.{◌≡◌, ◌<◌, ◌+◌, Some, None, length};
ghost use Rattle.ps_versions.specs.Held.{Version};
ghost use Rattle.ps_versions.specs.Lookup.{version_at, circuit_at, replaced};
ghost use Rattle.ps_versions.specs.Lives.{retired, pinned, unpinned, IsLive, IsPinned, IsEarlier, HasFewPins, ChangesTo, ended_where_free, ended_after};
ghost use Rattle.ps_versions.specs.Reached.{KeepsReached};

use crate::data::Edition;
use crate::kept::Kept;
use crate::versions::Versions;
use ps_script::Place;

impl<R: Kept> Versions<R> {
    /// Marks a version as retired by an entry. It is live, and not the latest of its circuit.
    pub fn retire(&mut self, place: &Place, entry: u32)
        requires live { IsLive (version_at self.old.circuits place.now.name place.now.version) }
        requires earlier { IsEarlier (circuit_at self.old.circuits place.now.name) place.now.version }
        ensures circuits { ChangesTo (retired entry) self.old.circuits self.new.circuits place.now.name place.now.version }
        ensures nodes { self.new.nodes ≡ self.old.nodes }
        ensures kept { self.new.kept ≡ self.old.kept }
        ensures records { KeepsReached self.old self.new }
    {
        let edition = self.edition(place);
        let next = Edition {
            root: edition.root,
            retired: Some(entry),
            ended: ended_where_free(edition.pins, entry),
            pins: edition.pins,
        };
        self.replace(place, next);
    }

    /// Puts one more pin on a version, which is live and has fewer than 128.
    pub fn pin(&mut self, place: &Place)
        requires live { IsLive (version_at self.old.circuits place.now.name place.now.version) }
        requires room { HasFewPins (version_at self.old.circuits place.now.name place.now.version) }
        ensures circuits { ChangesTo pinned self.old.circuits self.new.circuits place.now.name place.now.version }
        ensures nodes { self.new.nodes ≡ self.old.nodes }
        ensures kept { self.new.kept ≡ self.old.kept }
        ensures records { KeepsReached self.old self.new }
    {
        let edition = self.edition(place);
        let next = Edition {
            root: edition.root,
            retired: edition.retired,
            ended: edition.ended,
            pins: edition.pins + 1,
        };
        self.replace(place, next);
    }

    /// Takes one pin off a version that has one. A retired version stops being kept with its last pin, by this entry.
    pub fn unpin(&mut self, place: &Place, entry: u32)
        requires { IsPinned (version_at self.old.circuits place.now.name place.now.version) }
        ensures circuits { ChangesTo (unpinned entry) self.old.circuits self.new.circuits place.now.name place.now.version }
        ensures nodes { self.new.nodes ≡ self.old.nodes }
        ensures kept { self.new.kept ≡ self.old.kept }
        ensures records { KeepsReached self.old self.new }
    {
        let edition = self.edition(place);
        let pins = edition.pins - 1;
        let next = Edition {
            root: edition.root,
            retired: edition.retired,
            ended: ended_after(edition.retired, pins, entry, edition.ended),
            pins,
        };
        self.replace(place, next);
    }
}

/// The entry by which a version stops being kept when it is retired, where nothing pins it.
fn ended_where_free(pins: u32, entry: u32) -> Option<u32>
    ensures { result ≡ ended_where_free pins entry }
{
    if pins == 0 { Some(entry) } else { None }
}

/// The entry by which a version stopped being kept, with so many pins left.
fn ended_after(retired: Option<u32>, pins: u32, entry: u32, ended: Option<u32>) -> Option<u32>
    ensures { result ≡ ended_after retired pins entry ended }
{
    match retired {
        None => ended,
        Some(_) => { if pins == 0 { Some(entry) } else { ended } }
    }
}
