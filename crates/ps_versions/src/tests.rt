//! Worked circuits: seventeen gates and an edit of them, versions that come and go, and a limit that was passed.
ghost use Rattle.std.specs.Prelude.{◌≡◌, ◌<◌, ◌≤◌, true, cond, eqb, length, IsSome, IfSome};
ghost use Rattle.seg_tree.specs.Trees.{run_maybe};
ghost use Rattle.ps_versions.specs.Lookup.{place_of, circuit_at, version_at};
ghost use Rattle.ps_versions.specs.Lives.{IsLive, IsPinned, IsEarlier, HasFewPins};
ghost use Rattle.ps_versions.specs.Spliced.{latest_of, latest_tree};

use crate::{About, Kept, State, Versions, Weights};
use ps_script::{Name, Place};
use seg_tree::{Node, Nodes, Seen};
use std::alloc::{AllocError, Global};
use std::process::Abort;
use std::test::Fail;

/// What is kept in the tests.
#[derive(Clone, Copy)]
struct Note {
    passed: bool,
}

impl Kept for Note {
    ghost passed = { λ n. n.passed };

    fn is_passed(&self) -> bool {
        self.passed
    }
}

fn name(rt: &impl Abort, bytes: &[u8]) -> Name {
    match Name::of(bytes) {
        Some(name) => name,
        None => panic!(rt; "no name"),
    }
}

/// One circuit on 2 qubits, opened by entry 7, with items numbered from 0.
#[tactic(auto, using(crate::proofs::Telling::nobody))]
fn one_circuit(
    rt: &impl Abort,
    alloc: Global,
    name: Name,
    count: u64,
) -> Result<Versions<Note>, AllocError> {
    let mut items = Vec::new(alloc);
    for i in 0..count {
        items.push(i)?;
    }
    assert!(rt; items.len() <= 65536);
    let mut versions = Versions::new(alloc);
    versions.open(name, 2, &items, 7)?;
    Ok(versions)
}

/// Whether a version is there and live.
#[tactic(auto, using(crate::proofs::Telling::live_told))]
fn is_live(versions: &Versions<Note>, place: &Place) -> bool
    ensures { result ≡ true → IsLive (version_at versions.now.circuits place.now.name place.now.version) }
{
    if !versions.exists(place) {
        return false;
    }
    versions.state(place).retired.is_none()
}

/// Whether one more pin may stand on a version.
#[tactic(auto, using(crate::proofs::Telling::few_told))]
fn has_few_pins(versions: &Versions<Note>, place: &Place) -> bool
    ensures { result ≡ true → HasFewPins (version_at versions.now.circuits place.now.name place.now.version) }
{
    if !versions.exists(place) {
        return false;
    }
    versions.state(place).pins < 128
}

/// Whether a version is pinned.
#[tactic(auto, using(crate::proofs::Telling::pinned_told))]
fn is_pinned(versions: &Versions<Note>, place: &Place) -> bool
    ensures { result ≡ true → IsPinned (version_at versions.now.circuits place.now.name place.now.version) }
{
    if !versions.exists(place) {
        return false;
    }
    versions.state(place).pins > 0
}

/// Whether a version is not the latest of its circuit.
#[tactic(auto, using(crate::proofs::Telling::earlier_told))]
fn is_earlier(versions: &Versions<Note>, place: &Place) -> bool
    ensures { result ≡ true → IsEarlier (circuit_at versions.now.circuits place.now.name) place.now.version }
{
    match versions.circuit_of(place.name) {
        None => false,
        Some(about) => place.version < about.latest,
    }
}

/// The length of the latest version of a circuit, where the circuit may get one more.
#[tactic(auto, using(crate::proofs::Telling::there_told, crate::proofs::Telling::latest_told, crate::proofs::Telling::root_told))]
fn latest_len(versions: &Versions<Note>, name: Name) -> Option<u32>
    ensures there { IsSome result → IsSome (circuit_at versions.now.circuits name) }
    ensures number { IsSome result → latest_of (circuit_at versions.now.circuits name) < 4294967295 }
    ensures len { IfSome result (λ n. n ≡ length (run_maybe (latest_tree versions.now (place_of versions.now.circuits name)))) }
    ensures short { IfSome result (λ n. n ≤ 65536) }
{
    match versions.circuit_of(name) {
        None => None,
        Some(about) => {
            let place = Place {
                name,
                version: about.latest,
            };
            if about.latest == u32::MAX || !versions.exists(&place) {
                return None;
            }
            match versions.root(&place) {
                None => Some(0),
                Some(root) => Some(versions.nodes().len(root)),
            }
        }
    }
}

/// What is done to a circuit: a range is replaced by one item, or a version is retired, pinned or released.
#[derive(Clone, Copy)]
enum Deed {
    Splice(u32, u32, u64),
    Retire(u32, u32),
    Pin(u32),
    Unpin(u32, u32),
}

fn splice(
    rt: &impl Abort,
    versions: &mut Versions<Note>,
    name: Name,
    from: u32,
    to: u32,
    item: u64,
) -> Result<u32, AllocError> {
    match latest_len(versions, name) {
        None => panic!(rt; "no circuit"),
        Some(len) => {
            assert!(rt; from <= to);
            assert!(rt; to <= len);
            assert!(rt; len - (to - from) < 65536);
            versions.splice(name, from, to, &[item])
        }
    }
}

fn act(
    rt: &impl Abort,
    versions: &mut Versions<Note>,
    name: Name,
    deed: Deed,
) -> Result<(), AllocError> {
    match deed {
        Deed::Splice(from, to, item) => {
            let _ = splice(rt, versions, name, from, to, item)?;
        }
        Deed::Retire(version, entry) => {
            let place = Place { name, version };
            assert!(rt; is_live(versions, &place));
            assert!(rt; is_earlier(versions, &place));
            versions.retire(&place, entry);
        }
        Deed::Pin(version) => {
            let place = Place { name, version };
            assert!(rt; is_live(versions, &place));
            assert!(rt; has_few_pins(versions, &place));
            versions.pin(&place);
        }
        Deed::Unpin(version, entry) => {
            let place = Place { name, version };
            assert!(rt; is_pinned(versions, &place));
            versions.unpin(&place, entry);
        }
    }
    Ok(())
}

/// The numbers of the ready segments of a version, one behind the other.
fn all_ready(
    rt: &impl Abort,
    alloc: Global,
    versions: &Versions<Note>,
    place: &Place,
) -> Result<Vec<u64>, AllocError> {
    let mut out = Vec::new(alloc);
    let mut after = None;
    for _ in 0..100 {
        assert!(rt; versions.exists(place));
        match versions.ready(place, after) {
            None => return Ok(out),
            Some(node) => {
                out.push(node.number())?;
                after = Some(node);
            }
        }
    }
    Ok(out)
}

/// Keeps a note at the first ready segment of a version, by entry 20, and gives the segment's number.
#[tactic(auto, using(crate::proofs::Telling::reached_told))]
fn keep_first(
    rt: &impl Abort,
    versions: &mut Versions<Note>,
    place: &Place,
    passed: bool,
) -> Option<u64> {
    assert!(rt; versions.exists(place));
    assert!(rt; versions.state(place).ended.is_none());
    match versions.ready(place, None) {
        None => None,
        Some(node) => {
            versions.store(node, 20, Note { passed });
            Some(node.number())
        }
    }
}

/// Keeps sums at a version's segments until none is ready. Gives their numbers.
fn keep_all(
    rt: &impl Abort,
    alloc: Global,
    versions: &mut Versions<Note>,
    place: &Place,
) -> Result<Vec<u64>, AllocError> {
    let mut out = Vec::new(alloc);
    for _ in 0..100 {
        match keep_first(rt, versions, place, false) {
            None => return Ok(out),
            Some(number) => out.push(number)?,
        }
    }
    Ok(out)
}

/// The numbers of items of a tree's leaves, in order.
fn leaf_sizes(nodes: &Nodes, node: Node, out: &mut Vec<usize>) -> Result<(), AllocError>
    requires { node < length nodes.now }
{
    match nodes.look(node) {
        Seen::Leaf(items) => {
            out.push(items.len())?;
            Ok(())
        }
        Seen::Branch(left, right) => {
            leaf_sizes(nodes, left, out)?;
            leaf_sizes(nodes, right, out)
        }
    }
}

/// Asserts a version's missing number, its items, the sizes of its leaves, and its ready segments.
fn assert_version(
    rt: &impl Abort,
    alloc: Global,
    versions: &Versions<Note>,
    place: &Place,
    missing: u32,
    items: &[u64],
    sizes: &[usize],
    ready: &[u64],
) -> Result<(), AllocError> {
    assert_eq!(rt; versions.missing(place), Some(missing));
    assert!(rt; versions.exists(place));
    let mut found = Vec::new(alloc);
    match versions.root(place) {
        None => assert!(rt; items.is_empty()),
        Some(root) => {
            let nodes = versions.nodes();
            assert_eq!(rt; nodes.run_of(root)?.as_slice(), items);
            leaf_sizes(nodes, root, &mut found)?;
        }
    }
    assert_eq!(rt; found.as_slice(), sizes);
    let numbers = all_ready(rt, alloc, versions, place)?;
    assert_eq!(rt; numbers.as_slice(), ready);
    Ok(())
}

fn assert_settled(rt: &impl Abort, versions: &Versions<Note>, place: &Place, settled: bool) {
    assert!(rt; versions.exists(place));
    assert_eq!(rt; versions.settled(place), settled);
}

/// Asserts that the root of a version keeps a sum that entry 20 stored.
fn assert_root_kept(rt: &impl Abort, versions: &Versions<Note>, place: &Place) {
    assert!(rt; versions.exists(place));
    match versions.root(place) {
        None => panic!(rt; "no root"),
        Some(root) => match versions.kept_at(root) {
            None => panic!(rt; "nothing kept"),
            Some((entry, note)) => assert!(rt; entry == 20 && !note.passed),
        },
    }
}

#[test]
fn edits_seventeen(rt: HostRuntime) -> Result<(), Fail> {
    let alloc = rt.alloc();
    let name = name(&rt, b"a");
    let first = Place { name, version: 1 };
    let second = Place { name, version: 2 };
    let mut versions = one_circuit(&rt, alloc, name, 17)?;
    let about = About {
        qubits: 2,
        opened: 7,
        latest: 1,
    };
    assert_eq!(rt; versions.circuit_of(name), Some(about));
    let items = [0, 1, 2, 3, 4, 5, 6, 7, 8, 9, 10, 11, 12, 13, 14, 15, 16];
    assert_version(
        &rt,
        alloc,
        &versions,
        &first,
        5,
        &items,
        &[8, 8, 1],
        &[0, 1, 3],
    )?;
    assert_settled(&rt, &versions, &first, false);
    let order = keep_all(&rt, alloc, &mut versions, &first)?;
    assert_eq!(rt; order.as_slice(), [0, 1, 2, 3, 4].as_slice());
    assert_root_kept(&rt, &versions, &first);
    assert_eq!(rt; splice(&rt, &mut versions, name, 4, 5, 99)?, 2);
    let edited = [0, 1, 2, 3, 99, 5, 6, 7, 8, 9, 10, 11, 12, 13, 14, 15, 16];
    assert_version(
        &rt,
        alloc,
        &versions,
        &second,
        5,
        &edited,
        &[5, 3, 8, 1],
        &[5, 6, 8],
    )?;
    assert_settled(&rt, &versions, &second, false);
    assert_version(&rt, alloc, &versions, &first, 0, &items, &[8, 8, 1], &[])?;
    assert_settled(&rt, &versions, &first, true);
    Ok(())
}

fn state(retired: Option<u32>, pins: u32, ended: Option<u32>) -> State {
    State {
        retired,
        pins,
        ended,
    }
}

/// A version after one deed more.
fn assert_state(
    rt: &impl Abort,
    versions: &mut Versions<Note>,
    name: Name,
    deed: Deed,
    version: u32,
    want: State,
) -> Result<(), AllocError> {
    act(rt, versions, name, deed)?;
    let place = Place { name, version };
    assert!(rt; versions.exists(&place));
    assert_eq!(rt; versions.state(&place), want);
    Ok(())
}

#[test]
fn versions_come_and_go(rt: HostRuntime) -> Result<(), Fail> {
    let alloc = rt.alloc();
    let name = name(&rt, b"b_2");
    let mut versions = one_circuit(&rt, alloc, name, 1)?;
    for (deed, version, want) in [
        (Deed::Splice(0, 0, 5), 2, state(None, 0, None)),
        (Deed::Pin(1), 1, state(None, 1, None)),
        (Deed::Pin(1), 1, state(None, 2, None)),
        (Deed::Retire(1, 30), 1, state(Some(30), 2, None)),
        (Deed::Unpin(1, 31), 1, state(Some(30), 1, None)),
        (Deed::Unpin(1, 32), 1, state(Some(30), 0, Some(32))),
        (Deed::Splice(1, 2, 6), 3, state(None, 0, None)),
        (Deed::Retire(2, 33), 2, state(Some(33), 0, Some(33))),
        (Deed::Pin(3), 3, state(None, 1, None)),
        (Deed::Unpin(3, 34), 3, state(None, 0, None)),
    ] {
        assert_state(&rt, &mut versions, name, deed, version, want)?;
    }
    Ok(())
}

#[test]
fn a_limit_settles(rt: HostRuntime) -> Result<(), Fail> {
    let alloc = rt.alloc();
    let name = name(&rt, b"c");
    let place = Place { name, version: 1 };
    let mut versions = one_circuit(&rt, alloc, name, 9)?;
    assert_eq!(rt; keep_first(&rt, &mut versions, &place, true), Some(0));
    let items = [0, 1, 2, 3, 4, 5, 6, 7, 8];
    assert_version(&rt, alloc, &versions, &place, 2, &items, &[8, 1], &[1])?;
    assert_settled(&rt, &versions, &place, true);
    let empty = one_circuit(&rt, alloc, name, 0)?;
    assert_version(&rt, alloc, &empty, &place, 0, &[], &[], &[])?;
    assert_settled(&rt, &empty, &place, true);
    for version in [0, 2] {
        assert_eq!(rt; empty.missing(&Place { name, version }), None);
    }
    let other = crate::tests::name(&rt, b"d");
    assert_eq!(rt; empty.circuit_of(other), None);
    Ok(())
}

/// One node weighs more than the others.
#[derive(Clone, Copy)]
struct Heavy {
    number: u64,
}

impl Weights for Heavy {
    ghost weight = { λ w k. cond (eqb k w.number) 5 0 };

    fn weight(&self, node: Node) -> u32 {
        if node.number() == self.number { 5 } else { 0 }
    }
}

/// Asserts which ready segment is taken where one node is heavy: the number of its version, and its own.
fn assert_lightest(
    rt: &impl Abort,
    versions: &Versions<Note>,
    heavy: u64,
    want: Option<(Name, u32, u64)>,
) {
    match versions.lightest(&Heavy { number: heavy }) {
        None => assert!(rt; want.is_none()),
        Some(ready) => match want {
            None => panic!(rt; "nothing is ready"),
            Some((name, version, number)) => {
                assert!(rt; ready.place.name == name && ready.place.version == version);
                assert_eq!(rt; ready.node.number(), number);
            }
        },
    }
}

/// A circuit of nine items, the first leaf of which keeps a sum, and an edit of its last item. The versions have the
/// leaves 0 and 1 and the branch 2, and the leaves 0 and 3 and the branch 4.
fn edited(rt: &impl Abort, alloc: Global, name: Name) -> Result<Versions<Note>, AllocError> {
    let mut versions = one_circuit(rt, alloc, name, 9)?;
    let _ = keep_first(rt, &mut versions, &Place { name, version: 1 }, false);
    let _ = splice(rt, &mut versions, name, 8, 9, 50)?;
    Ok(versions)
}

#[test]
fn takes_the_lightest(rt: HostRuntime) -> Result<(), Fail> {
    let alloc = rt.alloc();
    let name = name(&rt, b"a");
    let mut versions = edited(&rt, alloc, name)?;
    for (heavy, version, number) in [(7, 1, 1), (1, 2, 3), (3, 1, 1)] {
        assert_lightest(&rt, &versions, heavy, Some((name, version, number)));
    }
    act(&rt, &mut versions, name, Deed::Retire(1, 30))?;
    assert_lightest(&rt, &versions, 3, Some((name, 2, 3)));
    let _ = keep_all(&rt, alloc, &mut versions, &Place { name, version: 2 })?;
    assert_lightest(&rt, &versions, 7, None);
    Ok(())
}

#[test]
fn orders_places(rt: HostRuntime) -> Result<(), Fail> {
    let alloc = rt.alloc();
    let name = name(&rt, b"a");
    let versions = edited(&rt, alloc, name)?;
    let first = Place { name, version: 1 };
    let second = Place { name, version: 2 };
    assert!(rt; versions.comes_before(&first, &second));
    assert!(rt; !versions.comes_before(&second, &first));
    assert!(rt; versions.exists(&second));
    match versions.lightest_at(&second, &Heavy { number: 7 }, None) {
        None => panic!(rt; "nothing is ready"),
        Some(ready) => assert!(rt; ready.node.number() == 3 && ready.place.version == 2),
    }
    Ok(())
}

#[test]
fn finds_the_first_limit(rt: HostRuntime) -> Result<(), Fail> {
    let alloc = rt.alloc();
    let name = name(&rt, b"a");
    let place = Place { name, version: 1 };
    let mut versions = one_circuit(&rt, alloc, name, 17)?;
    for (passed, want) in [(false, None), (true, Some(1))] {
        let _ = keep_first(&rt, &mut versions, &place, passed);
        assert!(rt; versions.exists(&place));
        match versions.first_passed(&place) {
            None => assert!(rt; want.is_none()),
            Some(node) => assert_eq!(rt; Some(node.number()), want),
        }
    }
    Ok(())
}

#[test]
fn tells_circuits_by_index(rt: HostRuntime) -> Result<(), Fail> {
    let alloc = rt.alloc();
    let name = name(&rt, b"a");
    let versions = across(one_circuit(&rt, alloc, name, 17)?);
    assert_eq!(rt; versions.count(), 1);
    assert!(rt; versions.count() > 0);
    let (found, about) = versions.circuit(0);
    assert!(rt; found == name && about.latest == 1);
    Ok(())
}

/// What may go to another thread.
fn cross<T: Send>(value: T) -> T {
    value
}

/// Versions may go to another thread where what is kept may.
fn across<R: Kept + Send>(versions: Versions<R>) -> Versions<R> {
    cross(versions)
}
