ghost use Rattle.std.specs.Prelude.{◌≡◌, [], IfOk};
ghost use Rattle.ps_normal.specs.Fillings.{CanRun};

use crate::{line, text, words};
use ps_journal::{Cmd, Entry, Outcome, Reply, Shared};
use ps_normal::same_gates;
use ps_prim::{Item, Prim};
use ps_reach::{Items, Judged, Mode};
use ps_ring::Angle;
use ps_script::Name;
use qasm_expand::FaultName;
use std::alloc::{AllocError, Global};
use std::sync::Arc;
use std::test::Fail;

// Whether the words of a reply are these.
fn reads(alloc: Global, reply: &Reply, wanted: &str) -> Result<bool, AllocError> {
    Ok(&words(alloc, reply)?[..] == wanted.as_bytes())
}

// No item.
fn nothing(alloc: Global) -> Result<Arc<Items>, AllocError>
    ensures { IfOk result (λ s. CanRun 1 s.value) }
{
    Ok(Arc::new(alloc, Items::from_vec(Vec::new(alloc)))?)
}

// Nothing beside nothing, on one qubit.
fn judged(alloc: Global) -> Result<Judged, AllocError> {
    same_gates(alloc, &nothing(alloc)?, &nothing(alloc)?, 1, Mode::Exact)
}

// An item of two gates, and one of none.
fn two_items(alloc: Global) -> Result<Items, AllocError> {
    let turn = Prim::U {
        theta: Angle::of(1),
        phi: Angle::of(20),
        lambda: Angle::of(4_294_967_295),
        q: 7,
    };
    let flip = Prim::Cx { c: 0, t: 63 };
    let first = Arc::new(alloc, Item::new(vec![in alloc; turn, flip]?))?;
    let second = Arc::new(alloc, Item::new(Vec::new(alloc)))?;
    Ok(Items::from_vec(vec![in alloc; first, second]?))
}

#[test]
fn plain_replies(rt: HostRuntime) -> Result<(), Fail> {
    let alloc = rt.alloc();
    let bad = Reply::Bad {
        name: FaultName::NotDyadic,
        line: 1,
        column: 4,
    };
    let version = Reply::Committed {
        version: 2,
        missing: 5,
    };
    let table = [
        (Reply::Opened { missing: 17 }, "opened 1 missing 17"),
        (version, "committed 2 missing 5"),
        (Reply::Retired { claims: 6 }, "retired"),
        (Reply::NameTaken(0), "name taken 0"),
        (Reply::CircuitsFull, "circuits full"),
        (bad, "bad NotDyadic 1:4"),
        (Reply::NoCircuit, "no circuit"),
        (Reply::NoVersion(2), "no version 2"),
        (Reply::WasRetired(6), "was retired 6"),
        (Reply::IsLatest, "latest"),
        (Reply::Stale(2), "stale 2"),
        (Reply::Span(1), "span 1"),
        (Reply::TooLong(65_537), "too long 65537"),
        (Reply::Nothing, "nothing"),
        (Reply::Widths(1, 2), "widths 1 2"),
        (Reply::NoPin, "no pin"),
        (Reply::OtherRun, "other run"),
        (Reply::NoRoom(8_454_144), "no room 8454144"),
        (Reply::NotCrowded, "not crowded"),
        (Reply::Unsettled(1), "unsettled 1"),
        (Reply::Memory, "memory"),
        (Reply::Pinned, ""),
        (Reply::Already(3), ""),
    ];
    for (reply, wanted) in &table {
        assert!(rt; reads(alloc, reply, wanted)?);
    }
    Ok(())
}

#[test]
fn replies_that_share(rt: HostRuntime) -> Result<(), Fail> {
    let alloc = rt.alloc();
    let items = Shared::new(alloc, two_items(alloc)?)?;
    let shown = "shown 2\nU 1,20,4294967295 7; CX 0 63\n-";
    assert!(rt; reads(alloc, &Reply::Shown(items), shown)?);
    let judged = judged(alloc)?;
    let record = Shared::of(Arc::try_clone(&judged.first)?);
    assert!(rt; reads(alloc, &Reply::SumIs(record), "sum k=0 m=0 P=0 f=x0")?);
    let judged = Shared::new(alloc, judged)?;
    let plain = Reply::Answered {
        judged: judged.share()?,
        proof: false,
    };
    assert!(rt; reads(alloc, &plain, "yes")?);
    let proof = Reply::Answered {
        judged,
        proof: true,
    };
    let wanted = "proof 6\npathsum 1\nid a\nid b\noverlap\nelim 0\nend";
    assert!(rt; reads(alloc, &proof, wanted)?);
    Ok(())
}

// Entries that end a command have a line each, of the session that is one below the seat.
#[test]
fn journals(rt: HostRuntime) -> Result<(), Fail> {
    let alloc = rt.alloc();
    let next = Entry {
        seat: 17,
        cmd: Cmd::Next { pinned: false },
        reply: Reply::Idle,
    };
    let name = Name::of(b"g").expect(&rt, "a name");
    let retired = Entry {
        seat: 1,
        cmd: Cmd::Retire { name, version: 1 },
        reply: Reply::NoCircuit,
    };
    let answer = Entry {
        seat: 16,
        cmd: Cmd::Answer {
            outcome: Outcome::Starved,
        },
        reply: Reply::Memory,
    };
    assert!(rt; line(alloc, &next)?.is_empty());
    assert!(rt; &line(alloc, &answer)?[..] == b"15 memory\n".as_slice());
    let journal = vec![in alloc; next, retired, answer]?;
    assert!(rt; &text(alloc, &journal)?[..] == b"0 no circuit\n15 memory\n".as_slice());
    Ok(())
}
