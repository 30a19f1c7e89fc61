//! Worked rows: an editing session, refusals in their order, and limits at their numbers.

use crate::Book;
use ps_desk::Object;
use ps_journal::{Cmd, Outcome, Reply};
use ps_script::{Name, Place, Text};
use qasm_expand::FaultName;
use std::alloc::{AllocError, Global};
use std::process::Abort;
use std::sync::Arc;
use std::test::Fail;

const HEAD: &[u8] = b"OPENQASM 2.0;\ninclude \"qelib1.inc\";\n";

fn turn(rt: &impl Abort, book: &mut Book, seat: u32, cmd: Cmd) -> Reply {
    assert!(rt; seat < 64 && book.journal().len() < 262_144);
    book.apply(seat, cmd)
}

fn name(rt: &impl Abort, bytes: &[u8]) -> Name {
    match Name::of(bytes) {
        Some(name) => name,
        None => panic!(rt; "no name"),
    }
}

fn place(rt: &impl Abort, bytes: &[u8], version: u32) -> Place {
    Place {
        name: name(rt, bytes),
        version,
    }
}

/// The header, the register, and a line so many times.
fn text(
    alloc: Global,
    register: &[u8],
    times: usize,
    line: &[u8],
) -> Result<Arc<Text>, AllocError> {
    let mut bytes = Vec::new(alloc);
    bytes.extend_from_slice(HEAD)?;
    bytes.extend_from_slice(register)?;
    for _ in 0..times {
        bytes.extend_from_slice(line)?;
    }
    bytes.truncate(16_777_216);
    Ok(Arc::new(alloc, Text::from_vec(bytes))?)
}

fn block(alloc: Global, line: &[u8]) -> Result<Arc<Text>, AllocError> {
    let mut bytes = Vec::new(alloc);
    bytes.extend_from_slice(line)?;
    bytes.truncate(16_777_216);
    Ok(Arc::new(alloc, Text::from_vec(bytes))?)
}

fn splice(
    rt: &impl Abort,
    alloc: Global,
    book: &mut Book,
    base: u32,
    from: u32,
    to: u32,
    line: &[u8],
) -> Result<Reply, AllocError> {
    let block = block(alloc, line)?;
    let name = name(rt, b"g");
    Ok(turn(
        rt,
        book,
        1,
        Cmd::Splice {
            name,
            base,
            from,
            to,
            block,
        },
    ))
}

/// What seat 1 is told of a place.
fn read(rt: &impl Abort, book: &mut Book, bytes: &[u8], version: u32) -> Reply {
    turn(
        rt,
        book,
        1,
        Cmd::Read {
            place: place(rt, bytes, version),
        },
    )
}

/// What seat 1 is told when it retires a version of `g`.
fn retire(rt: &impl Abort, book: &mut Book, version: u32) -> Reply {
    turn(
        rt,
        book,
        1,
        Cmd::Retire {
            name: name(rt, b"g"),
            version,
        },
    )
}

/// What seat 1 is told when it opens a circuit on two qubits with no item.
fn open_two(rt: &impl Abort, alloc: Global, book: &mut Book) -> Result<Reply, AllocError> {
    let two = text(alloc, b"qreg q[2];\n", 0, b"")?;
    Ok(turn(
        rt,
        book,
        1,
        Cmd::Open {
            name: name(rt, b"g"),
            text: two,
        },
    ))
}

/// A circuit, and a version more.
fn edits(rt: &impl Abort, alloc: Global, book: &mut Book) -> Result<(), AllocError> {
    assert!(rt; matches!(open_two(rt, alloc, book)?, Reply::Opened { missing: 0 }));
    assert!(rt;
        matches!(
            splice(rt, alloc, book, 1, 0, 0, b"cx q[0],q[1];\n")?,
            Reply::Committed {
                version: 2,
                missing: 1
            }
        )
    );
    assert!(rt; matches!(read(rt, book, b"g", 2), Reply::Shown(_)));
    assert!(rt; matches!(splice(rt, alloc, book, 2, 0, 0, b"")?, Reply::Nothing));
    Ok(())
}

/// The first of two versions, retired.
fn retires(rt: &impl Abort, book: &mut Book) {
    assert!(rt; matches!(retire(rt, book, 2), Reply::IsLatest));
    assert!(rt; matches!(retire(rt, book, 1), Reply::Retired { claims: 0 }));
    assert!(rt; matches!(retire(rt, book, 1), Reply::WasRetired(5)));
    assert!(rt; matches!(read(rt, book, b"g", 1), Reply::WasRetired(5)));
}

/// What is not there.
fn misses(rt: &impl Abort, book: &mut Book) {
    assert!(rt; matches!(read(rt, book, b"h", 1), Reply::NoCircuit));
    assert!(rt; matches!(read(rt, book, b"g", 9), Reply::NoVersion(2)));
}

/// Edits that are refused.
fn refuses(rt: &impl Abort, alloc: Global, book: &mut Book) -> Result<(), AllocError> {
    assert!(rt;
        matches!(
            splice(rt, alloc, book, 2, 2, 1, b"x q[0];\n")?,
            Reply::Span(1)
        )
    );
    assert!(rt;
        matches!(
            splice(rt, alloc, book, 1, 0, 0, b"x q[0];\n")?,
            Reply::Stale(2)
        )
    );
    assert!(rt;
        matches!(
            splice(rt, alloc, book, 2, 0, 1, b"rx(pi/3) q[0];\n")?,
            Reply::Bad {
                name: FaultName::NotDyadic,
                line: 1,
                column: 4
            }
        )
    );
    assert!(rt; matches!(open_two(rt, alloc, book)?, Reply::NameTaken(0)));
    Ok(())
}

#[test]
fn an_editing_session(rt: HostRuntime) -> Result<(), Fail> {
    let alloc = rt.alloc();
    let mut book = Book::new(alloc)?;
    edits(&rt, alloc, &mut book)?;
    retires(&rt, &mut book);
    misses(&rt, &mut book);
    refuses(&rt, alloc, &mut book)?;
    let g = name(&rt, b"g");
    assert_eq!(rt; book.missing(g, 2), Some(1));
    assert_eq!(rt; book.missing(g, 3), None);
    assert_eq!(rt; book.into_journal().len(), 14);
    Ok(())
}

/// What a seat with no pin and no claim is told, where nothing is missing.
fn idles(rt: &impl Abort, book: &mut Book) {
    assert!(rt; matches!(turn(rt, book, 1, Cmd::Next { pinned: true }), Reply::NoPin));
    assert!(rt;
        matches!(
            turn(rt, book, 1, Cmd::Publish { kept: None }),
            Reply::NoClaim
        )
    );
    assert!(rt;
        matches!(
            turn(
                rt,
                book,
                1,
                Cmd::Answer {
                    outcome: Outcome::Done
                }
            ),
            Reply::NoPin
        )
    );
    assert!(rt; matches!(turn(rt, book, 1, Cmd::Next { pinned: false }), Reply::Idle));
}

/// A claim on the one segment of a circuit on one qubit, which entry 4 opens.
fn claims(rt: &impl Abort, alloc: Global, book: &mut Book) -> Result<(), AllocError> {
    let one = text(alloc, b"qreg q[1];\n", 2, b"h q[0];\n")?;
    assert!(rt;
        matches!(
            turn(
                rt,
                book,
                1,
                Cmd::Open {
                    name: name(rt, b"a"),
                    text: one
                }
            ),
            Reply::Opened { missing: 1 }
        )
    );
    match turn(rt, book, 1, Cmd::Next { pinned: false }) {
        Reply::Task(task) => assert!(rt;
            task.get().claim == 5 && task.get().seat == 1 && task.get().n == 1
        ),
        _ => assert!(rt; false),
    }
    assert!(rt;
        matches!(
            turn(rt, book, 1, Cmd::Publish { kept: None }),
            Reply::Stands
        )
    );
    Ok(())
}

/// Sums of a circuit with a segment that has no record.
fn sums(rt: &impl Abort, book: &mut Book) {
    let first = place(rt, b"a", 1);
    assert!(rt;
        matches!(
            turn(
                rt,
                book,
                1,
                Cmd::Pin {
                    first,
                    second: None
                }
            ),
            Reply::Pinned
        )
    );
    assert!(rt;
        matches!(
            turn(
                rt,
                book,
                1,
                Cmd::Sum {
                    outcome: Outcome::Done
                }
            ),
            Reply::Unsettled(1)
        )
    );
    assert!(rt;
        matches!(
            turn(
                rt,
                book,
                1,
                Cmd::Pin {
                    first,
                    second: None
                }
            ),
            Reply::Pinned
        )
    );
    assert!(rt;
        matches!(
            turn(
                rt,
                book,
                1,
                Cmd::Sum {
                    outcome: Outcome::Crowded
                }
            ),
            Reply::NotCrowded
        )
    );
}

#[test]
fn turns_of_one_seat(rt: HostRuntime) -> Result<(), Fail> {
    let alloc = rt.alloc();
    let mut book = Book::new(alloc)?;
    idles(&rt, &mut book);
    claims(&rt, alloc, &mut book)?;
    sums(&rt, &mut book);
    Ok(())
}

/// Shows a circuit so many times.
fn show_often(rt: &impl Abort, book: &mut Book, times: u32) -> u32 {
    let mut shown: u32 = 0;
    for _ in 0..times {
        if let Reply::Shown(_) = turn(
            rt,
            book,
            1,
            Cmd::Read {
                place: place(rt, b"g", 1),
            },
        ) {
            shown = shown.saturating_add(1);
        }
    }
    shown
}

#[test]
fn limits_at_their_numbers(rt: HostRuntime) -> Result<(), Fail> {
    let alloc = rt.alloc();
    let mut book = Book::new(alloc)?;
    let g = name(&rt, b"g");
    let much = text(alloc, b"qreg q[64];\n", 1025, b"x q;\n")?;
    assert!(rt;
        matches!(
            turn(
                &rt,
                &mut book,
                1,
                Cmd::Open {
                    name: g,
                    text: much
                }
            ),
            Reply::Bad {
                name: FaultName::TooMany,
                line: 1028,
                column: 1
            }
        )
    );
    let full = text(alloc, b"qreg q[64];\n", 1024, b"x q;\n")?;
    assert!(rt;
        matches!(
            turn(
                &rt,
                &mut book,
                1,
                Cmd::Open {
                    name: g,
                    text: full
                }
            ),
            Reply::Opened { missing: 16383 }
        )
    );
    assert!(rt;
        matches!(
            splice(&rt, alloc, &mut book, 1, 0, 0, b"x q[0];\n")?,
            Reply::TooLong(65537)
        )
    );
    assert_eq!(rt; show_often(&rt, &mut book, 128), 128);
    assert!(rt;
        matches!(
            turn(
                &rt,
                &mut book,
                1,
                Cmd::Read {
                    place: place(&rt, b"g", 1)
                }
            ),
            Reply::NoRoom(8454144)
        )
    );
    Ok(())
}
