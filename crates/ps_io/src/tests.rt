use super::*;
use std::alloc::{AllocError, Global};
use std::io;
use std::io::{ErrorKind, Read, Write};
use std::test::Fail;
use std::thread::join;

fn source(alloc: Global, bytes: &[u8], fails: &[u64]) -> Result<MemorySource, AllocError> {
    Ok(MemorySource::new(bytes.to_vec(alloc)?, 2, fails.to_vec(alloc)?))
}

fn sink(alloc: Global, room: usize, fails: &[u64]) -> Result<MemorySink, AllocError> {
    Ok(MemorySink::new(vec![in alloc; 0; room]?, fails.to_vec(alloc)?))
}

// Gives or takes two bytes at every other call, and fails at the calls between.
#[derive(Drop)]
struct Faulty<S> {
    inner: S,
    fails: bool,
}

impl<S> Faulty<S> {
    fn turn(&mut self) -> io::Result<()> {
        let fails = self.fails;
        self.fails = !fails;
        if fails {
            return Err(io::Error::from(ErrorKind::BrokenPipe));
        }
        Ok(())
    }
}

impl<R: Read> Read for Faulty<R> {
    fn read(&mut self, buf: &mut [u8]) -> io::Result<usize> {
        self.turn()?;
        let n = buf.len().min(2);
        self.inner.read(&mut buf[..n])
    }
}

impl<W: Write> Write for Faulty<W> {
    fn write(&mut self, buf: &[u8]) -> io::Result<usize> {
        self.turn()?;
        let n = buf.len().min(2);
        self.inner.write(&buf[..n])
    }

    fn flush(&mut self) -> io::Result<()> {
        self.inner.flush()
    }
}

// Takes bytes, and can't flush them.
#[derive(Drop)]
struct Stuck;

impl Write for Stuck {
    fn write(&mut self, buf: &[u8]) -> io::Result<usize> {
        Ok(buf.len())
    }

    fn flush(&mut self) -> io::Result<()> {
        Err(io::Error::from(ErrorKind::BrokenPipe))
    }
}

#[test]
fn reads_whole_inputs(rt: HostRuntime) -> Result<(), Fail> {
    let alloc = rt.alloc();
    let rows: [(&[u8], &[u64], u32, Result<&[u8], ReadEnd>); 7] = [
        (b"", &[], 0, Ok(b"")),
        (b"abcde", &[], 5, Ok(b"abcde")),
        (b"abcde", &[], 4, Err(ReadEnd::TooLong)),
        (b"a", &[], 0, Err(ReadEnd::TooLong)),
        (b"abcde", &[0], 5, Err(ReadEnd::Read)),
        (b"abcde", &[1], 5, Err(ReadEnd::Read)),
        (b"abcde", &[4], 5, Ok(b"abcde")),
    ];
    for (bytes, fails, limit, wanted) in rows {
        let mut from = source(alloc, bytes, fails)?;
        match (read_all(alloc, &mut from, limit), wanted) {
            (Ok(found), Ok(wanted)) => assert_eq!(rt; found.as_slice(), wanted),
            (Err(found), Err(wanted)) => assert_eq!(rt; found, wanted),
            _ => panic!(rt; "another outcome"),
        }
    }
    Ok(())
}

#[test]
fn writes_whole_outputs(rt: HostRuntime) -> Result<(), Fail> {
    let alloc = rt.alloc();
    let rows: [(usize, &[u64], &[u8], bool); 4] = [
        (8, &[], b"abcde", true),
        (8, &[0], b"", false),
        (3, &[], b"abc", false),
        (5, &[1], b"abcde", true),
    ];
    for (room, fails, held, whole) in rows {
        let mut to = sink(alloc, room, fails)?;
        assert_eq!(rt; write_all(&mut to, b"abcde").is_ok(), whole);
        assert_eq!(rt; to.held(), held);
    }
    Ok(())
}

#[test]
fn reads_from_readers(rt: HostRuntime) -> Result<(), Fail> {
    let bytes: &[u8] = b"abcde";
    let whole = read_all(rt.alloc(), &mut StdSource::new(bytes), 5);
    assert_eq!(rt; whole.expect(&rt, "whole").as_slice(), b"abcde".as_slice());

    let mut faulty = StdSource::new(Faulty {
        inner: bytes,
        fails: false,
    });
    let end = read_all(rt.alloc(), &mut faulty, 5);
    assert_eq!(rt; end.expect_err(&rt, "a fault"), ReadEnd::Read);
    let mut buf = [0; 4];
    assert_eq!(rt; faulty.read(&mut buf), Ok(2));
    assert_eq!(rt; buf[..2], *b"cd".as_slice());
    Ok(())
}

#[test]
fn writes_to_writers(rt: HostRuntime) -> Result<(), Fail> {
    let mut held = Vec::new(rt.alloc());
    assert_eq!(rt; write_all(&mut StdSink::new(&mut held), b"abcde"), Ok(()));
    assert_eq!(rt; held.as_slice(), b"abcde".as_slice());

    let mut held = Vec::new(rt.alloc());
    let mut faulty = StdSink::new(Faulty {
        inner: &mut held,
        fails: false,
    });
    assert_eq!(rt; write_all(&mut faulty, b"abcde"), Err(Failed));
    assert_eq!(rt; faulty.write(b"cde"), Ok(2));
    assert_eq!(rt; write_all(&mut StdSink::new(Stuck), b"a"), Err(Failed));
    Ok(())
}

#[test]
fn holds_nobody_up(rt: HostRuntime) {
    OpenGate.pass(0, Point::Starting);
    assert!(rt; !NeverStop.asked());
}

#[test]
fn flags_are_seen(rt: HostRuntime) {
    let flags = Flags::new();
    let mut hint = flags.hint(5);
    assert!(rt; !hint.asked());
    flags.set(4);
    assert!(rt; !hint.asked());
    flags.set(5);
    flags.set(63);
    assert!(rt; hint.asked() && hint.asked() && flags.hint(63).asked());
    flags.clear(5);
    assert!(rt; !hint.asked() && flags.hint(4).asked());
}

#[test]
fn bells_wake_who_wait(rt: HostRuntime) {
    let bell = Bell::new();
    assert_eq!(rt; bell.seen(&rt), 0);
    let (closed, _) = join(&rt, || bell.wait_past(&rt, 0), || bell.ring(&rt));
    assert!(rt; !closed && bell.seen(&rt) == 1);
    assert!(rt; !bell.wait_past(&rt, 0) && !bell.closed(&rt));
    let (closed, _) = join(&rt, || bell.wait_past(&rt, 1), || bell.close(&rt));
    assert!(rt; closed && bell.closed(&rt) && bell.seen(&rt) == 1);
}
