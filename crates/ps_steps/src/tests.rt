//! Texts that are derivations, and texts that are not.
ghost use Rattle.std.specs.Prelude.{◌≤◌, length};

use crate::{StepFault, read, text};
use std::alloc::{AllocError, Global};
use std::test::Fail;

// What reading came to.
#[derive(Clone, Copy, Debug, PartialEq, Eq)]
enum Came {
    // Read, and written as the same bytes.
    Same,
    // Read, and written as other bytes.
    Other,
    Fault(StepFault),
}

fn outcome(alloc: Global, bytes: &[u8]) -> Result<Came, AllocError>
    requires { length bytes.now ≤ 4294967294 }
{
    match read(alloc, bytes) {
        Ok(derivation) => {
            let written = text(alloc, &derivation)?;
            if written.as_slice() == bytes {
                Ok(Came::Same)
            } else {
                Ok(Came::Other)
            }
        }
        Err(fault) => Ok(Came::Fault(fault)),
    }
}

// The bytes and what they come to, in turn; the number of the first that comes to anything else.
fn first_other(alloc: Global, rows: &[(&[u8], Came)]) -> Result<usize, AllocError> {
    for place in 0..rows.len() {
        let row = &rows[place];
        let bytes = row.0;
        if bytes.len() > 1_000 {
            return Ok(place);
        }
        if outcome(alloc, bytes)? != row.1 {
            return Ok(place);
        }
    }
    Ok(rows.len())
}

const WHOLE: &[u8] =
    b"pathsum 1\nleaf a 0\nomega 0\nleaf a 1\nomega 0\njoin\nhh 0 1\nid b\noverlap\nelim 0\nend\n";

#[test]
fn rows(rt: HostRuntime) -> Result<(), Fail> {
    let form = |n| Came::Fault(StepFault::Form(n));
    let cut = |n| Came::Fault(StepFault::Cut(n));
    let rows = [
        (WHOLE, Came::Same),
        (b"pathsum 1\nend\n".as_slice(), Came::Same),
        (
            b"pathsum 1\nleaf b 4294967295\nhh 65535 0\nend\n".as_slice(),
            Came::Same,
        ),
        (b"pathsum 1\nturn\n".as_slice(), form(2)),
        (b"pathsum 1\n".as_slice(), cut(2)),
        (b"pathsum 1".as_slice(), cut(1)),
        (b"".as_slice(), cut(1)),
        (b"\n".as_slice(), form(1)),
        (b"end\n".as_slice(), form(1)),
        (b"pathsum 2\n".as_slice(), form(1)),
        (b"pathsum 1\npathsum 1\n".as_slice(), form(2)),
        (b"pathsum 1\nturn".as_slice(), cut(2)),
        (b"pathsum 1\nend".as_slice(), cut(2)),
        (b"pathsum 1\nend\nend\n".as_slice(), form(3)),
        (b"pathsum 1\nend\nx".as_slice(), form(3)),
        (b"pathsum 1\nend\n\n".as_slice(), form(3)),
        (b"pathsum 1\njoins\n".as_slice(), form(2)),
        (b"pathsum 1\njoin\r\n".as_slice(), form(2)),
        (b"pathsum 1\nid c\n".as_slice(), form(2)),
        (b"pathsum 1\nleaf a 00\nend\n".as_slice(), form(2)),
        (b"pathsum 1\nleaf a +1\nend\n".as_slice(), form(2)),
        (b"pathsum 1\nleaf a \nend\n".as_slice(), form(2)),
        (b"pathsum 1\nleaf c 0\nend\n".as_slice(), form(2)),
        (b"pathsum 1\nleaf a 4294967296\nend\n".as_slice(), form(2)),
        (b"pathsum 1\nelim 65536\nend\n".as_slice(), form(2)),
        (b"pathsum 1\nhh 1\nend\n".as_slice(), form(2)),
        (b"pathsum 1\nhh 1  2\nend\n".as_slice(), form(2)),
        (b"pathsum 1\nhh 1 2 \nend\n".as_slice(), form(2)),
    ];
    assert_eq!(rt; first_other(rt.alloc(), &rows)?, rows.len());
    Ok(())
}
