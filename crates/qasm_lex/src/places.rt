//! Lines and columns.

ghost use Rattle.std.specs.Prelude.{◌≤◌, length};
ghost use Rattle.qasm_lex.specs.Places.{IsPlace};

/// The line and the column of a place in a text, given as the number of bytes before it.
///
/// Both count from 1. A line ends with its LF, and the column counts bytes.
/// The text has at most 16,777,216 bytes; its end is a place too.
pub fn place(bytes: &[u8], offset: u32) -> (u32, u32)
    requires small { length bytes.now ≤ 16777216 }
    requires inside { offset ≤ length bytes.now }
    ensures { IsPlace bytes.now offset result.0 result.1 }
{
    let mut line = 1;
    let mut start = 0;
    for at in 0..offset {
        if bytes[at as usize] == b'\n' {
            line += 1;
            start = at + 1;
        }
    }
    (line, offset - start + 1)
}
