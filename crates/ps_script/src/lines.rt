//! Lines and blocks.

ghost use Rattle.std.specs.Prelude.{◌≡◌, ◌≢◌, ◌<◌, ◌≤◌, ◌+◌, [], length, IfSome, MatchOption};
ghost use Rattle.ps_script.specs.Lines.{without_return, line_of, rest_of, HasBlock, HasNoBlock};

use crate::pieces::find;

/// The first line of the bytes, and what stands behind it.
#[derive(Clone, Copy)]
pub struct FirstLine<'a> {
    pub line: &'a [u8],
    pub rest: &'a [u8],
}

/// A block, the number of its lines and one, and what stands behind the line that ends it.
#[derive(Clone, Copy)]
pub struct BlockText<'a> {
    pub text: &'a [u8],
    pub lines: u32,
    pub rest: &'a [u8],
}

// The bytes without a CR at their end.
#[tactic(auto, unfolding(crate::specs::Lines::without_return))]
fn without_return(bytes: &[u8]) -> &[u8]
    ensures { result.now ≡ without_return bytes.now }
{
    let len = bytes.len();
    if len > 0 && bytes[len - 1] == b'\r' {
        &bytes[..len - 1]
    } else {
        bytes
    }
}

/// The first line, without its end.
pub fn first_line(bytes: &[u8]) -> FirstLine<'_>
    requires { bytes.now ≢ [] }
    ensures line { result.line.now ≡ line_of bytes.now }
    ensures rest { result.rest.now ≡ rest_of bytes.now }
    ensures shorter { length result.rest.now < length bytes.now }
{
    match find(bytes, b'\n') {
        Some(at) => FirstLine {
            line: without_return(&bytes[..at]),
            rest: &bytes[at + 1..],
        },
        None => FirstLine {
            line: bytes,
            rest: &[],
        },
    }
}

/// The block at the front, up to the first line `.`.
pub fn block(bytes: &[u8]) -> Option<BlockText<'_>>
    requires { length bytes.now ≤ 16777216 }
    ensures block { MatchOption result (HasNoBlock bytes.now) (λ b. HasBlock bytes.now b.text.now b.lines b.rest.now) }
    ensures text { IfSome result (λ b. length b.text.now ≤ length bytes.now) }
    ensures short { IfSome result (λ b. b.lines + length b.rest.now ≤ length bytes.now) }
{
    let mut rest = bytes;
    let mut lines = 0;
    while !rest.is_empty() {
        let first = first_line(rest);
        lines += 1;
        if first.line == b".".as_slice() {
            return Some(BlockText {
                text: &bytes[..bytes.len() - rest.len()],
                lines,
                rest: first.rest,
            });
        }
        rest = first.rest;
    }
    None
}
