ghost use Rattle.std.specs.Prelude.{◌≡◌, ℕ, ◌<◌, ◌≤◌, length, vec_len, IfOk, OnOk, IfSome, IsErrOf};
ghost use Rattle.std.specs.Io.KnownBytes.{prepend_known, IsAtEnd};
ghost use Rattle.ps_io.specs.Counts.{Rose};
ghost use Rattle.ps_io.specs.Streams.{IsRest};

use crate::source::{Failed, Source};
use std::alloc::{AllocError, Global};

/// Why not all of the input was read.
#[derive(Clone, Copy, Debug, PartialEq, Eq)]
pub enum ReadEnd {
    /// A read failed.
    Read,
    /// More bytes came than the limit.
    TooLong,
    /// Memory was wanting.
    Memory,
}

/// How many bytes are asked for at a time.
const PIECE: usize = 16384;

// So many zeros.
fn zeros(alloc: Global, len: usize) -> Result<Vec<u8>, AllocError>
    ensures { IfOk result (λ v. vec_len v ≡ len) }
{
    vec![in alloc; 0; len]
}

/// Reads to the end of the input, at most `limit` bytes.
///
/// - `TooLong` comes where more than `limit` bytes were given before the end; the bytes given are gone then.
/// - `Read` comes only where the source's count of faults rose; the bytes given before are gone then.
/// - `Memory` may come at any time.
pub fn read_all<S: Source>(alloc: Global, source: &mut S, limit: u32) -> Result<Vec<u8>, ReadEnd>
    ensures whole { IfOk result (λ v. S.remaining source.old ≡ prepend_known v.items (S.remaining source.new)) }
    ensures told { IfOk result (λ v. IfSome (S.remaining source.old) (λ left. v.items ≡ left)) }
    ensures ended { OnOk result (IsAtEnd (S.remaining source.new)) }
    ensures within { IfOk result (λ v. vec_len v ≤ limit) }
    ensures too_long { IsErrOf result ReadEnd.TooLong → IfSome (S.remaining source.old) (λ left. limit < length left) }
    ensures failed { IsErrOf result ReadEnd.Read → Rose (S.faults source.old) (S.faults source.new) }
    ensures rest { IsRest (S.remaining source.old) (S.remaining source.new) }
    ensures never_falls { S.faults source.old ≤ S.faults source.new }
{
    let Ok(mut piece) = zeros(alloc, PIECE) else {
        return Err(ReadEnd::Memory);
    };
    let mut bytes = Vec::new(alloc);
    'pieces: loop {
        let n = match source.read(&mut piece) {
            Ok(n) => n,
            Err(Failed) => return Err(ReadEnd::Read),
        };
        if n == 0 {
            return Ok(bytes);
        }
        if n > limit as usize - bytes.len() {
            return Err(ReadEnd::TooLong);
        }
        match bytes.extend_from_slice(&piece[..n]) {
            Ok(()) => {}
            Err(AllocError) => return Err(ReadEnd::Memory),
        }
    }
}
