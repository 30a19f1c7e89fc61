//! The bytes of places, faults at places, and counts.

ghost use Rattle.std.specs.Prelude.{◌≡◌, OnOk, IfOk};
ghost use Rattle.qasm_parse.specs.Places.{SpanIn};
ghost use Rattle.qasm_expand.specs.Checks.{spelled as spelled_by};
ghost use Rattle.qasm_expand.specs.declared.fault.ReadFault.TheVariants.{Fault};

use crate::fault::{FaultName, ReadFault};
use qasm_parse::Span;
use std::alloc::AllocError;

/// The bytes of a place.
pub fn spelled(bytes: &[u8], at: Span) -> &[u8]
    requires { SpanIn bytes.now at }
    ensures { result.now ≡ spelled_by bytes.now at }
{
    &bytes[at.from as usize..at.to as usize]
}

/// A fault with this name at the first byte of a place.
pub fn fault(name: FaultName, at: Span) -> ReadFault
    ensures { result ≡ Fault name at.from }
{
    ReadFault::Fault {
        name,
        offset: at.from,
    }
}

/// The number of the things of a list; 4,294,967,296 of them or more are want of memory.
pub fn count(len: usize) -> Result<u32, AllocError>
    ensures { IfOk result (λ n. n ≡ len) }
{
    if len > 4294967295 {
        return Err(AllocError);
    }
    Ok(len as u32)
}
