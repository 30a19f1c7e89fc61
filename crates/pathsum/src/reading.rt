//! Reading two texts.

ghost use Rattle.std.specs.Prelude.{◌≡◌, ◌+◌, ◌≤◌, length, IfOk};
ghost use Rattle.qasm_expand.specs.Reading.{circuit_in};
ghost use Rattle.pathsum.specs.declared.refusals.Refusal.TheVariants.{Text};
ghost use Rattle.pathsum.specs.Texts.{TextsAre, refuses};
ghost use Rattle.pathsum.specs.Givens.{given_in, IsNear, OfCircuits};

use super::pair::{Pair, TwoTexts};
use super::refusals::Refusal;
use qasm_expand::{Circuit, FaultName, ReadFault, circuit};
use std::alloc::{AllocError, Global};

/// What two texts are, of which the second begins at a byte of the input: the first fault of text A, else
/// that of text B, else whether they have the same qubits.
pub fn read_texts(
    alloc: Global,
    first: &[u8],
    second: &[u8],
    start: u32,
) -> Result<TwoTexts, AllocError>
    requires first_small { length first.now ≤ 16777216 }
    requires second_small { length second.now ≤ 16777216 }
    ensures read { IfOk result (λ t. TextsAre first.now second.now start (given_in t)) }
    ensures near { IfOk result (λ t. IsNear t) }
{
    match circuit(alloc, first) {
        Ok(before) => match circuit(alloc, second) {
            Ok(behind) => Ok(both(before, behind, start)),
            Err(ReadFault::Fault { name, offset }) => Ok(refused(name, start, offset)),
            Err(ReadFault::Memory) => Err(AllocError),
        },
        Err(ReadFault::Fault { name, offset }) => Ok(refused(name, 0, offset)),
        Err(ReadFault::Memory) => Err(AllocError),
    }
}

// The fault of a text that begins at a byte of the input.
fn refused(name: FaultName, start: u32, offset: u32) -> TwoTexts
    ensures given { given_in result ≡ refuses (Text name) (start + offset) }
    ensures near { IsNear result }
{
    TwoTexts::Refuses {
        why: Refusal::Text(name),
        at: u64::from(start) + u64::from(offset),
    }
}

// Two circuits as a pair, where they have the same qubits.
fn both(before: Circuit, behind: Circuit, start: u32) -> TwoTexts
    ensures given { OfCircuits (circuit_in before) (circuit_in behind) start (given_in result) }
    ensures near { IsNear result }
{
    if before.qubits != behind.qubits {
        return TwoTexts::Refuses {
            why: Refusal::Widths,
            at: u64::from(start),
        };
    }
    TwoTexts::Both(Pair {
        qubits: before.qubits,
        first: before.items,
        second: behind.items,
    })
}
