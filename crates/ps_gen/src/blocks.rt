//! The texts of generated blocks.
ghost use Rattle.std.specs.Prelude.{◌≡◌, ◌≤◌, ◌*◌, IfOk, length, map, vec_len};
ghost use Rattle.std.specs.List.{flat_map};
ghost use Rattle.ps_gen.specs.Texts.{line, mirrored, circuit_text, mirror_text};

use crate::applications::Application;
use crate::draws::applications;
use std::alloc::{AllocError, Global};

/// How many bytes the line of an application has at most.
const LONGEST_LINE: usize = 18;

// A line for each application, in order.
fn lines(alloc: Global, list: &[Application]) -> Result<Vec<u8>, AllocError>
    requires { length list.now ≤ 32768 }
    ensures { IfOk result (λ v. v.items ≡ flat_map line list.now) }
{
    let mut text = String::with_capacity(alloc, LONGEST_LINE * list.len())?;
    for application in list {
        application.push_line(&mut text)?;
    }
    Ok(text.into_bytes())
}

// A line for what undoes each application, in order.
fn mirrored_lines(alloc: Global, list: &[Application]) -> Result<Vec<u8>, AllocError>
    requires { length list.now ≤ 32768 }
    ensures { IfOk result (λ v. v.items ≡ flat_map line (map mirrored list.now)) }
{
    let mut text = String::with_capacity(alloc, LONGEST_LINE * list.len())?;
    for application in list {
        application.mirrored().push_line(&mut text)?;
    }
    Ok(text.into_bytes())
}

/// The block of so many items on so many qubits that is drawn from a seed: a line for each item, with LF at its end,
/// of at most 18 bytes. `AllocError` is want of memory.
///
/// Condition: 2 to 16 qubits, 1 to 32,768 items.
#[tactic(auto, using(crate::proofs::DrawLemmas::drawn_count, crate::proofs::LineLemmas::circuit_short))]
pub fn circuit(alloc: Global, seed: u32, qubits: u32, items: u32) -> Result<Vec<u8>, AllocError>
    requires qubits { (2 ≤ qubits) × (qubits ≤ 16) }
    requires items { (1 ≤ items) × (items ≤ 32768) }
    ensures value { IfOk result (λ v. v.items ≡ circuit_text seed qubits items) }
    ensures short { IfOk result (λ v. vec_len v ≤ 18 * items) }
{
    let list = applications(alloc, seed, qubits, items)?;
    lines(alloc, &list)
}

/// The block that undoes that one: the items that undo its items, the last one first. `AllocError` is want of memory.
///
/// Condition: 2 to 16 qubits, 1 to 32,768 items.
#[tactic(auto, using(crate::proofs::DrawLemmas::drawn_count, crate::proofs::LineLemmas::mirror_short))]
pub fn mirror(alloc: Global, seed: u32, qubits: u32, items: u32) -> Result<Vec<u8>, AllocError>
    requires qubits { (2 ≤ qubits) × (qubits ≤ 16) }
    requires items { (1 ≤ items) × (items ≤ 32768) }
    ensures value { IfOk result (λ v. v.items ≡ mirror_text seed qubits items) }
    ensures short { IfOk result (λ v. vec_len v ≤ 18 * items) }
{
    let mut list = applications(alloc, seed, qubits, items)?;
    list.reverse();
    mirrored_lines(alloc, &list)
}
