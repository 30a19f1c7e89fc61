//! The text of items of circuits.

ghost use Rattle.std.specs.Prelude.{◌≡◌, ◌++◌, map, IfOk, OnOk};
ghost use Rattle.std.specs.List.{flat_map};
ghost use Rattle.ps_reach.specs.Runs.{prims_of};
ghost use Rattle.ps_reply.specs.Items.{prim_text, next_prim, item_text, item_lines};

use ps_prim::{Item, Prim};
use std::alloc::{AllocError, Global};
use std::sync::Arc;

// A gate: `U T,P,L Q` with the angles in units of pi/2^30, or `CX C T`.
fn prim_text(alloc: Global, prim: &Prim) -> Result<Vec<u8>, AllocError>
    ensures { IfOk result (λ v. v.items ≡ prim_text prim.now) }
{
    let text = match *prim {
        Prim::U {
            theta,
            phi,
            lambda,
            q,
        } => {
            let theta = theta.units();
            let phi = phi.units();
            let lambda = lambda.units();
            format!(in alloc; "U {theta},{phi},{lambda} {q}")?
        }
        Prim::Cx { c, t } => format!(in alloc; "CX {c} {t}")?,
    };
    Ok(text.into_bytes())
}

// Puts gates behind a text, each with `; ` in front.
fn push_prims(text: &mut Vec<u8>, alloc: Global, prims: &[Prim]) -> Result<(), AllocError>
    ensures { OnOk result (text.new.items ≡ text.old.items ++ flat_map next_prim prims.now) }
{
    for prim in prims {
        text.extend_from_slice(b"; ")?;
        text.extend_from_slice(&prim_text(alloc, prim)?)?;
    }
    Ok(())
}

// Puts an item behind a text: its gates with `; ` between each two, or `-`.
fn push_item(text: &mut Vec<u8>, alloc: Global, prims: &[Prim]) -> Result<(), AllocError>
    ensures { OnOk result (text.new.items ≡ text.old.items ++ item_text prims.now) }
{
    match prims.split_first() {
        None => {
            text.push(b'-')?;
            Ok(())
        }
        Some((first, rest)) => {
            text.extend_from_slice(&prim_text(alloc, first)?)?;
            push_prims(text, alloc, rest)
        }
    }
}

/// Puts a line for each item behind a text, each with its LF in front. `AllocError` is want of memory.
pub fn push_items(text: &mut Vec<u8>, alloc: Global, items: &[Arc<Item>]) -> Result<(), AllocError>
    ensures { OnOk result (text.new.items ≡ text.old.items ++ item_lines (map prims_of items.now)) }
{
    for item in items {
        text.push(b'\n')?;
        push_item(text, alloc, item.prims.as_slice())?;
    }
    Ok(())
}
