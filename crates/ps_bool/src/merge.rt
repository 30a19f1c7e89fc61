ghost use Rattle.std.specs.Prelude.{◌≡◌, IfOk};
ghost use Rattle.ps_bool.specs.Merging.{merge};

use ps_mono::Mono;
use std::alloc::{AllocError, Global};
use std::cmp::Ordering;

// Both lists, each in order, as one list in order, without the monomials that stand in both.
pub fn merged(alloc: Global, xs: &[Mono], ys: &[Mono]) -> Result<Vec<Mono>, AllocError>
    ensures { IfOk result (λ v. v.items ≡ merge xs.now ys.now) }
{
    let mut out = Vec::with_capacity(alloc, xs.len() + ys.len())?;
    let mut i = 0;
    let mut j = 0;
    while i < xs.len() && j < ys.len() {
        let x = &xs[i];
        let y = &ys[j];
        match x.compare(y) {
            Ordering::Less => {
                out.push(*x)?;
                i += 1;
            }
            Ordering::Greater => {
                out.push(*y)?;
                j += 1;
            }
            Ordering::Equal => {
                i += 1;
                j += 1;
            }
        }
    }
    out.extend_from_slice(&xs[i..])?;
    out.extend_from_slice(&ys[j..])?;
    Ok(out)
}
