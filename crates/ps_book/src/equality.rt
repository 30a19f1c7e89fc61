//! Whether two items have the same gates.

ghost use Rattle.std.specs.Prelude.{◌≡◌, ◌↔◌, IsTrue};

use ps_prim::{Item, Prim};

// Whether the two are one prim.
fn same_prim(first: &Prim, second: &Prim) -> bool
    ensures { IsTrue result ↔ (first.now ≡ second.now) }
{
    match *first {
        Prim::U {
            theta,
            phi,
            lambda,
            q,
        } => match *second {
            Prim::U {
                theta: other_theta,
                phi: other_phi,
                lambda: other_lambda,
                q: other_q,
            } => theta == other_theta && phi == other_phi && lambda == other_lambda && q == other_q,
            Prim::Cx { .. } => false,
        },
        Prim::Cx { c, t } => match *second {
            Prim::U { .. } => false,
            Prim::Cx {
                c: other_c,
                t: other_t,
            } => c == other_c && t == other_t,
        },
    }
}

// Whether the two lists of prims are one.
fn same_prims(first: &[Prim], second: &[Prim]) -> bool
    ensures { IsTrue result ↔ (first.now ≡ second.now) }
{
    if first.len() != second.len() {
        return false;
    }
    for i in 0..first.len() {
        if !same_prim(&first[i], &second[i]) {
            return false;
        }
    }
    true
}

/// Whether the two items have the same gates in the same order.
pub fn same_item(first: &Item, second: &Item) -> bool
    ensures { IsTrue result ↔ (first.now.prims ≡ second.now.prims) }
{
    same_prims(first.prims.as_slice(), second.prims.as_slice())
}
