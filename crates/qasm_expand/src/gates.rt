//! Gates by their definitions.

ghost use Rattle.std.specs.Prelude.{◌≡◌, ◌≤◌, ◌+◌, ℕ, min, true, length, slice_get, [], ◌∷◌, ◌++◌, IfOk, OnOk, All, Ok};
ghost use Rattle.qasm_parse.specs.Places.{SpanIn, CallIn, InnerIn};
ghost use Rattle.qasm_expand.specs.Tables.{body_size as body_size_by, defs_sound, bound_sound};
ghost use Rattle.qasm_expand.specs.Gates.{inner_of, body_of as body_by, def_of as def_by};
ghost use Rattle.qasm_expand.specs.Checks.{Known};
ghost use Rattle.qasm_expand.specs.Names.{Led};
ghost use Rattle.qasm_expand.specs.States.{Became};
ghost use Rattle.qasm_expand.specs.Library.{defined};

use crate::bounds::Bounds;
use crate::calls::{called, shape_of, wrong_arity};
use crate::defs::{Body, Def, Defs, Inner};
use crate::fault::{FaultName, ReadFault};
use crate::formals::{Formals, formal_names};
use crate::naming::{different, expressions, known, places};
use crate::spelling::{count, fault, spelled};
use qasm_parse::{Call, Inner as Stated, Span};
use std::alloc::Global;

/// An application in a body.
fn inner(
    alloc: Global,
    bytes: &[u8],
    defs: &Defs,
    bound: &Bounds,
    params: &Formals,
    args: &Formals,
    call: &Call,
) -> Result<Inner, ReadFault>
    requires { CallIn bytes.now call.now }
    ensures { Known result (λ r. r ≡ inner_of bytes.now defs.now bound.now params.now args.now call.now) }
{
    let gate = called(bytes, bound, call.gate, call.at)?;
    let own = call.params.items();
    let on = call.args.items();
    if wrong_arity(defs, gate, own.len(), on.len()) {
        return Err(fault(FaultName::Arity, call.at));
    }
    let places = places(alloc, bytes, args, on)?;
    different(alloc, places.as_slice(), on)?;
    let params = expressions(alloc, bytes, params, own)?;
    Ok(Inner {
        gate,
        params,
        args: places,
    })
}

/// A statement of a body: one application more, or a barrier whose names are known.
fn stated(
    alloc: Global,
    bytes: &[u8],
    defs: &Defs,
    bound: &Bounds,
    params: &Formals,
    args: &Formals,
    list: &mut Vec<Inner>,
    statement: &Stated,
) -> Result<(), ReadFault>
    requires { InnerIn bytes.now statement.now }
    ensures { Led result bytes.now defs.now bound.now params.now args.now statement.now list.old.items list.new.items }
{
    match statement {
        Stated::Apply(call) => {
            list.push(inner(alloc, bytes, defs, bound, params, args, call)?)?;
            Ok(())
        }
        Stated::Barrier(spans) => known(bytes, args, spans.items()),
    }
}

/// The applications of a body.
fn body_of(
    alloc: Global,
    bytes: &[u8],
    defs: &Defs,
    bound: &Bounds,
    params: &Formals,
    args: &Formals,
    body: &[Stated],
) -> Result<Body, ReadFault>
    requires { All (InnerIn bytes.now) body.now }
    ensures { Known result (λ r. r ≡ body_by bytes.now defs.now bound.now params.now args.now body.now) }
{
    let mut list = Vec::new(alloc);
    for statement in body {
        stated(
            alloc, bytes, defs, bound, params, args, &mut list, statement,
        )?;
    }
    Ok(Body::from_vec(list))
}

/// A sum, told as 4,097 where it is more than 4,096.
fn limited(total: u32, more: u32) -> u32
    requires { total ≤ 4097 }
    ensures { result ≡ min (total + more) 4097 }
{
    if 4097 - total < more {
        4097
    } else {
        total + more
    }
}

/// How many primitive gates a body comes to, told as 4,097 where they are more than 4,096.
fn body_size(defs: &Defs, body: &Body) -> u32
    ensures { result ≡ body_size_by defs.now body.now }
{
    let mut total = 0;
    for inner in body.as_slice() {
        total = limited(total, shape_of(defs, inner.gate).size);
    }
    total
}

/// The gate of a definition.
fn def_of(
    alloc: Global,
    bytes: &[u8],
    defs: &Defs,
    bound: &Bounds,
    params: &[Span],
    args: &[Span],
    body: &[Stated],
) -> Result<Def, ReadFault>
    requires params { All (SpanIn bytes.now) params.now }
    requires args { All (SpanIn bytes.now) args.now }
    requires body { All (InnerIn bytes.now) body.now }
    ensures { Known result (λ r. r ≡ def_by bytes.now defs.now bound.now params.now args.now body.now) }
{
    let takes = formal_names(alloc, bytes, params)?;
    let on = formal_names(alloc, bytes, args)?;
    let body = body_of(alloc, bytes, defs, bound, &takes, &on, body)?;
    let size = body_size(defs, &body);
    Ok(Def {
        params: count(params.len())?,
        args: count(args.len())?,
        size,
        body,
    })
}

/// Defines a gate: it stands behind the others, and its name means it from now on.
///
/// In order, no formal parameter and no formal argument stands twice, and in the body each gate is
/// known, takes so many parameters and arguments, has formal and different arguments, and in its
/// expressions formal parameters. 4,294,967,296 gates, parameters or arguments are want of memory.
pub fn define(
    alloc: Global,
    bytes: &[u8],
    defs: &mut Defs,
    bound: &mut Bounds,
    name: Span,
    params: &[Span],
    args: &[Span],
    body: &[Stated],
) -> Result<(), ReadFault>
    requires gates { defs_sound defs.old ≡ true }
    requires names { bound_sound (length defs.old) bound.old ≡ true }
    requires name { SpanIn bytes.now name }
    requires params { All (SpanIn bytes.now) params.now }
    requires args { All (SpanIn bytes.now) args.now }
    requires body { All (InnerIn bytes.now) body.now }
    ensures became { Became result (record { defs = defs.new; bound = bound.new }) (λ r. r ≡ defined bytes.now (record { defs = defs.old; bound = bound.old }) name params.now args.now body.now) }
    ensures gates { OnOk result (defs_sound defs.new ≡ true) }
    ensures names { OnOk result (bound_sound (length defs.new) bound.new ≡ true) }
{
    let def = def_of(alloc, bytes, defs, bound, params, args, body)?;
    let number = count(defs.as_slice().len())?;
    bound.rebind(alloc, spelled(bytes, name), number)?;
    defs.push(def)?;
    Ok(())
}
