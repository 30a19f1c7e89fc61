//! Definitions in a text, and the library.

ghost use Rattle.std.specs.Prelude.{◌≡◌, true, length, [], ◌∷◌, OnOk, All};
ghost use Rattle.qasm_parse.specs.Places.{SpanIn, InnerIn, StatementIn};
ghost use Rattle.qasm_expand.specs.Tables.{defs_sound, bound_sound};
ghost use Rattle.qasm_expand.specs.Library.{Gates, is_own as means_own_gate, all_defined, Includes, defining};
ghost use Rattle.qasm_expand.specs.States.{IsSound, Became, Succeeds};

use crate::bounds::Bounds;
use crate::defs::Defs;
use crate::fault::{FaultName, ReadFault};
use crate::gates::define;
use crate::library::text;
use crate::programs::text_program;
use crate::spelling::{count, fault, spelled};
use crate::state::{Shelf, State};
use qasm_parse::{Inner as Stated, Span, Statement};
use std::alloc::Global;

// Whether the text itself has defined the name.
fn is_own(state: &State, name: &[u8]) -> bool
    ensures { result ≡ means_own_gate state.now name.now }
{
    match state.bound.meaning(name) {
        None => false,
        Some(def) => match state.library {
            None => true,
            Some(shelf) => !(shelf.from <= def && def < shelf.to),
        },
    }
}

/// Defines a gate in the text.
pub fn definition(
    alloc: Global,
    bytes: &[u8],
    state: &mut State,
    name: Span,
    params: &[Span],
    args: &[Span],
    body: &[Stated],
) -> Result<(), ReadFault>
    requires sound { IsSound state.old }
    requires name { SpanIn bytes.now name }
    requires params { All (SpanIn bytes.now) params.now }
    requires args { All (SpanIn bytes.now) args.now }
    requires body { All (InnerIn bytes.now) body.now }
    ensures defined { Became result state.new (λ r. r ≡ defining bytes.now state.old name params.now args.now body.now) }
    ensures sound { OnOk result (IsSound state.new) }
{
    if is_own(state, spelled(bytes, name)) {
        return Err(fault(FaultName::Redeclared, name));
    }
    define(
        alloc,
        bytes,
        &mut state.defs,
        &mut state.bound,
        name,
        params,
        args,
        body,
    )
}

// Defines the gate of a statement, where it is a definition.
fn define_one(
    alloc: Global,
    bytes: &[u8],
    defs: &mut Defs,
    bound: &mut Bounds,
    statement: &Statement,
) -> Result<(), ReadFault>
    requires gates { defs_sound defs.old ≡ true }
    requires names { bound_sound (length defs.old) bound.old ≡ true }
    requires inside { StatementIn bytes.now statement.now }
    ensures defined { Became {B = Gates} result (record { defs = defs.new; bound = bound.new }) (λ r. r ≡ all_defined bytes.now (record { defs = defs.old; bound = bound.old }) (statement.now ∷ [])) }
    ensures gates { OnOk result (defs_sound defs.new ≡ true) }
    ensures names { OnOk result (bound_sound (length defs.new) bound.new ≡ true) }
{
    match statement {
        Statement::Gate {
            name,
            params,
            args,
            body,
        } => define(
            alloc,
            bytes,
            defs,
            bound,
            *name,
            params.items(),
            args.items(),
            body.items(),
        ),
        _ => Ok(()),
    }
}

// Defines the gates of all definitions, in order.
fn define_all(
    alloc: Global,
    bytes: &[u8],
    defs: &mut Defs,
    bound: &mut Bounds,
    statements: &[Statement],
) -> Result<(), ReadFault>
    requires gates { defs_sound defs.old ≡ true }
    requires names { bound_sound (length defs.old) bound.old ≡ true }
    requires inside { All (StatementIn bytes.now) statements.now }
    ensures defined { Became {B = Gates} result (record { defs = defs.new; bound = bound.new }) (λ r. r ≡ all_defined bytes.now (record { defs = defs.old; bound = bound.old }) statements.now) }
    ensures gates { OnOk result (defs_sound defs.new ≡ true) }
    ensures names { OnOk result (bound_sound (length defs.new) bound.new ≡ true) }
{
    for statement in statements {
        match define_one(alloc, bytes, defs, bound, statement) {
            Ok(()) => {}
            Err(fault) => return Err(fault),
        }
    }
    Ok(())
}

/// Includes the library: its gates stand behind those that are there, and each of its names means its gate,
/// unless it means one already. A second time nothing changes. The library has no fault of its own: the only error is
/// `Memory`.
pub fn include(alloc: Global, state: &mut State) -> Result<(), ReadFault>
    requires sound { IsSound state.old }
    ensures included { Became result state.new (Succeeds (Includes state.old)) }
    ensures sound { OnOk result (IsSound state.new) }
{
    if state.library.is_some() {
        return Ok(());
    }
    let bytes = text();
    let program = match text_program(alloc, bytes) {
        Ok(program) => program,
        Err(fault) => return Err(fault),
    };
    let from = count(state.defs.as_slice().len())?;
    let mut names = Bounds::new(alloc);
    match define_all(
        alloc,
        bytes,
        &mut state.defs,
        &mut names,
        program.statements(),
    ) {
        Ok(()) => {}
        Err(fault) => return Err(fault),
    }
    let to = count(state.defs.as_slice().len())?;
    state.bound.keep_all(alloc, &names)?;
    state.library = Some(Shelf { from, to });
    Ok(())
}
