//! What applications come to.

ghost use Rattle.std.specs.Prelude.{MatchResult, ◌≢◌, ◌≡◌, ◌+◌, ◌≤◌, ◌<◌, ◌++◌, ◌∷◌, [], ℕ, true, length, map, get_or, slice_get, Some, All, OnOk, OnErr, IfOk};
ghost use Rattle.std.specs.List.{range_with_len};
ghost use Rattle.qasm_angle.specs.declared.types.Pair.{Pair};
ghost use Rattle.qasm_angle.specs.Values.{Told};
ghost use Rattle.qasm_angle.specs.declared.types.AngleFault.TheVariants.{Memory};
ghost use Rattle.ps_prim.specs.Maps.{AllWithin};
ghost use Rattle.ps_prim.specs.declared.prims.Primitive.TheVariants.{Cx as CxPrim};
ghost use Rattle.qasm_expand.specs.declared.defs.Called.TheVariants.{U, Cx, Def as ADef};
ghost use Rattle.qasm_expand.specs.declared.broken.Broken.TheVariants.{Inside};
ghost use Rattle.qasm_expand.specs.Tables.{defs_sound, is_earlier, params_of, args_of, size_of, all_below};
ghost use Rattle.qasm_expand.specs.Bodies.{IsValue, IsTurn, Each, call, Comes, Answers, Tells};
ghost use Rattle.qasm_expand.specs.Targets.{exprs_of};
ghost use Rattle.qasm_expand.specs.Frames.{InnerFits, FrameFits, stack_work, OpensTo, Does, Steps, DoesAll, Turned, TurnedIn, frame_work};

use crate::broken::{Broken, Stop};
use crate::defs::{Called, Def, Defs, Inner};
use crate::frame::{Frame, Outcome};
use ps_prim::Prim;
use ps_ring::Angle;
use qasm_angle::{AngleFault, Expr, Pair, angle, value};
use qasm_parse::Formula;
use std::alloc::{AllocError, Global};

/// The value of an expression.
fn known(alloc: Global, expr: &Expr, params: &[Pair]) -> Result<Pair, AngleFault>
    ensures { Told result (λ r. IsValue params.now expr.now r) }
{
    let _ops = expr.ops();
    value(alloc, expr, params)
}

/// The value of an expression outside bodies.
fn own_value(alloc: Global, formula: &Formula) -> Result<Pair, AngleFault>
    ensures { Told result (λ r. IsValue [] formula.now.expr r) }
{
    known(alloc, &formula.expr, &[])
}

/// The angle that an expression comes to.
fn turn(alloc: Global, expr: &Expr, params: &[Pair]) -> Result<Angle, AngleFault>
    ensures { Told result (λ r. IsTurn params.now expr.now r) }
{
    match known(alloc, expr, params) {
        Ok(x) => angle(x),
        Err(fault) => Err(fault),
    }
}

/// A `U` with the angles that three expressions come to.
fn turned(
    alloc: Global,
    exprs: (&Expr, &Expr, &Expr),
    params: &[Pair],
    q: u32,
) -> Result<Prim, Stop>
    ensures { Turned params.now (exprs.entry.0.now ∷ exprs.entry.1.now ∷ exprs.entry.2.now ∷ []) q result }
{
    let theta = match turn(alloc, exprs.0, params) {
        Ok(theta) => theta,
        Err(fault) => return Err(Stop { at: 0, fault }),
    };
    let phi = match turn(alloc, exprs.1, params) {
        Ok(phi) => phi,
        Err(fault) => return Err(Stop { at: 1, fault }),
    };
    match turn(alloc, exprs.2, params) {
        Ok(lambda) => Ok(Prim::U {
            theta,
            phi,
            lambda,
            q,
        }),
        Err(fault) => Err(Stop { at: 2, fault }),
    }
}

/// One value more.
fn add(done: &mut Vec<Pair>, x: Pair) -> Result<(), Stop>
    ensures { MatchResult result (λ _. done.new.items ≡ done.old.items ++ x ∷ []) (λ s. s.fault ≡ Memory) }
{
    match done.push(x) {
        Ok(_) => Ok(()),
        Err(_) => Err(Stop {
            at: 0,
            fault: AngleFault::Memory,
        }),
    }
}

/// The values of expressions.
fn values(alloc: Global, exprs: &[Expr], params: &[Pair]) -> Result<Vec<Pair>, Stop>
    ensures { Answers result (Each (IsValue params.now) exprs.now) }
{
    let mut done = Vec::new(alloc);
    for expr in exprs {
        match known(alloc, expr, params) {
            Ok(x) => add(&mut done, x)?,
            Err(fault) => {
                return Err(Stop {
                    at: done.len(),
                    fault,
                });
            }
        }
    }
    Ok(done)
}

/// The values of expressions outside bodies.
fn own_values(alloc: Global, formulas: &[Formula]) -> Result<Vec<Pair>, Stop>
    ensures { Answers result (Each (IsValue []) (exprs_of formulas.now)) }
{
    let mut done = Vec::new(alloc);
    for formula in formulas {
        match own_value(alloc, formula) {
            Ok(x) => add(&mut done, x)?,
            Err(fault) => {
                return Err(Stop {
                    at: done.len(),
                    fault,
                });
            }
        }
    }
    Ok(done)
}

/// The places that stand for a gate's arguments.
fn places_of(alloc: Global, args: &[u32], outer: &[u32]) -> Result<Vec<u32>, AllocError>
    requires { all_below (length outer.now) args.now ≡ true }
    ensures { IfOk result (λ v. v.items ≡ map (λ q. get_or outer.now q 0) args.now) }
{
    let mut places = Vec::new(alloc);
    for arg in args {
        places.push(outer[*arg as usize])?;
    }
    Ok(places)
}

/// The first places.
fn first_places(alloc: Global, count: u32) -> Result<Vec<u32>, AllocError>
    ensures { IfOk result (λ v. v.items ≡ range_with_len 0 count) }
{
    let mut places = Vec::new(alloc);
    for place in 0..count {
        places.push(place)?;
    }
    Ok(places)
}

/// The frame of the body of an application in a frame.
fn opened(
    alloc: Global,
    defs: &[Def],
    frame: &Frame,
    inner: &Inner,
    def: u32,
) -> Result<Frame, AngleFault>
    requires gate { inner.now.gate ≡ ADef def }
    requires there { def < length defs.now }
    requires earlier { def < frame.now.def }
    requires some { size_of defs.now (ADef def) ≢ 0 }
    requires frame { FrameFits defs.now frame.now }
    requires inner { InnerFits defs.now frame.now.def (args_of defs.now (ADef frame.now.def)) inner.now }
    ensures { OpensTo defs.now frame.now inner.now result }
{
    let values = match values(alloc, inner.params.as_slice(), &frame.values) {
        Ok(values) => values,
        Err(stop) => return Err(stop.fault),
    };
    let places = places_of(alloc, inner.args.as_slice(), &frame.places)?;
    Ok(Frame {
        def,
        next: 0,
        values,
        places,
    })
}

/// The `U` that an application in a frame is.
fn universal(alloc: Global, frame: &Frame, inner: &Inner) -> Result<Prim, AngleFault>
    requires three { length inner.now.params ≡ 3 }
    requires one { length inner.now.args ≡ 1 }
    requires below { all_below (length frame.now.places.items) inner.now.args ≡ true }
    ensures { TurnedIn frame.now.values.items inner.now.params (get_or frame.now.places.items (get_or inner.now.args 0 0) 0) result }
{
    let exprs = inner.params.as_slice();
    let q = frame.places[inner.args.as_slice()[0] as usize];
    match turned(alloc, (&exprs[0], &exprs[1], &exprs[2]), &frame.values, q) {
        Ok(prim) => Ok(prim),
        Err(stop) => Err(stop.fault),
    }
}

/// The `CX` that an application in a frame is.
fn controlled(frame: &Frame, inner: &Inner) -> Prim
    requires two { length inner.now.args ≡ 2 }
    requires below { all_below (length frame.now.places.items) inner.now.args ≡ true }
    ensures { result ≡ CxPrim (get_or frame.now.places.items (get_or inner.now.args 0 0) 0) (get_or frame.now.places.items (get_or inner.now.args 1 0) 0) }
{
    let args = inner.args.as_slice();
    Prim::Cx {
        c: frame.places[args[0] as usize],
        t: frame.places[args[1] as usize],
    }
}

/// What an application in a frame comes to.
fn outcome(alloc: Global, defs: &[Def], frame: &Frame, inner: &Inner) -> Result<Outcome, AngleFault>
    requires frame { FrameFits defs.now frame.now }
    requires inner { InnerFits defs.now frame.now.def (args_of defs.now (ADef frame.now.def)) inner.now }
    ensures { Does defs.now frame.now inner.now result }
{
    match inner.gate {
        Called::U => match universal(alloc, frame, inner) {
            Ok(prim) => Ok(Outcome::Prim(prim)),
            Err(fault) => Err(fault),
        },
        Called::Cx => Ok(Outcome::Prim(controlled(frame, inner))),
        Called::Def(def) => {
            let gate = &defs[def as usize];
            if gate.size == 0 {
                return Ok(Outcome::Nothing);
            }
            match opened(alloc, defs, frame, inner, def) {
                Ok(body) => Ok(Outcome::Body(body)),
                Err(fault) => Err(fault),
            }
        }
    }
}

/// Does one application of a frame.
fn step(
    alloc: Global,
    defs: &[Def],
    frame: Frame,
    stack: &mut Vec<Frame>,
    out: &mut Vec<Prim>,
) -> Result<(), AngleFault>
    requires sound { defs_sound defs.now ≡ true }
    requires frame { FrameFits defs.now frame }
    requires frames { All (FrameFits defs.now) stack.old.items }
    ensures frames { OnOk result (All (FrameFits defs.now) stack.new.items) }
    ensures less { OnOk result (stack_work defs.now stack.new.items < stack_work defs.now stack.old.items + frame_work defs.now frame) }
    ensures steps { Steps defs.now (stack.old.items ++ frame ∷ []) stack.new.items out.old.items out.new.items result }
{
    let body = defs[frame.def as usize].body.as_slice();
    if body.len() <= frame.next {
        return Ok(());
    }
    let next = match outcome(alloc, defs, &frame, &body[frame.next]) {
        Ok(next) => next,
        Err(fault) => return Err(fault),
    };
    let mut frame = frame;
    frame.next += 1;
    stack.push(frame)?;
    match next {
        Outcome::Nothing => Ok(()),
        Outcome::Prim(prim) => {
            out.push(prim)?;
            Ok(())
        }
        Outcome::Body(inner) => {
            stack.push(inner)?;
            Ok(())
        }
    }
}

/// Does all that is left of a body, and of the bodies that it applies.
fn whole(alloc: Global, defs: &[Def], first: Frame) -> Result<Vec<Prim>, AngleFault>
    requires sound { defs_sound defs.now ≡ true }
    requires first { FrameFits defs.now first }
    ensures { DoesAll defs.now first result }
{
    let mut out = Vec::new(alloc);
    let mut stack = Vec::new(alloc);
    stack.push(first)?;
    while let Some(frame) = stack.pop() {
        match step(alloc, defs, frame, &mut stack, &mut out) {
            Ok(()) => {}
            Err(fault) => return Err(fault),
        }
    }
    Ok(out)
}

/// The prims of an application of a gate with a body, outside bodies.
fn replaced(
    alloc: Global,
    defs: &[Def],
    def: u32,
    formulas: &[Formula],
) -> Result<Vec<Prim>, Broken>
    requires sound { defs_sound defs.now ≡ true }
    requires there { def < length defs.now }
    ensures { Tells result (Comes defs.now [] (call (ADef def) (exprs_of formulas.now))) }
{
    let gate = &defs[def as usize];
    if gate.size == 0 {
        return Ok(Vec::new(alloc));
    }
    let values = match own_values(alloc, formulas) {
        Ok(values) => values,
        Err(stop) => return Err(Broken::Own(stop)),
    };
    let places = match first_places(alloc, gate.args) {
        Ok(places) => places,
        Err(_) => return Err(Broken::Inside(AngleFault::Memory)),
    };
    let first = Frame {
        def,
        next: 0,
        values,
        places,
    };
    match whole(alloc, defs, first) {
        Ok(prims) => Ok(prims),
        Err(fault) => Err(Broken::Inside(fault)),
    }
}

/// One prim.
fn single(alloc: Global, prim: Prim) -> Result<Vec<Prim>, Broken>
    ensures { MatchResult result (λ v. v.items ≡ prim ∷ []) (λ b. b ≡ Inside Memory) }
{
    let mut prims = Vec::new(alloc);
    match prims.push(prim) {
        Ok(_) => Ok(prims),
        Err(_) => Err(Broken::Inside(AngleFault::Memory)),
    }
}

/// The prim of an application of `U`, outside bodies.
fn own_universal(alloc: Global, formulas: &[Formula]) -> Result<Prim, Stop>
    requires { length formulas.now ≡ 3 }
    ensures { Turned [] (exprs_of formulas.now) 0 result }
{
    let exprs = (&formulas[0].expr, &formulas[1].expr, &formulas[2].expr);
    turned(alloc, exprs, &[], 0)
}

/// The prims of an application outside bodies, on the places of its arguments: its body, and
/// the bodies of the gates in it, with parameters and arguments replaced.
///
/// A gate of size 0 comes to none, whatever its expressions. `Own` is a fault of one of the
/// expressions of the application, with the number of the expression, and `Inside` the first
/// fault in a body. `Memory` can come in place of any answer.
pub fn comes(
    alloc: Global,
    defs: &Defs,
    gate: Called,
    formulas: &[Formula],
) -> Result<Vec<Prim>, Broken>
    requires sound { defs_sound defs.now ≡ true }
    requires there { is_earlier (length defs.now) gate ≡ true }
    requires arity { length formulas.now ≡ params_of defs.now gate }
    requires few { size_of defs.now gate ≤ 4096 }
    ensures told { Tells result (Comes defs.now [] (call gate (exprs_of formulas.now))) }
    ensures count { IfOk result (λ v. length v.items ≤ size_of defs.now gate) }
    ensures within { IfOk result (λ v. AllWithin (args_of defs.now gate) v.items) }
{
    match gate {
        Called::U => match own_universal(alloc, formulas) {
            Ok(prim) => single(alloc, prim),
            Err(stop) => Err(Broken::Own(stop)),
        },
        Called::Cx => single(alloc, Prim::Cx { c: 0, t: 1 }),
        Called::Def(def) => replaced(alloc, defs.as_slice(), def, formulas),
    }
}
