//! Applications, statements, blocks and texts.

ghost use Rattle.std.specs.Prelude.{◌≡◌, ◌<◌, ◌≤◌, length, All, true};
ghost use Rattle.qasm_parse.specs.Grammar.{at as terminal};
ghost use Rattle.qasm_parse.specs.Sorts.{IsWithin};
ghost use Rattle.qasm_parse.specs.Phrases.{Told, Listing, Onward};
ghost use Rattle.qasm_parse.specs.Statements.{IsCall, IsInner, begins_call};

use crate::expr::sort_at;
use crate::fault::ParseFault;
use crate::formulas::{actuals, formulas};
use crate::phrases::{Form, arg, args, expect, names, span};
use crate::program::{Arg, Args, Call, Called, Formula, Formulas, Inner, Spans};
use crate::sort::Sort;
use qasm_lex::Token;
use std::alloc::Global;

/// `U`, its parameters and its argument.
fn universal(
    alloc: Global,
    form: Form,
    bytes: &[u8],
    tokens: &[Token],
    sorts: &[Sort],
    at: usize,
) -> Result<(Call, usize), ParseFault>
    requires within { All (IsWithin bytes.now) tokens.now }
    requires small { length sorts.now ≤ 16777216 }
    requires same { length tokens.now ≡ length sorts.now }
    requires inside { at < length sorts.now }
    requires begins { terminal sorts.now at ≡ Sort.Universal }
    ensures reads { Told result (IsCall bytes.now tokens.now sorts.now form at) }
    ensures goes_on { Onward sorts.now at result }
{
    let open = expect(sorts, at + 1, Sort::Open)?;
    let (params, to) = formulas(alloc, bytes, tokens, sorts, open)?;
    let close = expect(sorts, to, Sort::Close)?;
    let (one, end) = arg(form, tokens, sorts, close)?;
    let behind = expect(sorts, end, Sort::Semicolon)?;
    let mut list = Vec::new(alloc);
    list.push(one)?;
    let call = Call {
        gate: Called::U,
        at: span(tokens, at),
        params: Formulas::new(params),
        args: Args::new(list),
    };
    Ok((call, behind))
}

/// `CX` and its two arguments.
fn controlled(
    alloc: Global,
    form: Form,
    bytes: &[u8],
    tokens: &[Token],
    sorts: &[Sort],
    at: usize,
) -> Result<(Call, usize), ParseFault>
    requires within { All (IsWithin bytes.now) tokens.now }
    requires small { length sorts.now ≤ 16777216 }
    requires same { length tokens.now ≡ length sorts.now }
    requires inside { at < length sorts.now }
    requires begins { terminal sorts.now at ≡ Sort.Cx }
    ensures reads { Told result (IsCall bytes.now tokens.now sorts.now form at) }
    ensures goes_on { Onward sorts.now at result }
{
    let (control, to) = arg(form, tokens, sorts, at + 1)?;
    let comma = expect(sorts, to, Sort::Comma)?;
    let (target, end) = arg(form, tokens, sorts, comma)?;
    let behind = expect(sorts, end, Sort::Semicolon)?;
    let mut list = Vec::new(alloc);
    list.push(control)?;
    list.push(target)?;
    let params: Vec<Formula> = Vec::new(alloc);
    let call = Call {
        gate: Called::Cx,
        at: span(tokens, at),
        params: Formulas::new(params),
        args: Args::new(list),
    };
    Ok((call, behind))
}

/// A gate by its name, its parameters and its arguments.
fn applied(
    alloc: Global,
    form: Form,
    bytes: &[u8],
    tokens: &[Token],
    sorts: &[Sort],
    at: usize,
) -> Result<(Call, usize), ParseFault>
    requires within { All (IsWithin bytes.now) tokens.now }
    requires small { length sorts.now ≤ 16777216 }
    requires same { length tokens.now ≡ length sorts.now }
    requires inside { at < length sorts.now }
    requires begins { terminal sorts.now at ≡ Sort.Id }
    ensures reads { Told result (IsCall bytes.now tokens.now sorts.now form at) }
    ensures goes_on { Onward sorts.now at result }
{
    let (params, to) = actuals(alloc, bytes, tokens, sorts, at + 1)?;
    let (list, end) = args(alloc, form, tokens, sorts, to)?;
    let behind = expect(sorts, end, Sort::Semicolon)?;
    let call = Call {
        gate: Called::Named,
        at: span(tokens, at),
        params: Formulas::new(params),
        args: Args::new(list),
    };
    Ok((call, behind))
}

/// An application.
pub fn call(
    alloc: Global,
    form: Form,
    bytes: &[u8],
    tokens: &[Token],
    sorts: &[Sort],
    at: usize,
) -> Result<(Call, usize), ParseFault>
    requires within { All (IsWithin bytes.now) tokens.now }
    requires small { length sorts.now ≤ 16777216 }
    requires same { length tokens.now ≡ length sorts.now }
    requires inside { at < length sorts.now }
    requires begins { begins_call (terminal sorts.now at) ≡ true }
    ensures reads { Told result (IsCall bytes.now tokens.now sorts.now form at) }
    ensures goes_on { Onward sorts.now at result }
{
    match sort_at(sorts, at) {
        Sort::Universal => universal(alloc, form, bytes, tokens, sorts, at),
        Sort::Cx => controlled(alloc, form, bytes, tokens, sorts, at),
        Sort::Id => applied(alloc, form, bytes, tokens, sorts, at),
        _ => unreachable!(),
    }
}

/// A statement of a gate's body.
pub fn inner(
    alloc: Global,
    bytes: &[u8],
    tokens: &[Token],
    sorts: &[Sort],
    at: usize,
) -> Result<(Inner, usize), ParseFault>
    requires within { All (IsWithin bytes.now) tokens.now }
    requires small { length sorts.now ≤ 16777216 }
    requires same { length tokens.now ≡ length sorts.now }
    requires inside { at ≤ length sorts.now }
    ensures reads { Told result (IsInner bytes.now tokens.now sorts.now at) }
    ensures goes_on { Onward sorts.now at result }
{
    match sort_at(sorts, at) {
        Sort::Universal | Sort::Cx | Sort::Id => {
            let (found, to) = call(alloc, Form::Bare, bytes, tokens, sorts, at)?;
            Ok((Inner::Apply(found), to))
        }
        Sort::Barrier => {
            let (list, to) = names(alloc, tokens, sorts, at + 1)?;
            let behind = expect(sorts, to, Sort::Semicolon)?;
            Ok((Inner::Barrier(Spans::new(list)), behind))
        }
        Sort::Outside => Err(ParseFault::NotUnitary(at as u32)),
        Sort::Opaque => Err(ParseFault::Opaque(at as u32)),
        _ => Err(ParseFault::Syntax(at as u32)),
    }
}
