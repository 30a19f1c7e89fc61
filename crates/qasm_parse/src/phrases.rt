//! Names, arguments and lists.

ghost use Rattle.std.specs.Prelude.{◌≡◌, ◌≢◌, ℕ, ◌<◌, ◌≤◌, length};
ghost use Rattle.qasm_parse.specs.declared.sort.Sort.TheVariants.{End};
ghost use Rattle.qasm_parse.specs.Phrases.{IsSpan, IsArg as ReadsArg, Listed, Enclosed, Told, Listing, Onward, Not_back, Stands, span_of as place_of};

use crate::expr::sort_at;
use crate::fault::ParseFault;
use crate::program::{Arg, Span};
use crate::sort::Sort;
use qasm_lex::Token;
use std::alloc::Global;

/// Whether arguments may have an index.
#[derive(Clone, Copy, Debug, PartialEq, Eq)]
pub enum Form {
    /// In a gate's body they are names.
    Bare,
    /// Elsewhere they may have one.
    Indexed,
}

/// The place of a token.
pub fn span(tokens: &[Token], at: usize) -> Span
    requires { at < length tokens.now }
    ensures { result ≡ place_of tokens.now at }
{
    let token = &tokens[at];
    Span {
        from: token.from,
        to: token.to,
    }
}

/// The place behind a terminal that has to stand there.
pub fn expect(sorts: &[Sort], at: usize, sort: Sort) -> Result<usize, ParseFault>
    requires small { length sorts.now ≤ 16777216 }
    requires inside { at ≤ length sorts.now }
    requires some { sort ≢ End }
    ensures { Stands sorts.now sort at result }
{
    if sort_at(sorts, at) != sort {
        return Err(ParseFault::Syntax(at as u32));
    }
    Ok(at + 1)
}

/// A token of a sort that has to stand there.
pub fn word(
    tokens: &[Token],
    sorts: &[Sort],
    at: usize,
    sort: Sort,
) -> Result<(Span, usize), ParseFault>
    requires small { length sorts.now ≤ 16777216 }
    requires same { length tokens.now ≡ length sorts.now }
    requires inside { at ≤ length sorts.now }
    requires some { sort ≢ End }
    ensures reads { Told result (IsSpan tokens.now sorts.now sort at) }
    ensures goes_on { Onward sorts.now at result }
{
    let to = expect(sorts, at, sort)?;
    Ok((span(tokens, at), to))
}

/// An argument: a register or one of its places.
pub fn arg(
    form: Form,
    tokens: &[Token],
    sorts: &[Sort],
    at: usize,
) -> Result<(Arg, usize), ParseFault>
    requires small { length sorts.now ≤ 16777216 }
    requires same { length tokens.now ≡ length sorts.now }
    requires inside { at ≤ length sorts.now }
    ensures reads { Told result (ReadsArg tokens.now sorts.now form at) }
    ensures goes_on { Onward sorts.now at result }
{
    let (name, to) = word(tokens, sorts, at, Sort::Id)?;
    match form {
        Form::Bare => Ok((Arg { name, index: None }, to)),
        Form::Indexed => match sort_at(sorts, to) {
            Sort::OpenBracket => {
                let (index, end) = word(tokens, sorts, to + 1, Sort::Whole)?;
                let behind = expect(sorts, end, Sort::CloseBracket)?;
                Ok((
                    Arg {
                        name,
                        index: Some(index),
                    },
                    behind,
                ))
            }
            _ => Ok((Arg { name, index: None }, to)),
        },
    }
}

/// One or more arguments.
pub fn args(
    alloc: Global,
    form: Form,
    tokens: &[Token],
    sorts: &[Sort],
    at: usize,
) -> Result<(Vec<Arg>, usize), ParseFault>
    requires small { length sorts.now ≤ 16777216 }
    requires same { length tokens.now ≡ length sorts.now }
    requires inside { at ≤ length sorts.now }
    ensures reads { Listing (λ v. v.items) result (Listed sorts.now (ReadsArg tokens.now sorts.now form) at) }
    ensures goes_on { Onward sorts.now at result }
{
    let mut out = Vec::with_capacity(alloc, 2)?;
    let mut from = at;
    loop {
        let (one, to) = arg(form, tokens, sorts, from)?;
        out.push(one)?;
        match sort_at(sorts, to) {
            Sort::Comma => from = to + 1,
            _ => return Ok((out, to)),
        }
    }
}

/// One or more names.
pub fn names(
    alloc: Global,
    tokens: &[Token],
    sorts: &[Sort],
    at: usize,
) -> Result<(Vec<Span>, usize), ParseFault>
    requires small { length sorts.now ≤ 16777216 }
    requires same { length tokens.now ≡ length sorts.now }
    requires inside { at ≤ length sorts.now }
    ensures reads { Listing (λ v. v.items) result (Listed sorts.now (IsSpan tokens.now sorts.now Sort.Id) at) }
    ensures goes_on { Onward sorts.now at result }
{
    let mut out = Vec::new(alloc);
    let mut from = at;
    loop {
        let (one, to) = word(tokens, sorts, from, Sort::Id)?;
        out.push(one)?;
        match sort_at(sorts, to) {
            Sort::Comma => from = to + 1,
            _ => return Ok((out, to)),
        }
    }
}

/// The formal parameters of a gate: names in parentheses, where there are any.
pub fn formals(
    alloc: Global,
    tokens: &[Token],
    sorts: &[Sort],
    at: usize,
) -> Result<(Vec<Span>, usize), ParseFault>
    requires small { length sorts.now ≤ 16777216 }
    requires same { length tokens.now ≡ length sorts.now }
    requires inside { at ≤ length sorts.now }
    ensures reads { Listing (λ v. v.items) result (Enclosed sorts.now (IsSpan tokens.now sorts.now Sort.Id) at) }
    ensures goes_on { Not_back sorts.now at result }
{
    match sort_at(sorts, at) {
        Sort::Open => {}
        _ => return Ok((Vec::new(alloc), at)),
    }
    match sort_at(sorts, at + 1) {
        Sort::Close => Ok((Vec::new(alloc), at + 2)),
        _ => {
            let (list, to) = names(alloc, tokens, sorts, at + 1)?;
            let end = expect(sorts, to, Sort::Close)?;
            Ok((list, end))
        }
    }
}
