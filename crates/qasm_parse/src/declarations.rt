//! Declarations: registers, gates and the library.

ghost use Rattle.std.specs.Prelude.{◌≡◌, ◌<◌, ◌≤◌, length, All, true};
ghost use Rattle.qasm_parse.specs.Grammar.{at as terminal};
ghost use Rattle.qasm_parse.specs.Sorts.{IsWithin};
ghost use Rattle.qasm_parse.specs.Phrases.{Told, Listing, Onward};
ghost use Rattle.qasm_parse.specs.Statements.{IsBody, IsRegister, IsDeclaration, begins_declaration, made};

use crate::expr::sort_at;
use crate::fault::ParseFault;
use crate::phrases::{expect, formals, names, span, word};
use crate::program::{Body, Inner, Span, Spans, Statement};
use crate::sort::Sort;
use crate::statements::inner;
use crate::whence::Bits;
use qasm_lex::Token;
use std::alloc::Global;

/// The statements of a gate's body, up to its end.
fn body(
    alloc: Global,
    bytes: &[u8],
    tokens: &[Token],
    sorts: &[Sort],
    at: usize,
) -> Result<(Vec<Inner>, usize), ParseFault>
    requires within { All (IsWithin bytes.now) tokens.now }
    requires small { length sorts.now ≤ 16777216 }
    requires same { length tokens.now ≡ length sorts.now }
    requires inside { at ≤ length sorts.now }
    ensures reads { Listing (λ v. v.items) result (IsBody bytes.now tokens.now sorts.now at) }
    ensures goes_on { Onward sorts.now at result }
{
    let mut out = Vec::new(alloc);
    let mut from = at;
    loop {
        match sort_at(sorts, from) {
            Sort::CloseBrace => return Ok((out, from + 1)),
            _ => {}
        }
        let (one, to) = inner(alloc, bytes, tokens, sorts, from)?;
        out.push(one)?;
        from = to;
    }
}

/// The definition of a gate.
fn gate(
    alloc: Global,
    bytes: &[u8],
    tokens: &[Token],
    sorts: &[Sort],
    at: usize,
) -> Result<(Statement, usize), ParseFault>
    requires within { All (IsWithin bytes.now) tokens.now }
    requires small { length sorts.now ≤ 16777216 }
    requires same { length tokens.now ≡ length sorts.now }
    requires inside { at < length sorts.now }
    requires begins { terminal sorts.now at ≡ Sort.Gate }
    ensures reads { Told result (IsDeclaration bytes.now tokens.now sorts.now at) }
    ensures goes_on { Onward sorts.now at result }
{
    let (name, to) = word(tokens, sorts, at + 1, Sort::Id)?;
    let (params, next) = formals(alloc, tokens, sorts, to)?;
    let (list, end) = names(alloc, tokens, sorts, next)?;
    let open = expect(sorts, end, Sort::OpenBrace)?;
    let (inside, behind) = body(alloc, bytes, tokens, sorts, open)?;
    let gate = Statement::Gate {
        name,
        params: Spans::new(params),
        args: Spans::new(list),
        body: Body::new(inside),
    };
    Ok((gate, behind))
}

/// The declaration of a register.
fn declared(bits: Bits, name: Span, size: Span) -> Statement
    ensures { result ≡ made bits name size }
{
    match bits {
        Bits::Quantum => Statement::Qreg { name, size },
        Bits::Classical => Statement::Creg { name, size },
    }
}

/// The name and the size of a register.
fn register(
    bits: Bits,
    tokens: &[Token],
    sorts: &[Sort],
    at: usize,
) -> Result<(Statement, usize), ParseFault>
    requires small { length sorts.now ≤ 16777216 }
    requires same { length tokens.now ≡ length sorts.now }
    requires inside { at ≤ length sorts.now }
    ensures reads { Told result (IsRegister tokens.now sorts.now (made bits) at) }
    ensures goes_on { Onward sorts.now at result }
{
    let (name, to) = word(tokens, sorts, at, Sort::Id)?;
    let open = expect(sorts, to, Sort::OpenBracket)?;
    let (size, next) = word(tokens, sorts, open, Sort::Whole)?;
    let close = expect(sorts, next, Sort::CloseBracket)?;
    let behind = expect(sorts, close, Sort::Semicolon)?;
    Ok((declared(bits, name, size), behind))
}

/// The library.
fn include(
    bytes: &[u8],
    tokens: &[Token],
    sorts: &[Sort],
    at: usize,
) -> Result<(Statement, usize), ParseFault>
    requires small { length sorts.now ≤ 16777216 }
    requires same { length tokens.now ≡ length sorts.now }
    requires inside { at < length sorts.now }
    requires begins { terminal sorts.now at ≡ Sort.Include }
    ensures reads { Told result (IsDeclaration bytes.now tokens.now sorts.now at) }
    ensures goes_on { Onward sorts.now at result }
{
    let _ = bytes.len();
    match sort_at(sorts, at + 1) {
        Sort::Library => {
            let behind = expect(sorts, at + 2, Sort::Semicolon)?;
            Ok((Statement::Include(span(tokens, at + 1)), behind))
        }
        Sort::Text => Err(ParseFault::Include((at + 1) as u32)),
        _ => Err(ParseFault::Syntax((at + 1) as u32)),
    }
}

/// A statement that declares.
pub fn declaration(
    alloc: Global,
    bytes: &[u8],
    tokens: &[Token],
    sorts: &[Sort],
    at: usize,
) -> Result<(Statement, usize), ParseFault>
    requires within { All (IsWithin bytes.now) tokens.now }
    requires small { length sorts.now ≤ 16777216 }
    requires same { length tokens.now ≡ length sorts.now }
    requires inside { at < length sorts.now }
    requires begins { begins_declaration (terminal sorts.now at) ≡ true }
    ensures reads { Told result (IsDeclaration bytes.now tokens.now sorts.now at) }
    ensures goes_on { Onward sorts.now at result }
{
    match sort_at(sorts, at) {
        Sort::Include => include(bytes, tokens, sorts, at),
        Sort::Qreg => register(Bits::Quantum, tokens, sorts, at + 1),
        Sort::Creg => register(Bits::Classical, tokens, sorts, at + 1),
        Sort::Gate => gate(alloc, bytes, tokens, sorts, at),
        _ => unreachable!(),
    }
}
