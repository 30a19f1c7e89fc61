//! Statements, blocks and whole texts.

ghost use Rattle.std.specs.Prelude.{◌≡◌, ◌<◌, ◌≤◌, length, All, Ok, IfOk};
ghost use Rattle.qasm_lex.specs.Tokens.{Reads};
ghost use Rattle.qasm_parse.specs.Grammar.{at as terminal};
ghost use Rattle.qasm_parse.specs.Sorts.{IsWithin};
ghost use Rattle.qasm_parse.specs.Phrases.{Told, Listing, Onward};
ghost use Rattle.qasm_parse.specs.Places.{StatementIn};
ghost use Rattle.qasm_parse.specs.Statements.{IsStatement, IsProgram, IsText, offset, placed, OfText, OfBlock, Known, Only};

use crate::declarations::declaration;
use crate::expr::sort_at;
use crate::fault::ParseFault;
use crate::formulas::token_text;
use crate::phrases::{Form, args, expect};
use crate::program::{Args, Program, Statement};
use crate::sort::Sort;
use crate::statements::call;
use crate::terminals::{is_version, terminals};
use crate::whence::Whence;
use qasm_lex::Token;
use std::alloc::Global;

/// A barrier.
fn barrier(
    alloc: Global,
    whence: Whence,
    bytes: &[u8],
    tokens: &[Token],
    sorts: &[Sort],
    at: usize,
) -> Result<(Statement, usize), ParseFault>
    requires small { length sorts.now ≤ 16777216 }
    requires same { length tokens.now ≡ length sorts.now }
    requires inside { at < length sorts.now }
    requires begins { terminal sorts.now at ≡ Sort.Barrier }
    ensures reads { Told result (IsStatement bytes.now tokens.now sorts.now whence at) }
    ensures goes_on { Onward sorts.now at result }
{
    let _ = (bytes.len(), whence);
    let (list, to) = args(alloc, Form::Indexed, tokens, sorts, at + 1)?;
    let behind = expect(sorts, to, Sort::Semicolon)?;
    Ok((Statement::Barrier(Args::new(list)), behind))
}

/// A statement.
fn statement(
    alloc: Global,
    whence: Whence,
    bytes: &[u8],
    tokens: &[Token],
    sorts: &[Sort],
    at: usize,
) -> Result<(Statement, usize), ParseFault>
    requires within { All (IsWithin bytes.now) tokens.now }
    requires small { length sorts.now ≤ 16777216 }
    requires same { length tokens.now ≡ length sorts.now }
    requires inside { at < length sorts.now }
    ensures reads { Told result (IsStatement bytes.now tokens.now sorts.now whence at) }
    ensures goes_on { Onward sorts.now at result }
{
    match sort_at(sorts, at) {
        Sort::Universal | Sort::Cx | Sort::Id => {
            let (found, to) = call(alloc, Form::Indexed, bytes, tokens, sorts, at)?;
            Ok((Statement::Apply(found), to))
        }
        Sort::Barrier => barrier(alloc, whence, bytes, tokens, sorts, at),
        Sort::Outside => Err(ParseFault::NotUnitary(at as u32)),
        Sort::Opaque => Err(ParseFault::Opaque(at as u32)),
        Sort::Include | Sort::Qreg | Sort::Creg | Sort::Gate => match whence {
            Whence::Text => declaration(alloc, bytes, tokens, sorts, at),
            Whence::Block => Err(ParseFault::Syntax(at as u32)),
        },
        _ => Err(ParseFault::Syntax(at as u32)),
    }
}

/// Statements up to the end.
fn statements(
    alloc: Global,
    whence: Whence,
    bytes: &[u8],
    tokens: &[Token],
    sorts: &[Sort],
    at: usize,
) -> Result<(Vec<Statement>, usize), ParseFault>
    requires within { All (IsWithin bytes.now) tokens.now }
    requires small { length sorts.now ≤ 16777216 }
    requires same { length tokens.now ≡ length sorts.now }
    requires inside { at ≤ length sorts.now }
    ensures { Listing (λ v. v.items) result (IsProgram bytes.now tokens.now sorts.now whence at) }
{
    let mut out = Vec::new(alloc);
    let mut from = at;
    loop {
        match sort_at(sorts, from) {
            Sort::End => return Ok((out, from)),
            _ => {}
        }
        let (one, to) = statement(alloc, whence, bytes, tokens, sorts, from)?;
        out.push(one)?;
        from = to;
    }
}

/// A whole text.
fn text(
    alloc: Global,
    bytes: &[u8],
    tokens: &[Token],
    sorts: &[Sort],
) -> Result<(Vec<Statement>, usize), ParseFault>
    requires within { All (IsWithin bytes.now) tokens.now }
    requires small { length sorts.now ≤ 16777216 }
    requires same { length tokens.now ≡ length sorts.now }
    ensures { Listing (λ v. v.items) result (IsText bytes.now tokens.now sorts.now) }
{
    match sort_at(sorts, 0) {
        Sort::OpenQasm => {}
        _ => return Err(ParseFault::Version(0)),
    }
    if !is_version(token_text(bytes, tokens, 1)) {
        return Err(ParseFault::Version(1));
    }
    match sort_at(sorts, 2) {
        Sort::Semicolon => {}
        _ => return Err(ParseFault::Version(2)),
    }
    statements(alloc, Whence::Text, bytes, tokens, sorts, 3)
}

/// The offset of a token, and of the end of the text past the last.
fn offset_of(bytes: &[u8], tokens: &[Token], at: u32) -> u32
    requires { length bytes.now ≤ 16777216 }
    ensures { result ≡ offset bytes.now tokens.now at }
{
    match tokens.get(at as usize) {
        Some(token) => token.from,
        None => bytes.len() as u32,
    }
}

/// A fault by the offset of its token.
fn at_offset(bytes: &[u8], tokens: &[Token], fault: ParseFault) -> ParseFault
    requires { length bytes.now ≤ 16777216 }
    ensures { result ≡ placed bytes.now tokens.now fault }
{
    match fault {
        ParseFault::Version(at) => ParseFault::Version(offset_of(bytes, tokens, at)),
        ParseFault::Syntax(at) => ParseFault::Syntax(offset_of(bytes, tokens, at)),
        ParseFault::NotUnitary(at) => ParseFault::NotUnitary(offset_of(bytes, tokens, at)),
        ParseFault::Include(at) => ParseFault::Include(offset_of(bytes, tokens, at)),
        ParseFault::Opaque(at) => ParseFault::Opaque(offset_of(bytes, tokens, at)),
        ParseFault::Deep(at) => ParseFault::Deep(offset_of(bytes, tokens, at)),
        ParseFault::Memory => ParseFault::Memory,
    }
}

/// The program of a whole text, by its tokens.
///
/// The first fault is told at the offset of the token where the reading cannot go on, or at the
/// end of the text: `Version` where the text does not begin with `OPENQASM`, `2.0` or `2`, and
/// `;`; `NotUnitary` and `Opaque` at a statement, also of a body, that begins with `measure`,
/// `reset` or `if`, and with `opaque`; `Include` at a text other than `"qelib1.inc"`; `Deep`
/// where more than 128 parentheses, function calls, unary minuses and `^` are open in an
/// expression; `Syntax` elsewhere. `Memory` can come in place of any answer.
pub fn parse(alloc: Global, bytes: &[u8], tokens: &[Token]) -> Result<Program, ParseFault>
    requires small { length bytes.now ≤ 16777216 }
    requires cut { Reads bytes.now 0 (Ok tokens.now) }
    // The answer is the program of the text, or its first fault by offset.
    ensures reads { Known result (OfText bytes.now tokens.now) }
    // No other program and no other fault is that of the text.
    ensures only { Only result (OfText bytes.now tokens.now) }
    // Each place in the program is that of a token, within the text and not empty, and each `Id`
    // of an expression is below the number of its identifiers.
    ensures places { IfOk result (λ p. All (StatementIn bytes.now) p) }
{
    let sorts = terminals(alloc, bytes, tokens)?;
    match text(alloc, bytes, tokens, &sorts) {
        Ok((list, _)) => Ok(Program::new(list)),
        Err(fault) => Err(at_offset(bytes, tokens, fault)),
    }
}

/// The program of a block, by its tokens: applications and barriers alone.
///
/// The first fault is told as in a whole text; `include`, `qreg`, `creg` and `gate` are `Syntax`.
/// `Memory` can come in place of any answer.
pub fn parse_block(alloc: Global, bytes: &[u8], tokens: &[Token]) -> Result<Program, ParseFault>
    requires small { length bytes.now ≤ 16777216 }
    requires cut { Reads bytes.now 0 (Ok tokens.now) }
    // The answer is the program of the block, or its first fault by offset.
    ensures reads { Known result (OfBlock bytes.now tokens.now) }
    // No other program and no other fault is that of the block.
    ensures only { Only result (OfBlock bytes.now tokens.now) }
    // Each place in the program is that of a token, within the text and not empty, and each `Id`
    // of an expression is below the number of its identifiers.
    ensures places { IfOk result (λ p. All (StatementIn bytes.now) p) }
{
    let sorts = terminals(alloc, bytes, tokens)?;
    match statements(alloc, Whence::Block, bytes, tokens, &sorts, 0) {
        Ok((list, _)) => Ok(Program::new(list)),
        Err(fault) => Err(at_offset(bytes, tokens, fault)),
    }
}
