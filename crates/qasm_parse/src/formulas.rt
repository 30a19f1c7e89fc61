//! Expressions of a text.

ghost use Rattle.std.specs.Prelude.{◌≡◌, ℕ, ◌+◌, ◌-◌, ◌<◌, ◌≤◌, ◌^◌, ◌++◌, length, IfOk, OnOk, All, List};
ghost use Rattle.qasm_parse.specs.Phrases.{Told, Listing, Listed, Enclosed, Onward, Not_back};
ghost use Rattle.qasm_parse.specs.Sorts.{IsWithin};
ghost use Rattle.qasm_parse.specs.Formulas.{OpIs, OpsAre, IsFormula, ids as ids_from, id_count, counts, id_at, text_at};
ghost use Rattle.qasm_parse.specs.Grammar.{at as terminal};
ghost use Rattle.qasm_parse.specs.Phrases.{span_of};

use crate::expr::{chain, sort_at};
use crate::fault::ParseFault;
use crate::numbers::numeral;
use crate::phrases::{expect, span};
use crate::program::{Formula, Span, Spans};
use crate::sort::{Level, Mark, Sort};
use crate::terminals::text_of;
use qasm_angle::{Expr, Op};
use qasm_lex::Token;
use std::alloc::{AllocError, Global};

/// 1 at an identifier, 0 elsewhere.
fn count_at(sorts: &[Sort], at: usize) -> u32
    ensures value { result ≡ counts (terminal sorts.now at) }
    ensures few { result ≤ 1 }
{
    match sort_at(sorts, at) {
        Sort::Id => 1,
        _ => 0,
    }
}

/// How many identifiers stand from one token up to another.
fn count_ids(sorts: &[Sort], from: usize, to: usize) -> u32
    requires { to < 2 ^ 32 }
    ensures value { result ≡ id_count sorts.now from (to - from) }
    ensures few { result ≤ to - from }
{
    let mut count = 0;
    for at in from..to {
        count += count_at(sorts, at);
    }
    count
}

/// How many identifiers stand from one token up to another, given how many up to a third.
fn rank(sorts: &[Sort], from: usize, place: usize, before: u32, to: usize) -> u32
    requires ordered { from ≤ place }
    requires known { before ≡ id_count sorts.now from (place - from) }
    requires few { before ≤ place - from }
    requires small { to < 2 ^ 32 }
    ensures value { result ≡ id_count sorts.now from (to - from) }
    ensures few { result ≤ to - from }
{
    if to < place {
        return count_ids(sorts, from, to);
    }
    before + count_ids(sorts, place, to)
}

/// Puts the identifier at a place behind others, where one stands there.
fn push_id(
    out: &mut Vec<Span>,
    tokens: &[Token],
    sorts: &[Sort],
    at: usize,
) -> Result<(), AllocError>
    requires { at < length tokens.now }
    ensures { OnOk result (out.new.items ≡ out.old.items ++ id_at (terminal sorts.now at) (span_of tokens.now at)) }
{
    match sort_at(sorts, at) {
        Sort::Id => {
            out.push(span(tokens, at))?;
            Ok(())
        }
        _ => Ok(()),
    }
}

/// The identifiers from one token up to another.
fn identifiers(
    alloc: Global,
    tokens: &[Token],
    sorts: &[Sort],
    from: usize,
    to: usize,
) -> Result<Vec<Span>, AllocError>
    requires { to ≤ length tokens.now }
    ensures { IfOk result (λ v. v.items ≡ ids_from tokens.now sorts.now from (to - from)) }
{
    let mut out = Vec::new(alloc);
    for at in from..to {
        push_id(&mut out, tokens, sorts, at)?;
    }
    Ok(out)
}

/// The bytes of a token, and none past the last.
pub fn token_text<'a>(bytes: &'a [u8], tokens: &[Token], at: usize) -> &'a [u8]
    requires { All (IsWithin bytes.now) tokens.now }
    ensures value { result.now ≡ text_at bytes.now tokens.now at }
    ensures short { length result.now < 4294967296 }
{
    if at < tokens.len() {
        text_of(bytes, tokens[at])
    } else {
        &bytes[0..0]
    }
}

/// The operation of a mark; an identifier's is given.
fn operation(bytes: &[u8], tokens: &[Token], sorts: &[Sort], from: usize, mark: Mark, id: u32) -> Op
    requires within { All (IsWithin bytes.now) tokens.now }
    requires known { (k : ℕ) → mark ≡ Mark.Id k → id ≡ id_count sorts.now from (k - from) }
    ensures { OpIs bytes.now tokens.now sorts.now from mark result }
{
    match mark {
        Mark::Number(at) => {
            let (digits, ten) = numeral(token_text(bytes, tokens, at as usize));
            Op::Number { digits, ten }
        }
        Mark::Id(_) => Op::Id(id),
        Mark::Pi => Op::Pi,
        Mark::Neg => Op::Neg,
        Mark::Add => Op::Add,
        Mark::Sub => Op::Sub,
        Mark::Mul => Op::Mul,
        Mark::Div => Op::Div,
        Mark::Pow => Op::Pow,
        Mark::Func => Op::Func,
    }
}

/// How many identifiers stand before the place of a mark, where it is one, and that place.
fn ranked(sorts: &[Sort], from: usize, place: usize, before: u32, mark: Mark) -> (usize, u32)
    requires ordered { from ≤ place }
    requires known { before ≡ id_count sorts.now from (place - from) }
    requires few { before ≤ place - from }
    ensures ordered { from ≤ result.0 }
    ensures known { result.1 ≡ id_count sorts.now from (result.0 - from) }
    ensures few { result.1 ≤ result.0 - from }
    ensures id { (k : ℕ) → mark ≡ Mark.Id k → result.1 ≡ id_count sorts.now from (k - from) }
{
    match mark {
        Mark::Id(at) => {
            let id = rank(sorts, from, place, before, at as usize);
            if (at as usize) < from {
                (from, id)
            } else {
                (at as usize, id)
            }
        }
        _ => (place, before),
    }
}

/// The operations of marks.
fn operations(
    alloc: Global,
    bytes: &[u8],
    tokens: &[Token],
    sorts: &[Sort],
    from: usize,
    marks: &[Mark],
) -> Result<Vec<Op>, AllocError>
    requires within { All (IsWithin bytes.now) tokens.now }
    requires small { from < 2 ^ 32 }
    ensures { IfOk result (λ v. OpsAre bytes.now tokens.now sorts.now from marks.now v.items) }
{
    let mut out = Vec::with_capacity(alloc, marks.len())?;
    let mut place = from;
    let mut id = 0;
    for mark in marks {
        (place, id) = ranked(sorts, from, place, id, *mark);
        out.push(operation(bytes, tokens, sorts, from, *mark, id))?;
    }
    Ok(out)
}

/// An expression.
pub fn formula(
    alloc: Global,
    bytes: &[u8],
    tokens: &[Token],
    sorts: &[Sort],
    at: usize,
) -> Result<(Formula, usize), ParseFault>
    requires within { All (IsWithin bytes.now) tokens.now }
    requires small { length sorts.now ≤ 16777216 }
    requires same { length tokens.now ≡ length sorts.now }
    requires inside { at ≤ length sorts.now }
    ensures reads { Told result (IsFormula bytes.now tokens.now sorts.now at) }
    ensures goes_on { Onward sorts.now at result }
{
    let mut marks = Vec::new(alloc);
    let to = chain(Level::Sums, sorts, at, 128, &mut marks)?;
    let ops = operations(alloc, bytes, tokens, sorts, at, &marks)?;
    let ids = identifiers(alloc, tokens, sorts, at, to)?;
    let formula = Formula {
        expr: Expr::new(ops),
        ids: Spans::new(ids),
        from: span(tokens, at).from,
    };
    Ok((formula, to))
}

/// One or more expressions.
pub fn formulas(
    alloc: Global,
    bytes: &[u8],
    tokens: &[Token],
    sorts: &[Sort],
    at: usize,
) -> Result<(Vec<Formula>, usize), ParseFault>
    requires within { All (IsWithin bytes.now) tokens.now }
    requires small { length sorts.now ≤ 16777216 }
    requires same { length tokens.now ≡ length sorts.now }
    requires inside { at ≤ length sorts.now }
    ensures reads { Listing (λ v. v.items) result (Listed sorts.now (IsFormula bytes.now tokens.now sorts.now) at) }
    ensures goes_on { Onward sorts.now at result }
{
    let mut out = Vec::with_capacity(alloc, 1)?;
    let mut from = at;
    loop {
        let (one, to) = formula(alloc, bytes, tokens, sorts, from)?;
        out.push(one)?;
        match sort_at(sorts, to) {
            Sort::Comma => from = to + 1,
            _ => return Ok((out, to)),
        }
    }
}

/// The parameters of an application: expressions in parentheses, where there are any.
pub fn actuals(
    alloc: Global,
    bytes: &[u8],
    tokens: &[Token],
    sorts: &[Sort],
    at: usize,
) -> Result<(Vec<Formula>, usize), ParseFault>
    requires within { All (IsWithin bytes.now) tokens.now }
    requires small { length sorts.now ≤ 16777216 }
    requires same { length tokens.now ≡ length sorts.now }
    requires inside { at ≤ length sorts.now }
    ensures reads { Listing (λ v. v.items) result (Enclosed sorts.now (IsFormula bytes.now tokens.now sorts.now) at) }
    ensures goes_on { Not_back sorts.now at result }
{
    match sort_at(sorts, at) {
        Sort::Open => {}
        _ => return Ok((Vec::new(alloc), at)),
    }
    match sort_at(sorts, at + 1) {
        Sort::Close => Ok((Vec::new(alloc), at + 2)),
        _ => {
            let (list, to) = formulas(alloc, bytes, tokens, sorts, at + 1)?;
            let end = expect(sorts, to, Sort::Close)?;
            Ok((list, end))
        }
    }
}
