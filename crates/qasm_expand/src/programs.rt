//! Tokens and grammar at once.

ghost use Rattle.std.specs.Prelude.{◌≡◌, ◌≤◌, length, IfOk, All};
ghost use Rattle.qasm_parse.specs.Places.{StatementIn};
ghost use Rattle.qasm_expand.specs.Checks.{of_tokens as token_fault, of_grammar as grammar_fault, Known};
ghost use Rattle.qasm_expand.specs.Library.{TextIs, BlockIs};
ghost use Rattle.qasm_expand.specs.Blocks.{IsPlain};

use crate::fault::{FaultName, ReadFault};
use qasm_lex::{LexFault, tokens};
use qasm_parse::{ParseFault, Program, parse, parse_block};
use std::alloc::Global;

// A fault at a byte.
fn at(name: FaultName, offset: u32) -> ReadFault
    ensures { result ≡ ReadFault.Fault name offset }
{
    ReadFault::Fault { name, offset }
}

// A fault of tokens by its name.
fn of_tokens(fault: LexFault) -> ReadFault
    ensures { result ≡ token_fault fault }
{
    match fault {
        LexFault::BadByte(offset) => at(FaultName::BadByte, offset),
        LexFault::BadNumber(offset) => at(FaultName::BadNumber, offset),
        LexFault::OpenString(offset) => at(FaultName::OpenString, offset),
        LexFault::Memory => ReadFault::Memory,
    }
}

// A fault of the grammar by its name.
fn of_grammar(fault: ParseFault) -> ReadFault
    ensures { result ≡ grammar_fault fault }
{
    match fault {
        ParseFault::Version(offset) => at(FaultName::Version, offset),
        ParseFault::Syntax(offset) => at(FaultName::Syntax, offset),
        ParseFault::NotUnitary(offset) => at(FaultName::NotUnitary, offset),
        ParseFault::Include(offset) => at(FaultName::Include, offset),
        ParseFault::Opaque(offset) => at(FaultName::Opaque, offset),
        ParseFault::Deep(offset) => at(FaultName::Deep, offset),
        ParseFault::Memory => ReadFault::Memory,
    }
}

/// The statements of a whole text, or its first fault.
pub fn text_program(alloc: Global, bytes: &[u8]) -> Result<Program, ReadFault>
    requires { length bytes.now ≤ 16777216 }
    ensures reads { Known result (TextIs bytes.now) }
    ensures places { IfOk result (λ p. All (StatementIn bytes.now) p) }
{
    match tokens(alloc, bytes) {
        Ok(list) => match parse(alloc, bytes, &list) {
            Ok(program) => Ok(program),
            Err(fault) => Err(of_grammar(fault)),
        },
        Err(fault) => Err(of_tokens(fault)),
    }
}

/// The statements of a block, which are applications and barriers, or its first fault.
pub fn block_program(alloc: Global, bytes: &[u8]) -> Result<Program, ReadFault>
    requires { length bytes.now ≤ 16777216 }
    ensures reads { Known result (BlockIs bytes.now) }
    ensures places { IfOk result (λ p. All (StatementIn bytes.now) p) }
    ensures plain { IfOk result (λ p. All IsPlain p) }
{
    match tokens(alloc, bytes) {
        Ok(list) => match parse_block(alloc, bytes, &list) {
            Ok(program) => Ok(program),
            Err(fault) => Err(of_grammar(fault)),
        },
        Err(fault) => Err(of_tokens(fault)),
    }
}
