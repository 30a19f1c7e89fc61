//! The terminals of tokens.

ghost use Rattle.std.specs.Prelude.{◌≡◌, ◌<◌, ◌≤◌, length, All, IfOk};
ghost use Rattle.qasm_parse.specs.Sorts.{named, is_whole_number, sign_sort, sort_of, sorts_of, spelling, is_version as names_version, IsWithin};

use crate::sort::Sort;
use qasm_lex::{Kind, Token};
use std::alloc::{AllocError, Global};

/// The terminal of a word.
fn word_sort(word: &[u8]) -> Sort
    requires { 0 < length word.now }
    ensures { result ≡ named word.now }
{
    if word == b"include".as_slice() {
        Sort::Include
    } else if word == b"qreg".as_slice() {
        Sort::Qreg
    } else if word == b"creg".as_slice() {
        Sort::Creg
    } else if word == b"gate".as_slice() {
        Sort::Gate
    } else if word == b"opaque".as_slice() {
        Sort::Opaque
    } else if word == b"barrier".as_slice() {
        Sort::Barrier
    } else if word == b"measure".as_slice() {
        Sort::Outside
    } else if word == b"reset".as_slice() {
        Sort::Outside
    } else if word == b"if".as_slice() {
        Sort::Outside
    } else if word == b"pi".as_slice() {
        Sort::Pi
    } else if word == b"sin".as_slice() {
        Sort::Function
    } else if word == b"cos".as_slice() {
        Sort::Function
    } else if word == b"tan".as_slice() {
        Sort::Function
    } else if word == b"exp".as_slice() {
        Sort::Function
    } else if word == b"ln".as_slice() {
        Sort::Function
    } else if word == b"sqrt".as_slice() {
        Sort::Function
    } else if word == b"OPENQASM".as_slice() {
        Sort::OpenQasm
    } else if word == b"U".as_slice() {
        Sort::Universal
    } else if word == b"CX".as_slice() {
        Sort::Cx
    } else if word[0] >= b'a' && word[0] <= b'z' {
        Sort::Id
    } else {
        Sort::Other
    }
}

/// Whether a number has digits alone.
fn is_whole(number: &[u8]) -> bool
    ensures { result ≡ is_whole_number number.now }
{
    number.iter().all(|b| *b >= b'0' && *b <= b'9')
}

/// The terminal of a sign of one byte.
fn sign(b: u8) -> Sort
    ensures { result ≡ sign_sort b }
{
    match b {
        b';' => Sort::Semicolon,
        b',' => Sort::Comma,
        b'(' => Sort::Open,
        b')' => Sort::Close,
        b'[' => Sort::OpenBracket,
        b']' => Sort::CloseBracket,
        b'{' => Sort::OpenBrace,
        b'}' => Sort::CloseBrace,
        b'+' => Sort::Plus,
        b'-' => Sort::Minus,
        b'*' => Sort::Times,
        b'/' => Sort::Over,
        b'^' => Sort::Power,
        _ => Sort::Other,
    }
}

/// The bytes of a token.
pub fn text_of<'a>(bytes: &'a [u8], token: Token) -> &'a [u8]
    requires { IsWithin bytes.now token }
    ensures value { result.now ≡ spelling bytes.now token }
    ensures short { length result.now < 4294967296 }
{
    &bytes[token.from as usize..token.to as usize]
}

/// The terminal of a token.
fn terminal(bytes: &[u8], token: Token) -> Sort
    requires { IsWithin bytes.now token }
    ensures { result ≡ sort_of bytes.now token }
{
    let text = &bytes[token.from as usize..token.to as usize];
    match token.kind {
        Kind::Word => word_sort(text),
        Kind::Number => {
            if is_whole(text) {
                Sort::Whole
            } else {
                Sort::Decimal
            }
        }
        Kind::Text => {
            if text == b"\"qelib1.inc\"".as_slice() {
                Sort::Library
            } else {
                Sort::Text
            }
        }
        Kind::Sign => {
            if text.len() == 1 {
                sign(text[0])
            } else {
                Sort::Other
            }
        }
    }
}

/// The terminals of a text's tokens.
pub fn terminals(alloc: Global, bytes: &[u8], tokens: &[Token]) -> Result<Vec<Sort>, AllocError>
    requires { All (IsWithin bytes.now) tokens.now }
    ensures { IfOk result (λ v. v.items ≡ sorts_of bytes.now tokens.now) }
{
    let mut out = Vec::with_capacity(alloc, tokens.len())?;
    for token in tokens {
        out.push(terminal(bytes, *token))?;
    }
    Ok(out)
}

/// Whether a spelling is that of the version that is read.
pub fn is_version(text: &[u8]) -> bool
    ensures { result ≡ names_version text.now }
{
    text == b"2.0".as_slice() || text == b"2".as_slice()
}
