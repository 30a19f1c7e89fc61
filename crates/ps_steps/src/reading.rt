//! Reading a derivation.

ghost use Rattle.std.specs.Prelude.{◌≡◌, ◌≤◌, ◌+◌, ◌<◌, length, List};
ghost use Rattle.std.specs.Prelude.{true};
ghost use Rattle.ps_steps.specs.Steps.{is_derivation};
ghost use Rattle.ps_steps.specs.Texts.{lines_of, IsReading, Known, Only, IsEnding};

use super::derivation::Derivation;
use super::fault::StepFault;
use super::lines::{Line, Lines};
use super::pieces::split;
use super::spelling::{is_end, standing};
use std::alloc::Global;

// The number of the line behind these.
fn number(lines: &[Line]) -> u32
    requires { length lines.now < 4294967295 }
    ensures { result ≡ length lines.now + 1 }
{
    lines.len() as u32 + 1
}

// The derivation, where nothing stands behind its end.
fn ended(lines: Vec<Line>, rest: &[u8]) -> Result<Derivation, StepFault>
    requires form { is_derivation lines.items ≡ true }
    requires few { length lines.items < 4294967295 }
    ensures { IsEnding lines.items rest.now (lines_of result) }
{
    if !rest.is_empty() {
        return Err(StepFault::Form(number(&lines)));
    }
    Ok(Derivation {
        lines: Lines::from_vec(lines),
    })
}

fn read_lines(alloc: Global, text: &[u8]) -> Result<Derivation, StepFault>
    requires { length text.now ≤ 4294967294 }
    ensures { Known (lines_of result) (IsReading text.now) }
{
    let mut lines = Vec::new(alloc);
    let mut rest = text;
    loop {
        let parts = match split(rest, b'\n') {
            Some(parts) => parts,
            None => return Err(StepFault::Cut(number(&lines))),
        };
        let line = match standing(parts.piece, lines.is_empty()) {
            Some(line) => line,
            None => return Err(StepFault::Form(number(&lines))),
        };
        lines.push(line)?;
        rest = parts.rest;
        if is_end(&line) {
            return ended(lines, rest);
        }
    }
}

/// The derivation whose text the bytes are. Condition: at most 4,294,967,294 bytes.
///
/// `StepFault::Form` is the first line that is of no form or may not stand there, and the line behind
/// `end` where anything stands there, with LF or without. `StepFault::Cut` comes where the lines before
/// are right and the text ends before `end`, whatever stands in a last piece without LF. Both have the
/// number of the line, counted from 1. `StepFault::Memory` is want of memory.
pub fn read(alloc: Global, text: &[u8]) -> Result<Derivation, StepFault>
    requires { length text.now ≤ 4294967294 }
    // The lines are those that the bytes spell; a fault is where it is told.
    ensures reads { Known (lines_of result) (IsReading text.now) }
    // Whatever the bytes are read as is this: so the text of a derivation is read as that derivation.
    ensures only { Only (lines_of result) (IsReading text.now) }
{
    read_lines(alloc, text)
}
