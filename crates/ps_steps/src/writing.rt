//! The text of a derivation.

ghost use Rattle.std.specs.Prelude.{◌≡◌, ◌++◌, ◌∷◌, [], IfOk, OnOk, Ok};
ghost use Rattle.std.specs.String.{string_bytes};
ghost use Rattle.ps_steps.specs.Texts.{step_text, line_text, lines_text, derivation_text, IsReading};
ghost use Rattle.ps_steps.specs.declared.lines.Line.TheVariants.{Leaf};

use super::derivation::Derivation;
use super::lines::Line;
use ps_rules::Step;
use std::alloc::{AllocError, Global};
use std::fmt::Write;

// A step and its LF.
fn push_step(text: &mut String, step: Step) -> Result<(), AllocError>
    ensures { OnOk result (string_bytes text.new ≡ string_bytes text.old ++ (step_text step ++ 10 ∷ [])) }
{
    match step {
        Step::Elim { y0 } => write!(text, "elim {y0}\n"),
        Step::Hh { y0, y1 } => write!(text, "hh {y0} {y1}\n"),
        Step::Omega { y0 } => write!(text, "omega {y0}\n"),
    }
}

// A side and a number, and their LF.
fn push_leaf(text: &mut String, b: bool, prim: u32) -> Result<(), AllocError>
    ensures { OnOk result (string_bytes text.new ≡ string_bytes text.old ++ (line_text (Leaf b prim) ++ 10 ∷ [])) }
{
    if b {
        write!(text, "leaf b {prim}\n")
    } else {
        write!(text, "leaf a {prim}\n")
    }
}

// A line and its LF.
fn push_line(text: &mut String, line: Line) -> Result<(), AllocError>
    ensures { OnOk result (string_bytes text.new ≡ string_bytes text.old ++ (line_text line ++ 10 ∷ [])) }
{
    match line {
        Line::Head(form) => write!(text, "pathsum {form}\n"),
        Line::Leaf { b, prim } => push_leaf(text, b, prim),
        Line::Id { b: true } => text.push_str("id b\n"),
        Line::Id { b: false } => text.push_str("id a\n"),
        Line::Join => text.push_str("join\n"),
        Line::Rewrite(step) => push_step(text, step),
        Line::Overlap => text.push_str("overlap\n"),
        Line::End => text.push_str("end\n"),
    }
}

/// The text of a derivation: each line with LF behind it. `read` reads it as this derivation again.
/// `AllocError` is want of memory.
pub fn text(alloc: Global, derivation: &Derivation) -> Result<Vec<u8>, AllocError>
    ensures bytes { IfOk result (λ v. v.items ≡ derivation_text derivation.now) }
    ensures reads { IfOk result (λ v. IsReading v.items (Ok derivation.now.lines)) }
{
    let mut text = String::new(alloc);
    let lines = derivation.lines.as_slice();
    for line in lines {
        push_line(&mut text, *line)?;
    }
    Ok(text.into_bytes())
}
