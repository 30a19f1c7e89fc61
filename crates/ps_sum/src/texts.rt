ghost use Rattle.std.specs.Prelude.{◌≡◌, ◌++◌, [], cond, nat_eq, IfOk, OnOk};
ghost use Rattle.std.specs.String.{string_bytes};
ghost use Rattle.ps_sum.specs.Texts.{variable_text, mono_text, fraction_text, factor_text, term_text, phase_text, product_text, output_text, outs_text, sum_text};

use super::sums::PathSum;
use ps_bool::BoolPoly;
use ps_mono::Mono;
use ps_phase::Term;
use ps_ring::Phase;
use std::alloc::{AllocError, Global};
use std::fmt::Write;

// What stands between two: the mark behind each but the first.
fn push_mark(text: &mut String, place: usize, mark: &str) -> Result<(), AllocError>
    ensures { OnOk result (string_bytes text.new ≡ string_bytes text.old ++ cond (nat_eq place 0) [] mark.now) }
{
    if place > 0 {
        text.push_str(mark)?;
    }
    Ok(())
}

// A variable of a sum on `n` qubits.
fn push_variable(text: &mut String, n: u32, v: u16) -> Result<(), AllocError>
    ensures { OnOk result (string_bytes text.new ≡ string_bytes text.old ++ variable_text n v) }
{
    let name = v as u32;
    if name < n {
        write!(text, "x{name}")
    } else {
        let path = name - n;
        write!(text, "y{path}")
    }
}

// The variables of a monomial.
fn push_mono(text: &mut String, n: u32, mono: &Mono) -> Result<(), AllocError>
    ensures { OnOk result (string_bytes text.new ≡ string_bytes text.old ++ mono_text n mono.now) }
{
    for place in 0..mono.degree() {
        push_mark(text, place as usize, ".")?;
        push_variable(text, n, mono.var_at(place))?;
    }
    Ok(())
}

// A phase as a part of a turn.
fn push_fraction(text: &mut String, phase: Phase) -> Result<(), AllocError>
    ensures { OnOk result (string_bytes text.new ≡ string_bytes text.old ++ fraction_text phase) }
{
    let power = phase.power();
    let above = phase.units() as u64 >> power;
    let below = 1u64 << (32 - power);
    write!(text, "{above}/{below}")
}

// What a term has behind its phase.
fn push_factor(text: &mut String, n: u32, mono: &Mono) -> Result<(), AllocError>
    ensures { OnOk result (string_bytes text.new ≡ string_bytes text.old ++ factor_text n mono.now) }
{
    if mono.degree() == 0 {
        return Ok(());
    }
    text.push_str("*")?;
    push_mono(text, n, mono)
}

// The terms of a phase.
fn push_phase(text: &mut String, n: u32, terms: &[Term]) -> Result<(), AllocError>
    ensures { OnOk result (string_bytes text.new ≡ string_bytes text.old ++ phase_text n terms.now) }
{
    if terms.is_empty() {
        return text.push_str("0");
    }
    for place in 0..terms.len() {
        let term = &terms[place];
        push_mark(text, place, "+")?;
        push_fraction(text, term.phase)?;
        push_factor(text, n, &term.mono)?;
    }
    Ok(())
}

// A monomial of an output.
fn push_product(text: &mut String, n: u32, mono: &Mono) -> Result<(), AllocError>
    ensures { OnOk result (string_bytes text.new ≡ string_bytes text.old ++ product_text n mono.now) }
{
    if mono.degree() == 0 {
        return text.push_str("1");
    }
    push_mono(text, n, mono)
}

// An output.
fn push_output(text: &mut String, n: u32, monos: &[Mono]) -> Result<(), AllocError>
    ensures { OnOk result (string_bytes text.new ≡ string_bytes text.old ++ output_text n monos.now) }
{
    if monos.is_empty() {
        return text.push_str("0");
    }
    for place in 0..monos.len() {
        push_mark(text, place, "+")?;
        push_product(text, n, &monos[place])?;
    }
    Ok(())
}

// The outputs.
fn push_outs(text: &mut String, n: u32, polys: &[BoolPoly]) -> Result<(), AllocError>
    ensures { OnOk result (string_bytes text.new ≡ string_bytes text.old ++ outs_text n polys.now) }
{
    if polys.is_empty() {
        return text.push_str("-");
    }
    for place in 0..polys.len() {
        push_mark(text, place, ",")?;
        push_output(text, n, polys[place].monos())?;
    }
    Ok(())
}

impl PathSum {
    /// The sum as text, `k=K m=M P=PHASE f=OUTS`.
    ///
    /// A variable is `x` or `y` with its number, and a monomial its variables joined by `.`. PHASE is
    /// the terms in order joined by `+`, each a fraction of a turn in lowest terms, `*` and the
    /// monomial, or `0`. OUTS is the outputs joined by `,`, each its monomials joined by `+`, with
    /// `1` for the one without variables, or `0`; or `-` where there are none. `AllocError` is want
    /// of memory.
    pub fn text(&self, alloc: Global) -> Result<Vec<u8>, AllocError>
        ensures { IfOk result (λ v. v.items ≡ sum_text self.now) }
    {
        let k = self.k;
        let m = self.m;
        let mut text = format!(in alloc; "k={k} m={m} P=")?;
        push_phase(&mut text, self.n, self.phase.terms())?;
        text.push_str(" f=")?;
        push_outs(&mut text, self.n, self.outs.polys())?;
        Ok(text.into_bytes())
    }
}
