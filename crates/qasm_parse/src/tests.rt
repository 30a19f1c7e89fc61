//! Rows of single calls.

use super::{Call, ParseFault, Program, Span, Statement, parse, parse_block};
use qasm_angle::{angle, value};
use qasm_lex::tokens;
use std::alloc::Global;

/// The program of a text, or of a block.
fn read(alloc: Global, block: bool, text: &[u8]) -> Result<Program, ParseFault> {
    if text.len() > 16_777_216 {
        return Err(ParseFault::Memory);
    }
    let cut = match tokens(alloc, text) {
        Ok(cut) => cut,
        Err(_) => return Err(ParseFault::Memory),
    };
    if block {
        return parse_block(alloc, text, &cut);
    }
    parse(alloc, text, &cut)
}

/// How many statements a text or a block has, or its fault.
fn outcome(alloc: Global, block: bool, text: &[u8]) -> Result<usize, ParseFault> {
    match read(alloc, block, text) {
        Ok(program) => Ok(program.statements().len()),
        Err(fault) => Err(fault),
    }
}

const DEEP: &[u8] =
    b"OPENQASM 2;U(--------------------------------------------------------------------------------------------------------------------------------1,0,0) q;";

const DEEPER: &[u8] =
    b"OPENQASM 2;U(---------------------------------------------------------------------------------------------------------------------------------1,0,0) q;";

#[test]
fn texts_have_programs_or_faults(rt: HostRuntime) {
    let rows: [(&[u8], Result<usize, ParseFault>); 40] = [
        (b"OPENQASM 3.0;", Err(ParseFault::Version(9))),
        (
            b"OPENQASM 2.0; include \"a.inc\";",
            Err(ParseFault::Include(22)),
        ),
        (b"OPENQASM 2.0;", Ok(0)),
        (b"OPENQASM 2;", Ok(0)),
        (b"OPENQASM 2.00;", Err(ParseFault::Version(9))),
        (b"OPENQASM 2. ;", Err(ParseFault::Version(9))),
        (b"OPENQASM 02;", Err(ParseFault::Version(9))),
        (b"OPENQASM 2e0;", Err(ParseFault::Version(9))),
        (b"OPENQASM 2.0", Err(ParseFault::Version(12))),
        (b"openqasm 2.0;", Err(ParseFault::Version(0))),
        (b"", Err(ParseFault::Version(0))),
        (b"OPENQASM 2.0;include \"qelib1.inc\";", Ok(1)),
        (b"OPENQASM 2.0;include x;", Err(ParseFault::Syntax(21))),
        (b"OPENQASM 2.0;include", Err(ParseFault::Syntax(20))),
        (b"OPENQASM 2;qreg q[3];creg c[0];", Ok(2)),
        (b"OPENQASM 2;qreg q[2.0];", Err(ParseFault::Syntax(18))),
        (b"OPENQASM 2;qreg U[2];", Err(ParseFault::Syntax(16))),
        (
            b"OPENQASM 2;gate g(a,b) x,y {U(a,b,0) x;CX x,y;g(a) x;barrier x,y;}",
            Ok(1),
        ),
        (b"OPENQASM 2;gate g() x {}", Ok(1)),
        (
            b"OPENQASM 2;gate g x {x x[0];}",
            Err(ParseFault::Syntax(24)),
        ),
        (
            b"OPENQASM 2;gate g x {measure x;}",
            Err(ParseFault::NotUnitary(21)),
        ),
        (
            b"OPENQASM 2;gate g x {opaque x;}",
            Err(ParseFault::Opaque(21)),
        ),
        (
            b"OPENQASM 2;gate g x {qreg x[1];}",
            Err(ParseFault::Syntax(21)),
        ),
        (b"OPENQASM 2;gate g {}", Err(ParseFault::Syntax(18))),
        (b"OPENQASM 2;gate g x {", Err(ParseFault::Syntax(21))),
        (b"OPENQASM 2;x q;y q[0],r[12];z() q;", Ok(3)),
        (b"OPENQASM 2;x;", Err(ParseFault::Syntax(12))),
        (b"OPENQASM 2;x q", Err(ParseFault::Syntax(14))),
        (b"OPENQASM 2;barrier q,r[0];", Ok(1)),
        (b"OPENQASM 2;barrier;", Err(ParseFault::Syntax(18))),
        (b"OPENQASM 2;CX q[0],q[1];", Ok(1)),
        (b"OPENQASM 2;CX q[0];", Err(ParseFault::Syntax(18))),
        (b"OPENQASM 2;U() q;", Err(ParseFault::Syntax(13))),
        (b"OPENQASM 2;U(-1^2*pi/(a+b)-sin(x)) q;", Ok(1)),
        (b"OPENQASM 2;measure q;", Err(ParseFault::NotUnitary(11))),
        (b"OPENQASM 2;reset q;", Err(ParseFault::NotUnitary(11))),
        (b"OPENQASM 2;if", Err(ParseFault::NotUnitary(11))),
        (b"OPENQASM 2;opaque g q;", Err(ParseFault::Opaque(11))),
        (DEEP, Ok(1)),
        (DEEPER, Err(ParseFault::Deep(141))),
    ];
    for (text, wanted) in rows {
        assert_eq!(rt; outcome(rt.alloc(), false, text), wanted);
    }
}

#[test]
fn blocks_declare_nothing(rt: HostRuntime) {
    let rows: [(&[u8], Result<usize, ParseFault>); 9] = [
        (b"", Ok(0)),
        (b"x q[0];barrier q;U(0,0,0) q;", Ok(3)),
        (b"include \"qelib1.inc\";", Err(ParseFault::Syntax(0))),
        (b"x q; qreg q[1];", Err(ParseFault::Syntax(5))),
        (b"creg c[1];", Err(ParseFault::Syntax(0))),
        (b"gate g x {}", Err(ParseFault::Syntax(0))),
        (b"measure q;", Err(ParseFault::NotUnitary(0))),
        (b"opaque q;", Err(ParseFault::Opaque(0))),
        (b"OPENQASM 2;", Err(ParseFault::Syntax(0))),
    ];
    for (text, wanted) in rows {
        assert_eq!(rt; outcome(rt.alloc(), true, text), wanted);
    }
}

/// The name and the size of a register that a program begins with.
fn register(program: &Program) -> Option<(Span, Span)> {
    match program.statements().first() {
        Some(Statement::Qreg { name, size }) => Some((*name, *size)),
        _ => None,
    }
}

/// The first identifier and the first byte of a call's first parameter.
fn parameter(call: &Call) -> Option<(Option<Span>, u32)> {
    match call.params.items().first() {
        Some(formula) => Some((formula.ids.items().first().copied(), formula.from)),
        None => None,
    }
}

/// The parameter of a call that a program ends with.
fn last_parameter(program: &Program) -> Option<(Option<Span>, u32)> {
    match program.statements().last() {
        Some(Statement::Apply(call)) => parameter(call),
        _ => None,
    }
}

/// The units of the angle that a call's first parameter is.
fn units_of(alloc: Global, call: &Call) -> Option<u32> {
    let formula = match call.params.items().first() {
        Some(formula) => formula,
        None => return None,
    };
    let pair = match value(alloc, &formula.expr, &[]) {
        Ok(pair) => pair,
        Err(_) => return None,
    };
    match angle(pair) {
        Ok(angle) => Some(angle.units()),
        Err(_) => None,
    }
}

/// The units of the first parameter of the call that a block ends with.
fn units(alloc: Global, text: &[u8]) -> Option<u32> {
    match read(alloc, true, text) {
        Ok(program) => match program.statements().last() {
            Some(Statement::Apply(call)) => units_of(alloc, call),
            _ => None,
        },
        Err(_) => None,
    }
}

#[test]
fn signs_bind_in_their_order(rt: HostRuntime) {
    let rows: [(&[u8], Option<u32>); 10] = [
        (b"p(2^3^2*pi/1024) q;", Some(536870912)),
        (b"p((-2^2+5)*pi/4) q;", Some(268435456)),
        (b"p(2^-1*pi) q;", Some(536870912)),
        (b"p(8/4/2*pi) q;", Some(1073741824)),
        (b"p((1-2-3)*pi/8) q;", Some(3758096384)),
        (b"p(--pi/2) q;", Some(536870912)),
        (b"p(0.50*pi) q;", Some(536870912)),
        (b"p(.5e0*pi) q;", Some(536870912)),
        (b"p(250e-2*pi/5) q;", Some(536870912)),
        (b"p(2500e-3*pi/5+0*sin(a)) q;", None),
    ];
    for (text, wanted) in rows {
        assert_eq!(rt; units(rt.alloc(), text), wanted);
    }
}

#[test]
fn parts_have_their_places(rt: HostRuntime) {
    let name = Span { from: 16, to: 17 };
    let size = Span { from: 18, to: 19 };
    let id = Span { from: 23, to: 24 };
    match read(rt.alloc(), false, b"OPENQASM 2;qreg q[3];g(a) q[1];") {
        Ok(program) => {
            assert_eq!(rt; register(&program), Some((name, size)));
            assert_eq!(rt; last_parameter(&program), Some((Some(id), 23)));
        }
        Err(fault) => assert_eq!(rt; fault, ParseFault::Memory),
    }
}
