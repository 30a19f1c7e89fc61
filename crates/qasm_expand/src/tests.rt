use crate::blocks::items;
use crate::circuits::circuit;
use crate::fault::{FaultName, ReadFault};
use crate::item_list::Items;
use ps_prim::Prim;
use std::alloc::{AllocError, Global};
use std::sync::Arc;
use std::test::Fail;

// The statements behind the first line of a text, and the fault with its offset.
const FAULTS: &[(&[u8], FaultName, u32)] = &[
    (b"OPENQASM 2.0;@", FaultName::BadByte, 13),
    (b"OPENQASM 2.0;1x", FaultName::BadNumber, 13),
    (b"OPENQASM 2.0;\"a", FaultName::OpenString, 13),
    (b"OPENQASM 3.0;", FaultName::Version, 9),
    (b"OPENQASM 2.0;;", FaultName::Syntax, 13),
    (b"OPENQASM 2.0;reset", FaultName::NotUnitary, 13),
    (b"OPENQASM 2.0;include\"a\"", FaultName::Include, 20),
    (b"OPENQASM 2.0;opaque", FaultName::Opaque, 13),
    (
        b"OPENQASM 2.0;qreg q[1];U(1,0,0)q;",
        FaultName::NotDyadic,
        25,
    ),
    (
        b"OPENQASM 2.0;qreg q[1];U(pi/2^31,0,0)q;",
        FaultName::AngleRange,
        25,
    ),
    (
        b"OPENQASM 2.0;qreg q[1];U(0,a,0)q;",
        FaultName::NoParameter,
        27,
    ),
    (
        b"OPENQASM 2.0;gate g(a) x{U(0,0,b)x;}",
        FaultName::NoParameter,
        31,
    ),
    (
        b"OPENQASM 2.0;qreg q[1];U(0,0,sin(0))q;",
        FaultName::Function,
        29,
    ),
    (
        b"OPENQASM 2.0;qreg q[1];U(pi/0,0,0)q;",
        FaultName::ByZero,
        25,
    ),
    (b"OPENQASM 2.0;qreg q[1];h q;", FaultName::Unknown, 23),
    (b"OPENQASM 2.0;qreg q[1];CX q,r;", FaultName::Unknown, 28),
    (b"OPENQASM 2.0;gate g x{CX x,y;}", FaultName::Unknown, 27),
    (b"OPENQASM 2.0;qreg q[1];U(0,0)q;", FaultName::Arity, 23),
    (
        b"OPENQASM 2.0;qreg q[1];creg q[1];",
        FaultName::Redeclared,
        28,
    ),
    (b"OPENQASM 2.0;gate g x,x{}", FaultName::Redeclared, 22),
    (
        b"OPENQASM 2.0;gate g x{}gate g x{}",
        FaultName::Redeclared,
        28,
    ),
    (b"OPENQASM 2.0;qreg q[0];", FaultName::Range, 20),
    (
        b"OPENQASM 2.0;qreg q[2];CX q[0],q[2];",
        FaultName::Range,
        31,
    ),
    (
        b"OPENQASM 2.0;qreg q[2];CX q,q[1];",
        FaultName::RepeatedQubit,
        28,
    ),
    (
        b"OPENQASM 2.0;qreg q[2];qreg r[3];CX q,r;",
        FaultName::Sizes,
        38,
    ),
    (b"OPENQASM 2.0;qreg q[65];", FaultName::TooMany, 20),
    (b"OPENQASM 2.0;creg q[65];", FaultName::NoQubits, 24),
    (b"OPENQASM 2.0;", FaultName::NoQubits, 13),
];

// Whether the text has this first fault.
fn has_fault(alloc: Global, text: &[u8], name: FaultName, offset: u32) -> bool {
    if text.len() > 64 {
        return false;
    }
    match circuit(alloc, text) {
        Ok(_) => false,
        Err(
            ReadFault::Fault {
                name: found,
                offset: at,
            },
        ) => found == name && at == offset,
        Err(ReadFault::Memory) => false,
    }
}

// Whether each row is told as it ought to be.
fn told(alloc: Global) -> bool {
    for (text, name, offset) in FAULTS {
        if !has_fault(alloc, text, *name, *offset) {
            return false;
        }
    }
    true
}

#[test]
fn each_fault_is_told(rt: HostRuntime) -> Result<(), Fail> {
    assert!(rt; told(rt.alloc()));
    Ok(())
}

// Texts, their qubits, and how many primitive gates each item has.
const CIRCUITS: &[(&[u8], u32, &[usize])] = &[
    (
        b"OPENQASM 2.0;include\"qelib1.inc\";include\"qelib1.inc\";qreg q[3];h q;cx q[0],q[1];",
        3,
        &[1, 1, 1, 1],
    ),
    (
        b"OPENQASM 2.0;qreg a[1];qreg r[3];CX a[0],r;",
        4,
        &[1, 1, 1],
    ),
    (b"OPENQASM 2.0;gate e(x)a{}qreg q[2];e(1/0)q;", 2, &[0, 0]),
    (
        b"OPENQASM 2.0;include\"qelib1.inc\";gate h a{}qreg q[2];h q[0];ch q[0],q[1];",
        2,
        &[0, 7],
    ),
    (
        b"OPENQASM 2.0;gate h a{}include\"qelib1.inc\";qreg q[1];h q;x q;",
        1,
        &[0, 1],
    ),
    (
        b"OPENQASM 2.0;gate g(a)x{U(0,0,a/2)x;}gate k(a)x{g(a*2)x;g(-a)x;}qreg q[1];k(pi)q;",
        1,
        &[2],
    ),
    (b"OPENQASM 2.0;qreg q[2];creg c[2];barrier q,q[0];", 2, &[]),
];

// Whether the text is a circuit on so many qubits, with items of so many primitive gates.
fn has_items(alloc: Global, text: &[u8], qubits: u32, counts: &[usize]) -> bool {
    if text.len() > 128 {
        return false;
    }
    let Ok(circuit) = circuit(alloc, text) else {
        return false;
    };
    let items = circuit.items.as_slice();
    if circuit.qubits != qubits || items.len() != counts.len() {
        return false;
    }
    for i in 0..items.len() {
        if items[i].prims.as_slice().len() != counts[i] {
            return false;
        }
    }
    true
}

// Whether each row comes to what it ought to.
fn read(alloc: Global) -> bool {
    for (text, qubits, counts) in CIRCUITS {
        if !has_items(alloc, text, *qubits, counts) {
            return false;
        }
    }
    true
}

#[test]
fn texts_come_to_their_items(rt: HostRuntime) -> Result<(), Fail> {
    assert!(rt; read(rt.alloc()));
    Ok(())
}

// A primitive gate that is wanted: `U` by its units of pi / 2^30 and its qubit, or `CX`.
#[derive(Clone, Copy)]
enum Gate {
    U(u32, u32, u32, u32),
    Cx(u32, u32),
}

// pi, its half and its quarter, and what stands for their negatives, in units of pi / 2^30.
const PI: u32 = 1_073_741_824;

const HALF: u32 = 536_870_912;

const QUARTER: u32 = 268_435_456;

const MINUS_HALF: u32 = 3_758_096_384;

const MINUS_QUARTER: u32 = 4_026_531_840;

// A text with the library, own gates and registers; one in which a gate replaces one of the library's; and
// one without the library.
const TEXT: &[u8] =
    b"OPENQASM 2.0;include\"qelib1.inc\";gate g(a)x,y{U(0,0,a/2)x;CX x,y;U(0,0,-a/2)y;}gate e x{}qreg q[3];qreg r[1];creg c[2];x q;";

const REPLACED: &[u8] =
    b"OPENQASM 2.0;include\"qelib1.inc\";gate k x{h x;}gate h x{U(0,0,pi)x;}qreg q[2];";

const BARE: &[u8] = b"OPENQASM 2.0;gate e x{}qreg q[64];";

// A text with an own gate of two prims.
const PAIRED: &[u8] =
    b"OPENQASM 2.0;include\"qelib1.inc\";gate b x,y{h x;cx x,y;}qreg q[2];qreg r[2];";

// Texts, blocks behind them, and the items of the blocks.
const BLOCKS: &[(&[u8], &[u8], &[&[Gate]])] = &[
    (
        TEXT,
        b"h q;cx q[0],r[0];",
        &[
            &[Gate::U(HALF, 0, PI, 0)],
            &[Gate::U(HALF, 0, PI, 1)],
            &[Gate::U(HALF, 0, PI, 2)],
            &[Gate::Cx(0, 3)],
        ],
    ),
    (
        TEXT,
        b"g(pi)q,r[0];g(pi/2)r,q[2];",
        &[
            &[
                Gate::U(0, 0, HALF, 0),
                Gate::Cx(0, 3),
                Gate::U(0, 0, MINUS_HALF, 3),
            ],
            &[
                Gate::U(0, 0, HALF, 1),
                Gate::Cx(1, 3),
                Gate::U(0, 0, MINUS_HALF, 3),
            ],
            &[
                Gate::U(0, 0, HALF, 2),
                Gate::Cx(2, 3),
                Gate::U(0, 0, MINUS_HALF, 3),
            ],
            &[
                Gate::U(0, 0, QUARTER, 3),
                Gate::Cx(3, 2),
                Gate::U(0, 0, MINUS_QUARTER, 2),
            ],
        ],
    ),
    (
        TEXT,
        b"U(0,pi,pi/2)q[1];CX r,q[1];",
        &[&[Gate::U(0, PI, HALF, 1)], &[Gate::Cx(3, 1)]],
    ),
    (TEXT, b"e q[1];barrier r,q,q[0];", &[&[]]),
    (
        PAIRED,
        b"b q,r;h q;b q,r;b q[0],r;",
        &[
            &[Gate::U(HALF, 0, PI, 0), Gate::Cx(0, 2)],
            &[Gate::U(HALF, 0, PI, 1), Gate::Cx(1, 3)],
            &[Gate::U(HALF, 0, PI, 0)],
            &[Gate::U(HALF, 0, PI, 1)],
            &[Gate::U(HALF, 0, PI, 0), Gate::Cx(0, 2)],
            &[Gate::U(HALF, 0, PI, 1), Gate::Cx(1, 3)],
            &[Gate::U(HALF, 0, PI, 0), Gate::Cx(0, 2)],
            &[Gate::U(HALF, 0, PI, 0), Gate::Cx(0, 3)],
        ],
    ),
    (
        PAIRED,
        b"rzz(pi)q,r;rzz(pi/2)q[0],r[0];rzz(pi/2)q[0],r[0];cx q[0],r[0];",
        &[
            &[Gate::Cx(0, 2), Gate::U(0, 0, PI, 2), Gate::Cx(0, 2)],
            &[Gate::Cx(1, 3), Gate::U(0, 0, PI, 3), Gate::Cx(1, 3)],
            &[Gate::Cx(0, 2), Gate::U(0, 0, HALF, 2), Gate::Cx(0, 2)],
            &[Gate::Cx(0, 2), Gate::U(0, 0, HALF, 2), Gate::Cx(0, 2)],
            &[Gate::Cx(0, 2)],
        ],
    ),
    (TEXT, b"barrier q,r[0];", &[]),
    (TEXT, b"", &[]),
    (TEXT, b" // nothing", &[]),
    (
        REPLACED,
        b"k q[0];h q[1];",
        &[&[Gate::U(HALF, 0, PI, 0)], &[Gate::U(0, 0, PI, 1)]],
    ),
];

// The items of a block behind a text.
fn behind(alloc: Global, text: &[u8], block: &[u8]) -> Result<Items, ReadFault> {
    if text.len() > 256 || block.len() > 16_777_216 {
        return Err(ReadFault::Memory);
    }
    match circuit(alloc, text) {
        Ok(circuit) => items(alloc, &circuit.table, block),
        Err(fault) => Err(fault),
    }
}

// Whether a primitive gate is the one that is wanted.
fn is_gate(prim: Prim, gate: Gate) -> bool {
    match prim {
        Prim::U {
            theta,
            phi,
            lambda,
            q,
        } => match gate {
            Gate::U(a, b, c, d) => {
                theta.units() == a && phi.units() == b && lambda.units() == c && q == d
            }
            Gate::Cx(_, _) => false,
        },
        Prim::Cx { c, t } => match gate {
            Gate::U(_, _, _, _) => false,
            Gate::Cx(a, b) => c == a && t == b,
        },
    }
}

// Whether primitive gates are those that are wanted.
fn are_gates(prims: &[Prim], gates: &[Gate]) -> bool {
    if prims.len() != gates.len() {
        return false;
    }
    for i in 0..prims.len() {
        if !is_gate(prims[i], gates[i]) {
            return false;
        }
    }
    true
}

// Whether the block has just these items behind the text.
fn has_block(alloc: Global, text: &[u8], block: &[u8], wanted: &[&[Gate]]) -> bool {
    let Ok(items) = behind(alloc, text, block) else {
        return false;
    };
    let list = items.as_slice();
    if list.len() != wanted.len() {
        return false;
    }
    for i in 0..list.len() {
        if !are_gates(list[i].prims.as_slice(), wanted[i]) {
            return false;
        }
    }
    true
}

// Whether each row comes to what it ought to.
fn blocks_read(alloc: Global) -> bool {
    for (text, block, wanted) in BLOCKS {
        if !has_block(alloc, text, block, wanted) {
            return false;
        }
    }
    true
}

#[test]
fn blocks_come_to_their_items(rt: HostRuntime) -> Result<(), Fail> {
    assert!(rt; blocks_read(rt.alloc()));
    Ok(())
}

// Whether each item that a broadcast gate comes to is shared with the second time: two pointers stand in the
// list, and one is kept.
fn equal_are_shared(alloc: Global) -> bool {
    let Ok(items) = behind(alloc, PAIRED, b"b q,r;b q,r;") else {
        return false;
    };
    let list = items.as_slice();
    list.len() == 4 && Arc::strong_count(&list[0]) == 3 && Arc::strong_count(&list[3]) == 3
}

#[test]
fn equal_items_are_shared(rt: HostRuntime) -> Result<(), Fail> {
    assert!(rt; equal_are_shared(rt.alloc()));
    Ok(())
}

// Texts, blocks behind them, and the fault with its offset in the block.
const BLOCK_FAULTS: &[(&[u8], &[u8], FaultName, u32)] = &[
    (TEXT, b"qreg s[1];@", FaultName::BadByte, 10),
    (TEXT, b"h q;\"a", FaultName::OpenString, 4),
    (TEXT, b"include\"qelib1.inc\";", FaultName::Syntax, 0),
    (TEXT, b"h q;qreg s[1];", FaultName::Syntax, 4),
    (TEXT, b"creg d[1];", FaultName::Syntax, 0),
    (TEXT, b"gate f x{}", FaultName::Syntax, 0),
    (TEXT, b"OPENQASM 2.0;", FaultName::Syntax, 0),
    (TEXT, b"\"qelib1.inc\"", FaultName::Syntax, 0),
    (TEXT, b"h q", FaultName::Syntax, 3),
    (TEXT, b"foo q;qreg", FaultName::Syntax, 6),
    (TEXT, b"h q;measure", FaultName::NotUnitary, 4),
    (TEXT, b"opaque", FaultName::Opaque, 0),
    (TEXT, b"h q;foo q;", FaultName::Unknown, 4),
    (BARE, b"h q;", FaultName::Unknown, 0),
    (TEXT, b"h s;", FaultName::Unknown, 2),
    (TEXT, b"h c;", FaultName::Unknown, 2),
    (TEXT, b"barrier q,c;", FaultName::Unknown, 10),
    (TEXT, b"h(0)q;", FaultName::Arity, 0),
    (TEXT, b"g(0)q;", FaultName::Arity, 0),
    (TEXT, b"h q[3];", FaultName::Range, 2),
    (TEXT, b"barrier q[3];", FaultName::Range, 8),
    (TEXT, b"cx q,r;", FaultName::Sizes, 5),
    (TEXT, b"cx q[1],q[1];", FaultName::RepeatedQubit, 8),
    (TEXT, b"cx q,q[2];", FaultName::RepeatedQubit, 5),
    (TEXT, b"u1(pi/0)q;", FaultName::ByZero, 3),
    (TEXT, b"u1(a)q;", FaultName::NoParameter, 3),
    (TEXT, b"u1(sin(0))q;", FaultName::Function, 3),
    (TEXT, b"h q;u1(1)q;", FaultName::NotDyadic, 4),
    (TEXT, b"h q;U(0,0,pi/2^31)q;", FaultName::AngleRange, 10),
];

// Whether the block has this first fault behind the text.
fn has_block_fault(alloc: Global, text: &[u8], block: &[u8], name: FaultName, offset: u32) -> bool {
    match behind(alloc, text, block) {
        Ok(_) => false,
        Err(
            ReadFault::Fault {
                name: found,
                offset: at,
            },
        ) => found == name && at == offset,
        Err(ReadFault::Memory) => false,
    }
}

// Whether each row is told as it ought to be.
fn blocks_told(alloc: Global) -> bool {
    for (text, block, name, offset) in BLOCK_FAULTS {
        if !has_block_fault(alloc, text, block, *name, *offset) {
            return false;
        }
    }
    true
}

#[test]
fn each_fault_of_a_block_is_told(rt: HostRuntime) -> Result<(), Fail> {
    assert!(rt; blocks_told(rt.alloc()));
    Ok(())
}

// A block that applies a gate 1,024 times to a register of 64 qubits, and more behind it.
fn full(alloc: Global, more: &[u8]) -> Result<Vec<u8>, AllocError> {
    let mut block = Vec::new(alloc);
    for _ in 0..1024 {
        block.extend_from_slice(b"e q;")?;
    }
    block.extend_from_slice(more)?;
    Ok(block)
}

// Whether 65,536 items are read, and one more is told.
fn full_is_read(alloc: Global) -> bool {
    let (Ok(block), Ok(over)) = (full(alloc, b"barrier q;"), full(alloc, b"e q[0];")) else {
        return false;
    };
    let Ok(items) = behind(alloc, BARE, &block) else {
        return false;
    };
    items.as_slice().len() == 65_536
        && has_block_fault(alloc, BARE, &over, FaultName::TooMany, 4096)
}

#[test]
fn a_block_has_at_most_65536_items(rt: HostRuntime) -> Result<(), Fail> {
    assert!(rt; full_is_read(rt.alloc()));
    Ok(())
}
