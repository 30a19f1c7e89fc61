//! Spellings that are names, and spellings that are not; scripts, and their first faults.
use crate::{Command, Name, Place, ScriptFault, read};
use std::test::Fail;

// Whether a command has these parts.
fn is_splice(command: &Command, version: u32, from: u32, to: u32, bytes: &[u8]) -> bool {
    match command {
        Command::Splice {
            place,
            from: f,
            to: t,
            block,
        } => { place.version == version && *f == from && *t == to && block.as_slice() == bytes }
        _ => false,
    }
}

fn is_open(command: &Command, name: &[u8], bytes: &[u8]) -> bool {
    match command {
        Command::Open { name: n, text } => n.as_bytes() == name && text.as_slice() == bytes,
        _ => false,
    }
}

fn is_ask(command: &Command, name: &[u8], version: u32) -> bool {
    match command {
        Command::Ask { first, .. } => first.name.as_bytes() == name && first.version == version,
        _ => false,
    }
}

fn is_ask_phase(command: &Command, name: &[u8], version: u32) -> bool {
    match command {
        Command::AskPhase { second, .. } => {
            second.name.as_bytes() == name && second.version == version
        }
        _ => false,
    }
}

#[test]
fn reads_names(rt: HostRuntime) -> Result<(), Fail> {
    for (bytes, want) in [
        (b"g".as_slice(), true),
        (b"adder_8".as_slice(), true),
        (b"a23456789_123456789_123456789_12".as_slice(), true),
        (b"a23456789_123456789_123456789_123".as_slice(), false),
        (b"".as_slice(), false),
        (b"_a".as_slice(), false),
        (b"8a".as_slice(), false),
        (b"aB".as_slice(), false),
        (b"a b".as_slice(), false),
    ] {
        match Name::of(bytes) {
            Some(name) => {
                assert!(rt; want);
                assert_eq!(rt; name.as_bytes(), bytes);
                let place = Place { name, version: 1 };
                assert!(rt; place == place);
            }
            None => assert!(rt; !want),
        }
    }
    Ok(())
}

#[test]
fn reads_scripts(rt: HostRuntime) -> Result<(), Fail> {
    let bytes =
        b"# one\n0 open g\nqreg q[2];\r\n..\n.\n\n15 splice g 1 0 4294967295\r\n.\r\n3 ask phase 1 a 1\n3 ask phase a 1 b_2 2\n4 prove a 1 b 1\n4 retire a 1\n4 sum a 1\n4 show a 0";
    let Ok(script) = read(rt.alloc(), bytes.as_slice()) else {
        panic!(rt; "a script")
    };
    let lines = script.lines.as_slice();
    assert_eq!(rt; lines.len(), 8);
    for (line, session) in lines.iter().zip([0, 15, 3, 3, 4, 4, 4, 4]) {
        assert_eq!(rt; line.session, session);
    }
    let [open, splice, ask, ask_phase, prove, retire, sum, show] = lines else {
        panic!(rt; "eight lines")
    };
    assert!(rt; is_open(&open.command, b"g", b"qreg q[2];\r\n..\n"));
    assert!(rt; is_splice(&splice.command, 1, 0, 4_294_967_295, b""));
    assert!(rt; is_ask(&ask.command, b"phase", 1));
    assert!(rt; is_ask_phase(&ask_phase.command, b"b_2", 2));
    assert!(rt; matches!(prove.command, Command::Prove { .. }));
    assert!(rt; matches!(retire.command, Command::Retire { .. }));
    assert!(rt; matches!(sum.command, Command::Sum { .. }));
    assert!(rt; matches!(show.command, Command::Show { .. }));
    Ok(())
}

#[test]
fn finds_faults(rt: HostRuntime) -> Result<(), Fail> {
    let rows: [(&[u8], ScriptFault); 20] = [
        (b"16 show g 1", ScriptFault::Session(1)),
        (b"0 show g", ScriptFault::Form(1)),
        (b"0 open g", ScriptFault::Block(1)),
        (b"16 open g\n", ScriptFault::Session(1)),
        (b"4294967295 show g 1", ScriptFault::Session(1)),
        (b"4294967296 show g 1", ScriptFault::Form(1)),
        (b"00 show g 1", ScriptFault::Form(1)),
        (b"0 show g 01", ScriptFault::Form(1)),
        (b"0 show a 1\r", ScriptFault::Form(1)),
        (b"0  show a 1", ScriptFault::Form(1)),
        (b"0 show a 1 ", ScriptFault::Form(1)),
        (b" 0 show a 1", ScriptFault::Form(1)),
        (b" ", ScriptFault::Form(1)),
        (b"0 show A 1", ScriptFault::Form(1)),
        (b"0 hide a 1", ScriptFault::Form(1)),
        (b"0 show a 1\n0 open g\n.\r", ScriptFault::Block(2)),
        (b"0 open g\n. \n.\n\n0 splice g 1 0", ScriptFault::Form(5)),
        (
            b"0 ask phase 1 a 1\n0 ask phase phase 1 a",
            ScriptFault::Form(2),
        ),
        (b"#\n\r\n0 sum a 1\n.\n", ScriptFault::Form(4)),
        (
            b"0 show a 1\n1 open b\nx\n16 show a 1",
            ScriptFault::Block(2),
        ),
    ];
    for (bytes, wanted) in rows {
        match read(rt.alloc(), bytes) {
            Ok(_) => panic!(rt; "no fault"),
            Err(fault) => assert_eq!(rt; fault, wanted),
        }
    }
    for bytes in [b"".as_slice(), b"\n", b"# 0", b"0 open g\n.", b"\r\n#"] {
        assert!(rt; read(rt.alloc(), bytes).is_ok());
    }
    Ok(())
}
