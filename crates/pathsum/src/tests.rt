use super::run;
use ps_io::{MemorySink, MemorySource, OpenGate};
use std::alloc::{AllocError, Global};
use std::sync::Wait;
use std::test::Fail;
use std::thread::Threads;

// What a call over memory reads, which of its reads and writes fail, and how it must end.
#[derive(Clone, Copy)]
struct Row<'a> {
    words: &'a [&'a str],
    input: &'a [u8],
    failing_read: Option<u64>,
    failing_write: Option<u64>,
    status: u8,
    printed: &'a [u8],
}

// Whether the call ends so.
fn ends_so<R: Threads + Wait + Sync>(rt: &R, alloc: Global, row: &Row) -> Result<bool, AllocError> {
    let mut words = Vec::new(alloc);
    for word in row.words {
        words.push(String::from_str(alloc, word)?)?;
    }
    let mut reads = Vec::new(alloc);
    if let Some(call) = row.failing_read {
        reads.push(call)?;
    }
    let mut writes = Vec::new(alloc);
    if let Some(call) = row.failing_write {
        writes.push(call)?;
    }
    let mut source = MemorySource::new(row.input.to_vec(alloc)?, 11, reads);
    let mut sink = MemorySink::new(vec![in alloc; 0; 512]?, writes);
    let ended = run(rt, alloc, &words, &mut source, &mut sink, &OpenGate);
    Ok(ended.status == row.status && sink.held() == row.printed)
}

// A row without faults.
fn told<'a>(words: &'a [&'a str], input: &'a [u8], status: u8, printed: &'a [u8]) -> Row<'a> {
    Row {
        words,
        input,
        failing_read: None,
        failing_write: None,
        status,
        printed,
    }
}

// A row of `same` without faults.
fn same<'a>(input: &'a [u8], status: u8, printed: &'a [u8]) -> Row<'a> {
    told(&["same"], input, status, printed)
}

// Two texts on these qubits with the library, each with its lines.
fn pair(alloc: Global, qubits: u32, first: &str, second: &str) -> Result<String, AllocError> {
    format!(in alloc;
        "OPENQASM 2.0;\ninclude \"qelib1.inc\";\nqreg q[{qubits}];\n{first}====\nOPENQASM 2.0;\ninclude \"qelib1.inc\";\nqreg q[{qubits}];\n{second}"
    )
}

const TOFFOLI: &str = "ccx q[0],q[1],q[2];\n";

#[test]
fn texts_with_the_library_are_answered(rt: HostRuntime) -> Result<(), Fail> {
    let alloc = rt.alloc();
    let twice = format!(in alloc; "{TOFFOLI}{TOFFOLI}")?;
    let rows: [(u32, &str, &str, u8, &[u8]); 13] = [
        (1, "h q[0];\nh q[0];\n", "", 0, b"yes\n"),
        (1, "x q[0];\n", "h q[0];\nz q[0];\nh q[0];\n", 0, b"yes\n"),
        (1, "s q[0];\n", "t q[0];\n", 1, b"no 1\n"),
        (1, "x q[0];\n", "", 1, b"no 0\n"),
        (1, "h q[0];\n", "", 1, b"no 0\n"),
        (1, "u3(2*pi,0,0) q[0];\n", "", 1, b"no 0\n"),
        (3, twice.as_str(), "", 0, b"yes\n"),
        (3, TOFFOLI, "cswap q[0],q[1],q[2];\n", 1, b"no 110\n"),
        (
            1,
            "h q[0];\nt q[0];\nh q[0];\n",
            "",
            2,
            b"unknown stuck k=2 m=1 P=7/8*y0 f=-\n",
        ),
        (1, "rx(pi/3) q[0];\n", "", 65, b"input NotDyadic 4:4\n"),
        (
            1,
            "rx(pi*3/6) q[0];\n",
            "u3(pi/2,-pi/2,pi/2) q[0];\n",
            0,
            b"yes\n",
        ),
        (2, "cx q[0],q[0];\n", "", 65, b"input RepeatedQubit 4:9\n"),
        (
            1,
            "creg c[1];\nmeasure q[0] -> c[0];\n",
            "",
            65,
            b"input NotUnitary 5:1\n",
        ),
    ];
    for (qubits, first, second, status, printed) in rows {
        let input = pair(alloc, qubits, first, second)?;
        assert!(rt; ends_so(&rt, alloc, &same(input.as_bytes(), status, printed))?);
    }
    Ok(())
}

// The phase of the second text against the first; an eighth of a turn more at one input; no multiple.
#[test]
fn texts_are_compared_up_to_a_phase(rt: HostRuntime) -> Result<(), Fail> {
    let alloc = rt.alloc();
    let turned = "h q[0];\ns q[0];\nh q[0];\ns q[0];\nh q[0];\ns q[0];\n";
    let rows: [(&str, &str, u8, &[u8]); 7] = [
        ("u3(2*pi,0,0) q[0];\n", "", 0, b"yes phase 1/2\n"),
        ("", turned, 0, b"yes phase 1/8\n"),
        (turned, "", 0, b"yes phase 7/8\n"),
        ("h q[0];\nh q[0];\n", "", 0, b"yes phase 0\n"),
        ("s q[0];\n", "t q[0];\n", 1, b"no 0 1\n"),
        ("h q[0];\n", "", 1, b"no 0\n"),
        (
            "h q[0];\nt q[0];\nh q[0];\n",
            "",
            2,
            b"unknown stuck k=2 m=1 P=7/8*y0 f=-\n",
        ),
    ];
    for (first, second, status, printed) in rows {
        let input = pair(alloc, 1, first, second)?;
        assert!(rt;
            ends_so(
                &rt,
                alloc,
                &told(&["same", "phase"], input.as_bytes(), status, printed)
            )?
        );
    }
    Ok(())
}

#[test]
fn a_realistic_pair_is_answered(rt: HostRuntime) -> Result<(), Fail> {
    let alloc = rt.alloc();
    let first =
        "creg c[3];\nh q[2];\ncp(pi/2) q[1],q[2];\nh q[1];\ncp(pi/4) q[0],q[2];\ncp(pi/2) q[0],q[1];\nh q[0];\nbarrier q[0],q[1],q[2];\nswap q[0],q[2];\n";
    let second =
        "h q[2];\ncu1(pi/2) q[1],q[2];\nh q[1];\ncu1(pi/4) q[0],q[2];\ncu1(pi/2) q[0],q[1];\nh q[0];\nswap q[0],q[2];\n";
    let input = pair(alloc, 3, first, second)?;
    assert!(rt; ends_so(&rt, alloc, &same(input.as_bytes(), 0, b"yes\n"))?);
    Ok(())
}

// The text-book Toffoli from Clifford and T gates.
const TOFFOLI_BY_HAND: &str =
    "h q[2];\ncx q[1],q[2];\ntdg q[2];\ncx q[0],q[2];\nt q[2];\ncx q[1],q[2];\ntdg q[2];\ncx q[0],q[2];\nt q[1];\nt q[2];\nh q[2];\ncx q[0],q[1];\nt q[0];\ntdg q[1];\ncx q[0],q[1];\n";

#[test]
fn edits_are_answered(rt: HostRuntime) -> Result<(), Fail> {
    let alloc = rt.alloc();
    let moved = format!(in alloc; "{TOFFOLI_BY_HAND}t q[3];\nh q[3];\n")?;
    let rows: [(u32, &str, &str, u8, &[u8]); 14] = [
        (1, "h q[0];\nt q[0];\n", "h q[0];\nt q[0];\n", 0, b"yes\n"),
        (1, "", "", 0, b"yes\n"),
        (1, "x q[0];\nh q[0];\n", "h q[0];\n", 1, b"no 0\n"),
        (
            1,
            "h q[0];\nx q[0];\nh q[0];\n",
            "h q[0];\nh q[0];\n",
            1,
            b"no 0 behind 1\n",
        ),
        (1, "h q[0];\nx q[0];\n", "h q[0];\n", 1, b"no 0 behind 1\n"),
        (
            1,
            "h q[0];\nx q[0];\nx q[0];\nt q[0];\n",
            "h q[0];\nt q[0];\n",
            0,
            b"yes\n",
        ),
        (1, "x q[0];\nx q[0];\n", "x q[0];\n", 1, b"no 0 behind 1\n"),
        (1, "x q[0];\nx q[0];\nx q[0];\n", "x q[0];\n", 0, b"yes\n"),
        (2, "h q[0];\nt q[1];\n", "t q[1];\nh q[0];\n", 0, b"yes\n"),
        (
            2,
            "x q[0];\ncx q[0],q[1];\n",
            "cx q[0],q[1];\nx q[0];\n",
            1,
            b"no 00\n",
        ),
        (
            4,
            "t q[3];\nccx q[0],q[1],q[2];\nh q[3];\n",
            moved.as_str(),
            0,
            b"yes\n",
        ),
        (
            1,
            "x q[0];\nh q[0];\nt q[0];\nh q[0];\n",
            "x q[0];\n",
            2,
            b"unknown stuck k=2 m=1 P=7/8*y0 f=-\n",
        ),
        (
            1,
            "t q[0];\n",
            "rx(pi/3) q[0];\n",
            65,
            b"input NotDyadic 9:4\n",
        ),
        (
            1,
            "x q[0];\n",
            "cx q[0],q[0];\n",
            65,
            b"input RepeatedQubit 9:9\n",
        ),
    ];
    for (qubits, first, second, status, printed) in rows {
        let input = pair(alloc, qubits, first, second)?;
        assert!(rt;
            ends_so(
                &rt,
                alloc,
                &told(&["same", "local"], input.as_bytes(), status, printed)
            )?
        );
    }
    Ok(())
}

#[test]
fn limits_are_told(rt: HostRuntime) -> Result<(), Fail> {
    let alloc = rt.alloc();
    let mut flips = String::from_str(alloc, "")?;
    for i in 0..63u32 {
        flips.push_str(format!(in alloc; "cx q[{i}],q[63];\n")?.as_str())?;
    }
    flips.push_str("u1(pi/8) q[63];\n")?;
    let terms = pair(alloc, 64, flips.as_str(), "")?;
    assert!(rt;
        ends_so(
            &rt,
            alloc,
            &same(terms.as_bytes(), 2, b"unknown passed terms 679120\n")
        )?
    );
    let mut layers = String::from_str(alloc, "")?;
    for _ in 0..7u32 {
        layers.push_str("h q;\nt q;\n")?;
    }
    let variables = pair(alloc, 64, layers.as_str(), "")?;
    assert!(rt;
        ends_so(
            &rt,
            alloc,
            &same(variables.as_bytes(), 2, b"unknown passed variables 513\n")
        )?
    );
    Ok(())
}

const TWICE: &[u8] =
    b"OPENQASM 2.0;\nqreg q[2];\nCX q[0],q[1];\nCX q[0],q[1];\n====\nOPENQASM 2.0;\nqreg q[2];\n";

#[test]
fn texts_without_the_library_are_answered(rt: HostRuntime) -> Result<(), Fail> {
    let rows = [
        same(TWICE, 0, b"yes\n"),
        same(
            b"OPENQASM 2.0;\nqreg q[2];\nCX q[0],q[1];\n====\nOPENQASM 2.0;\nqreg q[2];\n",
            1,
            b"no 10\n",
        ),
        same(
            b"OPENQASM 2.0;\nqreg q[1];\nU(0,pi/4,0) q[0];\nU(0,pi/4,0) q[0];\n====\nOPENQASM 2.0;\nqreg q[1];\nU(0,0,pi/2) q[0];\n",
            0,
            b"yes\n",
        ),
        same(
            b"OPENQASM 2.0;\nqreg q[1];\nU(0,pi/2,0) q[0];\n====\nOPENQASM 2.0;\nqreg q[1];\nU(0,pi/4,0) q[0];\n",
            1,
            b"no 1\n",
        ),
        same(
            b"OPENQASM 2.0;\nqreg q[1];\nU(0,2*pi,0) q[0];\n====\nOPENQASM 2.0;\nqreg q[1];\n",
            0,
            b"yes\n",
        ),
        same(
            b"OPENQASM 2.0;\nqreg q[1];\nh q[0];\n====\nOPENQASM 2.0;\nqreg q[1];\n",
            65,
            b"input Unknown 3:1\n",
        ),
        same(
            b"OPENQASM 2.0;\nqreg q[1];\nU(pi*3/6,0,pi) q[0];\n====\nOPENQASM 2.0;\nqreg r[1];\nU(0.5*pi,0,pi) r[0];\n",
            0,
            b"yes\n",
        ),
    ];
    for row in &rows {
        assert!(rt; ends_so(&rt, rt.alloc(), row)?);
    }
    Ok(())
}

// The first refusal in the order of the work stands, and its place is counted in the whole input.
#[test]
fn refusals_are_told(rt: HostRuntime) -> Result<(), Fail> {
    let rows = [
        same(b"", 65, b"input Separator 1:1\n"),
        same(
            b"OPENQASM 2.0;\nqreg q[1];\n====\nOPENQASM 2.0;\nqreg q[1]",
            65,
            b"input Syntax 5:10\n",
        ),
        same(
            b"OPENQASM 2.0;\nqreg q[1];\nU(pi/3,0,0) q[0];\n====\nOPENQASM 2.0;\nqreg q[1];\n",
            65,
            b"input NotDyadic 3:3\n",
        ),
        same(
            b"OPENQASM 2.0;\nqreg q[1];\nU(pi*3/6,0,pi) q[0];\n====\nOPENQASM 2.0;\nqreg q[2];\nU(0.5*pi,0,pi) q[0];\n",
            65,
            b"input Widths 5:1\n",
        ),
        same(
            b"OPENQASM 2.0;\nqreg q[1];\n====\nOPENQASM 2.0;\nqreg q[2];\nU(pi/3,0,0) q[0];\n",
            65,
            b"input NotDyadic 6:3\n",
        ),
        told(
            &["replay"],
            b"OPENQASM 2.0;\nqreg q[1];\n====\nOPENQASM 2.0;\nqreg q[2];\n",
            65,
            b"input Separator 6:1\n",
        ),
    ];
    for row in &rows {
        assert!(rt; ends_so(&rt, rt.alloc(), row)?);
    }
    Ok(())
}

#[test]
fn separators_are_found(rt: HostRuntime) -> Result<(), Fail> {
    let alloc = rt.alloc();
    let text = "OPENQASM 2.0;\nqreg q[1];\n";
    let rows: [(&str, &str, u8, &[u8]); 7] = [
        ("====\n", text, 0, b"yes\n"),
        ("====\r\n", text, 0, b"yes\n"),
        ("====\r", "", 65, b"input Version 3:6\n"),
        ("====", "", 65, b"input Version 3:5\n"),
        ("==== \n", text, 65, b"input Separator 6:1\n"),
        ("=====\n", text, 65, b"input Separator 6:1\n"),
        ("// ====\n", text, 65, b"input Separator 6:1\n"),
    ];
    for (between, second, status, printed) in rows {
        let input = format!(in alloc; "{text}{between}{second}")?;
        assert!(rt; ends_so(&rt, alloc, &same(input.as_bytes(), status, printed))?);
    }
    Ok(())
}

const DERIVATION: &str =
    "pathsum 1\nleaf a 0\nomega 0\nleaf a 1\nomega 0\njoin\nhh 0 1\nid b\noverlap\nelim 0\nend\n";

#[test]
fn derivations_are_printed(rt: HostRuntime) -> Result<(), Fail> {
    let alloc = rt.alloc();
    let yes = pair(alloc, 1, "h q[0];\nh q[0];\n", "")?;
    assert!(rt;
        ends_so(
            &rt,
            alloc,
            &told(&["prove"], yes.as_bytes(), 0, DERIVATION.as_bytes())
        )?
    );
    let no = pair(alloc, 1, "x q[0];\n", "")?;
    assert!(rt; ends_so(&rt, alloc, &told(&["prove"], no.as_bytes(), 1, b"no 0\n"))?);
    Ok(())
}

#[test]
fn derivations_are_replayed(rt: HostRuntime) -> Result<(), Fail> {
    let alloc = rt.alloc();
    let twice = "h q[0];\nh q[0];\n";
    let rows: [(&str, &str, u8, &[u8]); 9] = [
        (twice, DERIVATION, 0, b"accepted\n"),
        (
            twice,
            "pathsum 1\nleaf a 0\nomega 0\nleaf a 1\nomega 0\njoin\nhh 1 0\nid b\noverlap\nelim 0\nend\n",
            1,
            b"rejected 7 Redex\n",
        ),
        (
            twice,
            "pathsum 1\nleaf a 0\nomega 0\nleaf a 1\nomega 0\njoin\nhh 0 1\nid b\noverlap\nelim 0\n",
            1,
            b"rejected 11 Cut\n",
        ),
        (
            twice,
            "pathsum 1\nleaf a 0\nomega 0\nleaf a 1\nomega 0\njoin\nhh 0 1\nid b\noverlap\nend\n",
            2,
            b"left k=2 m=1 P=0 f=-\n",
        ),
        (
            twice,
            "pathsum 1\nleaf a 2\nomega 0\nleaf a 1\nomega 0\njoin\nhh 0 1\nid b\noverlap\nelim 0\nend\n",
            1,
            b"rejected 2 Order\n",
        ),
        (
            twice,
            "pathsum 1\nleaf a 0\nomega 0\nleaf a 1\nomega 0\njoins\nhh 0 1\nid b\noverlap\nelim 0\nend\n",
            1,
            b"rejected 6 Form\n",
        ),
        (
            twice,
            "pathsum 1\npathsum 1\nleaf a 0\nomega 0\nleaf a 1\nomega 0\njoin\nhh 0 1\nid b\noverlap\nelim 0\nend\n",
            1,
            b"rejected 2 Form\n",
        ),
        (
            "id q[0];\n",
            "pathsum 1\nleaf a 0\nid a\njoin\nid b\noverlap\nelim 0\nend\n",
            0,
            b"accepted\n",
        ),
        (twice, "", 1, b"rejected 1 Cut\n"),
    ];
    for (first, document, status, printed) in rows {
        let texts = pair(alloc, 1, first, "")?;
        let input = format!(in alloc; "{texts}====\n{document}")?;
        assert!(rt;
            ends_so(
                &rt,
                alloc,
                &told(&["replay"], input.as_bytes(), status, printed)
            )?
        );
    }
    Ok(())
}

#[test]
fn words_and_faults_of_the_outside_are_told(rt: HostRuntime) -> Result<(), Fail> {
    let rows = [
        Row {
            failing_read: Some(1),
            ..same(TWICE, 66, b"read\n")
        },
        Row {
            failing_write: Some(0),
            ..same(TWICE, 67, b"")
        },
        told(&[], TWICE, 64, b"words\n"),
        told(&["same", "same"], TWICE, 64, b"words\n"),
        told(&["phase", "phase"], TWICE, 64, b"words\n"),
        told(&["same", "phase", "phase"], TWICE, 64, b"words\n"),
        told(&["local"], TWICE, 64, b"words\n"),
        told(&["Prove"], TWICE, 64, b"words\n"),
        told(&["gen", "1", "17", "3"], TWICE, 64, b"words\n"),
        told(&["run"], b"", 64, b"words\n"),
        told(&["run", "00"], b"", 64, b"words\n"),
        told(&["run", "0", "0"], b"", 64, b"words\n"),
        told(&["run", "17"], b"", 64, b"words\n"),
    ];
    for row in &rows {
        assert!(rt; ends_so(&rt, rt.alloc(), row)?);
    }
    Ok(())
}

#[test]
fn long_input_is_told(rt: HostRuntime) -> Result<(), Fail> {
    let alloc = rt.alloc();
    let longest = vec![in alloc; b' '; 16_777_216]?;
    assert!(rt;
        ends_so(
            &rt,
            alloc,
            &same(&longest, 65, b"input Separator 1:16777217\n")
        )?
    );
    let longer = vec![in alloc; b' '; 16_777_217]?;
    assert!(rt; ends_so(&rt, alloc, &same(&longer, 68, b"too long\n"))?);
    Ok(())
}

// A row of `run 0` without faults.
fn script<'a>(input: &'a [u8], status: u8, printed: &'a [u8]) -> Row<'a> {
    told(&["run", "0"], input, status, printed)
}

const PLUS: &str =
    "0 open a\nOPENQASM 2.0;\ninclude \"qelib1.inc\";\nqreg q[1];\nh q[0];\nh q[0];\n.\n0 open b\nOPENQASM 2.0;\nqreg q[1];\n.\n";

// Circuits are opened, compared, summed and edited; a proof is told with its lines.
#[test]
fn scripts_are_served(rt: HostRuntime) -> Result<(), Fail> {
    let alloc = rt.alloc();
    let asked = format!(in alloc;
        "{PLUS}0 ask a 1 b 1\n0 sum a 1\n0 prove a 1 b 1\n0 open c\nOPENQASM 2.0;\nqreg q[2];\n.\n0 ask a 1 c 1\n"
    )?;
    let answered = format!(in alloc;
        "0 opened 1 missing 1\n0 opened 1 missing 0\n0 yes\n0 sum k=0 m=0 P=0 f=x0\n0 proof 11\n{DERIVATION}0 opened 1 missing 0\n0 widths 1 2\n"
    )?;
    assert!(rt;
        ends_so(
            &rt,
            alloc,
            &script(asked.as_bytes(), 0, answered.as_bytes())
        )?
    );
    let turned = format!(in alloc;
        "{PLUS}0 ask phase a 1 b 1\n0 splice a 1 2 2\nt q[0];\n.\n0 ask a 1 a 2\n0 retire a 1\n0 ask a 1 a 2\n"
    )?;
    assert!(rt;
        ends_so(
            &rt,
            alloc,
            &script(
                turned.as_bytes(),
                0,
                b"0 opened 1 missing 1\n0 opened 1 missing 0\n0 yes phase 0\n0 committed 2 missing 1\n0 no 1\n0 retired\n0 was retired 13\n"
            )
        )?
    );
    Ok(())
}

// A fault of a script is told with its line, before any command is done; what can't be written ends the output.
#[test]
fn scripts_are_refused(rt: HostRuntime) -> Result<(), Fail> {
    let rows = [
        script(b"", 0, b""),
        script(b"# nothing\n\n", 0, b""),
        script(b"16 show g 1\n", 65, b"input Session 1:1\n"),
        script(b"0 show g 1\n0 show g\n", 65, b"input Form 2:1\n"),
        script(b"\n#\n0 open g\n", 65, b"input Block 3:1\n"),
        script(b"15 show g 1\n", 0, b"15 no circuit\n"),
        Row {
            failing_read: Some(1),
            ..script(b"0 show g 1\n0 show g 1\n", 66, b"read\n")
        },
        Row {
            failing_write: Some(0),
            ..script(b"0 show g 1\n", 67, b"")
        },
    ];
    for row in &rows {
        assert!(rt; ends_so(&rt, rt.alloc(), row)?);
    }
    Ok(())
}

// What is drawn from a seed is undone again.
#[test]
fn generated_scripts_are_served(rt: HostRuntime) -> Result<(), Fail> {
    let rows = [
        told(
            &["gen", "1", "2", "3"],
            b"",
            0,
            b"gen 1 2 3\n0 opened 1 missing 0\n0 committed 2 missing 1\n0 committed 3 missing 1\n0 yes\nentries 8\n",
        ),
        Row {
            failing_write: Some(0),
            ..told(&["gen", "1", "2", "3"], b"", 67, b"")
        },
        told(&["gen", "1", "1", "3"], b"", 64, b"words\n"),
        told(&["gen", "1", "2", "0"], b"", 64, b"words\n"),
        told(&["gen", "1", "2", "32769"], b"", 64, b"words\n"),
        told(&["gen", "4294967296", "2", "3"], b"", 64, b"words\n"),
        told(&["gen", "01", "2", "3"], b"", 64, b"words\n"),
        told(&["gen", "+1", "2", "3"], b"", 64, b"words\n"),
        told(&["gen", "1", "2"], b"", 64, b"words\n"),
    ];
    for row in &rows {
        assert!(rt; ends_so(&rt, rt.alloc(), row)?);
    }
    Ok(())
}

// Entry 262,144 has no room: its command is not answered, and that is told.
#[test]
fn full_journals_are_told(rt: HostRuntime) -> Result<(), Fail> {
    let alloc = rt.alloc();
    let mut input = Vec::new(alloc);
    let mut printed = Vec::new(alloc);
    for _ in 0..262_144u32 {
        input.extend_from_slice(b"0 show h 1\n")?;
        printed.extend_from_slice(b"0 no circuit\n")?;
    }
    input.extend_from_slice(b"0 show h 1\n")?;
    printed.extend_from_slice(b"full\n")?;
    let mut words = Vec::new(alloc);
    words.push(String::from_str(alloc, "run")?)?;
    words.push(String::from_str(alloc, "0")?)?;
    let mut source = MemorySource::new(input, 16_384, Vec::new(alloc));
    let mut sink = MemorySink::new(vec![in alloc; 0; 4_194_304]?, Vec::new(alloc));
    let ended = run(&rt, alloc, &words, &mut source, &mut sink, &OpenGate);
    assert_eq!(rt; ended.status, 69);
    assert_eq!(rt; ended.journal.as_slice().len(), 262_144);
    assert!(rt; sink.held() == printed.as_slice());
    Ok(())
}
