//! Two sessions of a script that splice on one base.

use crate::{Ending, run_alone};
use ps_io::OpenGate;
use ps_journal::Reply;
use ps_script::read;
use std::test::Fail;

#[test]
fn takes_commands_in_the_order_of_the_script(rt: HostRuntime) -> Result<(), Fail> {
    let alloc = rt.alloc();
    let bytes =
        b"0 open g\nOPENQASM 2.0;\ninclude \"qelib1.inc\";\nqreg q[1];\n.\n0 splice g 1 0 0\nh q[0];\n.\n1 splice g 1 0 0\nx q[0];\n.\n";
    let Ok(script) = read(alloc, bytes.as_slice()) else {
        panic!(rt; "a script")
    };
    let run = run_alone(alloc, script, &OpenGate)?;
    assert_eq!(rt; run.ending, Ending::Done);
    assert_eq!(rt; run.journal.as_slice().len(), 3);
    let [opened, committed, stale] = run.responses.as_slice() else {
        panic!(rt; "three responses")
    };
    assert!(rt; opened.session == 0 && matches!(opened.reply, Reply::Opened { missing: 0 }));
    assert!(rt;
        committed.session == 0
            && matches!(
                committed.reply,
                Reply::Committed {
                    version: 2,
                    missing: 1
                }
            )
    );
    assert!(rt; stale.session == 1 && matches!(stale.reply, Reply::Stale(2)));
    Ok(())
}
