//! Generated blocks, against the recurrence worked out by hand.

use crate::{circuit, mirror};
use std::test::Fail;

#[test]
fn draws_and_undoes(rt: HostRuntime) -> Result<(), Fail> {
    let alloc = rt.alloc();
    // The first numbers are 1015568748, 1586005467 and 2165703038: gate 0 on qubit 0.
    let block = circuit(alloc, 1, 2, 1)?;
    assert_eq!(rt; block.as_slice(), b"x q[0];\n".as_slice());
    // The seed is the greatest one; all kinds of lines but `cx` and `cz`.
    let block = circuit(alloc, 4_294_967_295, 16, 5)?;
    assert_eq!(rt;
        block.as_slice(),
        b"x q[7];\nswap q[5],q[4];\nswap q[0],q[15];\nt q[14];\ns q[12];\n".as_slice()
    );
    let back = mirror(alloc, 4_294_967_295, 16, 5)?;
    assert_eq!(rt;
        back.as_slice(),
        b"sdg q[12];\ntdg q[14];\nswap q[0],q[15];\nswap q[5],q[4];\nx q[7];\n".as_slice()
    );
    Ok(())
}
