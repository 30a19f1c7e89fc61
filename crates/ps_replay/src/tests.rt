ghost use Rattle.std.specs.Prelude.{◌≡◌, ◌≤◌, length};
ghost use Rattle.ps_prim.specs.declared.prims.Primitive.TheVariants.{U};
ghost use Rattle.ps_prim.specs.Maps.{AllWithin};

use super::*;
use ps_prim::Prim;
use ps_ring::Angle;
use std::alloc::{AllocError, Global};
use std::test::Fail;

// What a row wants.
#[derive(Clone, Copy)]
enum Wanted {
    Accepted,
    Left(&'static str),
    Rejected(u32, Why),
}

fn hadamard() -> Prim
    ensures { result ≡ U 536870912 0 1073741824 0 }
{
    Prim::U {
        theta: Angle::of(1 << 29),
        phi: Angle::of(0),
        lambda: Angle::of(1 << 30),
        q: 0,
    }
}

// U with all angles 0.
fn idle() -> Prim
    ensures { result ≡ U 0 0 0 0 }
{
    Prim::U {
        theta: Angle::of(0),
        phi: Angle::of(0),
        lambda: Angle::of(0),
        q: 0,
    }
}

// Whether the answer is the wanted one.
fn is_told(alloc: Global, answer: Replayed, wanted: &Wanted) -> Result<bool, AllocError> {
    match answer {
        Replayed::Accepted => Ok(matches!(wanted, Wanted::Accepted)),
        Replayed::Left(sum) => match wanted {
            Wanted::Left(text) => Ok(sum.text(alloc)?.as_slice() == text.as_bytes()),
            _ => Ok(false),
        },
        Replayed::Rejected { line, why } => match wanted {
            Wanted::Rejected(number, reason) => Ok(line == *number && why == *reason),
            _ => Ok(false),
        },
    }
}

// Whether replaying the text for these gates on one qubit tells so.
fn tells(
    alloc: Global,
    text: &[u8],
    a: &[Prim],
    b: &[Prim],
    wanted: &Wanted,
) -> Result<bool, AllocError>
    requires first { AllWithin 1 a.now }
    requires first_few { length a.now ≤ 65536 }
    requires second { AllWithin 1 b.now }
    requires second_few { length b.now ≤ 65536 }
{
    if text.len() > 65536 {
        return Ok(false);
    }
    is_told(alloc, replay(alloc, text, 1, a, b)?, wanted)
}

// Two Hadamards and no gate: the derivation that they are one map, and this changed in one place.
#[test]
fn two_hadamards(rt: HostRuntime) -> Result<(), Fail> {
    let alloc = rt.alloc();
    let gates = [hadamard(), hadamard()];
    let rows = [
        (
            "pathsum 1\nleaf a 0\nomega 0\nleaf a 1\nomega 0\njoin\nhh 0 1\nid b\noverlap\nelim 0\nend\n",
            Wanted::Accepted,
        ),
        (
            "pathsum 1\nleaf a 0\nomega 0\nleaf a 1\nomega 0\njoin\nhh 1 0\nid b\noverlap\nelim 0\nend\n",
            Wanted::Rejected(7, Why::Redex),
        ),
        (
            "pathsum 1\nleaf a 0\nomega 0\nleaf a 1\nomega 0\njoin\nhh 0 1\nid b\noverlap\nelim 0\n",
            Wanted::Rejected(11, Why::Cut),
        ),
        (
            "pathsum 1\nleaf a 0\nomega 0\nleaf a 1\nomega 0\njoin\nhh 0 1\nid b\noverlap\nend\n",
            Wanted::Left("k=2 m=1 P=0 f=-"),
        ),
        (
            "pathsum 1\nleaf a 2\nomega 0\nleaf a 1\nomega 0\njoin\nhh 0 1\nid b\noverlap\nelim 0\nend\n",
            Wanted::Rejected(2, Why::Order),
        ),
        (
            "pathsum 1\nleaf a 0\nomega 0\nleaf a 1\nomega 0\njoins\nhh 0 1\nid b\noverlap\nelim 0\nend\n",
            Wanted::Rejected(6, Why::Form),
        ),
        (
            "pathsum 1\npathsum 1\nleaf a 0\nomega 0\nleaf a 1\nomega 0\njoin\nhh 0 1\nid b\noverlap\nelim 0\nend\n",
            Wanted::Rejected(2, Why::Form),
        ),
    ];
    for (text, wanted) in &rows {
        assert!(rt; tells(alloc, text.as_bytes(), &gates, &[], wanted)?);
    }
    Ok(())
}

// Forged derivations that two Hadamards are no gate: sums that are not those of the lines before.
#[test]
fn forged_sums(rt: HostRuntime) -> Result<(), Fail> {
    let alloc = rt.alloc();
    let gates = [hadamard(), hadamard()];
    let rows = [
        // the overlap of two identities is 1, and is not that of all gates
        (
            "pathsum 1\nid a\nid b\noverlap\nelim 0\nend\n",
            Wanted::Rejected(4, Why::Order),
        ),
        // one gate twice, and two the wrong way round
        (
            "pathsum 1\nleaf a 0\nleaf a 0\njoin\nid b\noverlap\nend\n",
            Wanted::Rejected(4, Why::Order),
        ),
        (
            "pathsum 1\nleaf a 1\nleaf a 0\njoin\nid b\noverlap\nend\n",
            Wanted::Rejected(4, Why::Order),
        ),
        // sums of two sides
        (
            "pathsum 1\nid b\nleaf a 0\njoin\nend\n",
            Wanted::Rejected(4, Why::Order),
        ),
        // a gate of the other side
        (
            "pathsum 1\nleaf a 0\nleaf b 0\nend\n",
            Wanted::Rejected(3, Why::Order),
        ),
        // nothing to step on or to join
        ("pathsum 1\nelim 0\nend\n", Wanted::Rejected(2, Why::Order)),
        (
            "pathsum 1\nid a\njoin\nend\n",
            Wanted::Rejected(3, Why::Order),
        ),
        // steps that do not apply
        (
            "pathsum 1\nleaf a 0\nelim 0\nend\n",
            Wanted::Rejected(3, Why::Redex),
        ),
        (
            "pathsum 1\nleaf a 0\nomega 65535\nend\n",
            Wanted::Rejected(3, Why::Redex),
        ),
    ];
    for (text, wanted) in &rows {
        assert!(rt; tells(alloc, text.as_bytes(), &gates, &[], wanted)?);
    }
    Ok(())
}

// Forged derivations of the same, about the overlap and the end.
#[test]
fn forged_overlaps(rt: HostRuntime) -> Result<(), Fail> {
    let alloc = rt.alloc();
    let gates = [hadamard(), hadamard()];
    let rows = [
        // one of the two, side b first, and an entry too many
        (
            "pathsum 1\nleaf a 0\nid b\noverlap\nend\n",
            Wanted::Rejected(4, Why::Order),
        ),
        (
            "pathsum 1\nid b\nleaf a 0\nleaf a 1\njoin\noverlap\nend\n",
            Wanted::Rejected(6, Why::Order),
        ),
        (
            "pathsum 1\nid a\nleaf a 0\nleaf a 1\njoin\nid b\noverlap\nend\n",
            Wanted::Rejected(7, Why::Order),
        ),
        // beside the overlap
        (
            "pathsum 1\nleaf a 0\nleaf a 1\njoin\nid b\noverlap\nleaf a 0\nend\n",
            Wanted::Rejected(7, Why::Order),
        ),
        (
            "pathsum 1\nleaf a 0\nleaf a 1\njoin\nid b\noverlap\nid a\nid a\njoin\nend\n",
            Wanted::Rejected(9, Why::Order),
        ),
        (
            "pathsum 1\nleaf a 0\nleaf a 1\njoin\nid b\noverlap\nid a\nend\n",
            Wanted::Rejected(8, Why::Order),
        ),
        // no overlap, and a line behind the end
        ("pathsum 1\nid a\nend\n", Wanted::Rejected(3, Why::Order)),
        ("pathsum 1\nid a\nend\nid a", Wanted::Rejected(4, Why::Form)),
    ];
    for (text, wanted) in &rows {
        assert!(rt; tells(alloc, text.as_bytes(), &gates, &[], wanted)?);
    }
    Ok(())
}

// A gate that does nothing is no gate, and a Hadamard is not.
#[test]
fn one_gate(rt: HostRuntime) -> Result<(), Fail> {
    let alloc = rt.alloc();
    let text = b"pathsum 1\nleaf a 0\nid a\njoin\nid b\noverlap\nelim 0\nend\n";
    assert!(rt; tells(alloc, text, &[idle()], &[], &Wanted::Accepted)?);
    let text = b"pathsum 1\nleaf a 0\nomega 0\nid b\noverlap\nend\n";
    let left = Wanted::Left("k=3 m=2 P=1/2*x0.y0+1/2*x0.y1+1/2*y0.y1 f=-");
    assert!(rt; tells(alloc, text, &[hadamard()], &[], &left)?);
    Ok(())
}

// The leaves of so many gates, each joined to those before, without a step.
fn unreduced(alloc: Global, count: u32) -> Result<String, AllocError> {
    let mut text = format!(in alloc; "pathsum 1\nleaf a 0\n")?;
    for i in 1..count {
        text.push_str(format!(in alloc; "leaf a {i}\njoin\n")?.as_str())?;
    }
    text.push_str("end\n")?;
    Ok(text)
}

// 255 Hadamards have 510 path variables; with one more and the inputs, 514 are named.
#[test]
fn too_many_variables(rt: HostRuntime) -> Result<(), Fail> {
    let alloc = rt.alloc();
    let gates = [hadamard(); 256];
    let text = unreduced(alloc, 256)?;
    let wanted = Wanted::Rejected(512, Why::Limit);
    assert!(rt; tells(alloc, text.as_bytes(), &gates, &[], &wanted)?);
    Ok(())
}
