ghost use Rattle.std.specs.Prelude.{◌≡◌, ◌<◌, ◌≤◌};
ghost use Rattle.ps_desk.specs.Rule.{core};
ghost use Rattle.ps_desk.specs.Seats.{view_of, desk_of, IsSeatOf};

use crate::{Counting, Desk, Full, NoSeat, NotClosed, Object, Seat};
use std::sync::Wait;
use std::test::Fail;
use std::thread::{Threads, join};

type Answered<O> = (Result<<O as Object>::Reply, Full>, Seat<O>);

// A turn of each of two seats, on threads of their own.
fn turn_both<O: Object + Send, R: Threads + Wait + Sync>(
    rt: &R,
    desk: &Desk<O>,
    a: Seat<O>,
    first: O::Cmd,
    b: Seat<O>,
    second: O::Cmd,
) -> (Answered<O>, Answered<O>)
where
    O::Cmd: Send,
    O::Reply: Send,
    requires { IsSeatOf desk.now a × IsSeatOf desk.now b }
    ensures desks { (desk_of result.0.1 ≡ desk_of a) × (desk_of result.1.1 ≡ desk_of b) }
    ensures cores { (core (view_of result.0.1) ≡ core (view_of a)) × (core (view_of result.1.1) ≡ core (view_of b)) }
{
    join(
        rt,
        || -> Answered<O>
            requires { IsSeatOf desk.now a }
            ensures desk { desk_of result.1 ≡ desk_of a }
            ensures core { core (view_of result.1) ≡ core (view_of a) }
        {
            let mut a = a;
            let reply = desk.turn(rt, &mut a, first);
            (reply, a)
        },
        || -> Answered<O>
            requires { IsSeatOf desk.now b }
            ensures desk { desk_of result.1 ≡ desk_of b }
            ensures core { core (view_of result.1) ≡ core (view_of b) }
        {
            let mut b = b;
            let reply = desk.turn(rt, &mut b, second);
            (reply, b)
        },
    )
}

// Takes so many turns, and tells how many were answered with the number of turns before.
fn turns<R: Wait>(rt: &R, desk: &Desk<Counting>, seat: &mut Seat<Counting>, count: u64) -> u64
    requires { IsSeatOf desk.now seat.old }
    ensures desk { desk_of seat.new ≡ desk_of seat.old }
    ensures core { core (view_of seat.new) ≡ core (view_of seat.old) }
{
    let mut answered = 0;
    for k in 0..count {
        if desk.turn(rt, seat, 7) == Ok(k) {
            answered += 1;
        }
    }
    answered
}

#[test]
fn two_threads_take_turns(rt: HostRuntime) -> Result<(), Fail> {
    let Ok(object) = Counting::new(rt.alloc(), 262_144) else {
        panic!(rt; "memory")
    };
    let Ok((desk, mut first)) = Desk::new(rt.alloc(), object, 2) else {
        panic!(rt; "memory")
    };
    let Ok(second) = desk.split(&mut first) else {
        panic!(rt; "one spare number")
    };
    assert!(rt; first.number() == 0 && second.number() == 1);
    let ((x, mut first), (y, second)) = turn_both(&rt, &desk, first, 10, second, 20);
    assert!(rt; (x == Ok(0) && y == Ok(1)) || (x == Ok(1) && y == Ok(0)));
    desk.join(&mut first, second);
    let Ok(object) = desk.close(first) else {
        panic!(rt; "none is out")
    };
    assert_eq!(rt; object.journal().len(), 2);
    for entry in object.journal() {
        assert_eq!(rt; entry.cmd, if entry.seat == 0 { 10 } else { 20 });
    }
    Ok(())
}

// A seat's turns are answered up to the desk's end, and then refused with one ticket.
#[test]
fn a_desk_ends(rt: HostRuntime) -> Result<(), Fail> {
    let Ok(object) = Counting::new(rt.alloc(), 262_144) else {
        panic!(rt; "memory")
    };
    let Ok((desk, mut first)) = Desk::new(rt.alloc(), object, 2) else {
        panic!(rt; "memory")
    };
    let Ok(second) = desk.split(&mut first) else {
        panic!(rt; "one spare number")
    };
    assert!(rt; desk.split(&mut first).err() == Some(NoSeat));
    assert_eq!(rt; turns(&rt, &desk, &mut first, 262_144), 262_144);
    assert!(rt; desk.turn(&rt, &mut first, 7) == Err(Full { ticket: 262_144 }));
    assert!(rt; desk.turn(&rt, &mut first, 7) == Err(Full { ticket: 262_144 }));
    let Err(open) = desk.close(first) else {
        panic!(rt; "one seat is out")
    };
    assert_eq!(rt; open.out, 1);
    let NotClosed {
        desk,
        seat: mut first,
        ..
    } = open;
    desk.join(&mut first, second);
    let Ok(object) = desk.close(first) else {
        panic!(rt; "none is out")
    };
    assert_eq!(rt; object.journal().len(), 262_144);
    Ok(())
}
