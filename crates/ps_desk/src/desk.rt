//! The calls of a desk: turns, and seats that are split off and taken back.
ghost use Rattle.std.specs.Prelude.{◌≡◌, ℕ, ◌+◌, ◌<◌, ◌≤◌, List, [], ◌∷◌, ◌++◌, IfOk, IfErr, OnOk, OnErr, true, Some, None, Err, length};
ghost use Rattle.ps_desk.specs.declared.entry.Entry.{Entry};
ghost use Rattle.ps_desk.specs.Seats.{view_of, desk_of, IsSeatOf, Turned, Closed};
ghost use Rattle.ps_desk.specs.Steps.{Found, Holds};
ghost use Rattle.ps_desk.specs.Views.{entry, opened, refusing, after, giving, given, joined, Has, IsBeginning};

use crate::object::Object;
use crate::refusals::{Full, NoSeat};
use crate::seat::{Desk, NotClosed, Seat, Table, Token};
use crate::sleepers::Sleepers;
use crate::steps::{Back, Draw, End, Give, Look, Settle};
use atomic_table::Refused;
use std::alloc::Global;
use std::hint::spin_loop;
use std::sync::Wait;

// The first ticket that is refused.
const LAST: u64 = 262_144;

// How many turns before its own a seat stays awake for, and how often it looks before it sleeps.
const NEAR: u64 = 2;

const LOOKS: u32 = 200;

// How many seats are woken at the end of a turn.
const AHEAD: u64 = 2;

// The words of the table.
const TICKETS: usize = 0;

const SERVING: usize = 1;

impl<O: Object> Seat<O> {
    /// The number of the seat, below 64.
    pub fn number(&self) -> u32
        ensures number { result ≡ (view_of self.now).number }
        ensures below { result < 64 }
    {
        self.number
    }
}

impl<O: Object> Desk<O> {
    /// A desk for 1 to 64 seats, and its first seat, with the number 0 and the spare numbers 1 to `seats` - 1.
    /// The object has an empty journal and room for at least 262,144 entries.
    ///
    /// `Err` is want of memory, and hands the object back.
    pub fn new(alloc: Global, object: O, seats: u32) -> Result<(Desk<O>, Seat<O>), O>
        requires seats { (1 ≤ seats) × (seats ≤ 64) }
        requires fresh { O.journal object ≡ [] }
        requires room { 262144 ≤ O.spare object }
        ensures seat { IfOk result (λ r. IsSeatOf r.0 r.1 × (view_of r.1 ≡ opened seats)) }
        ensures back { IfErr result (λ o. o ≡ object) }
    {
        let Ok(mut slots) = Vec::with_capacity(alloc, 1) else {
            return Err(object);
        };
        slots.push_reserved(Some(object));
        match Table::new(alloc, &[0, 0], slots, &seats) {
            Ok((table, token)) => Ok((
                Desk {
                    table,
                    sleepers: Sleepers::new(),
                    seats,
                },
                Seat {
                    token,
                    number: 0,
                    next: 1,
                    end: seats,
                    out: 0,
                    refused: None,
                },
            )),
            Err(Refused { mut slots }) => {
                let object = slots.pop().unwrap().unwrap();
                slots.destroy_empty();
                Err(object)
            }
        }
    }

    // Looks a bounded number of times whether the ticket is served, so that a seat whose turn comes soon need not sleep.
    // It tells nothing: who calls it looks again.
    fn linger(&self, ticket: u64) {
        for _ in 0..LOOKS {
            let before = ticket.saturating_sub(self.table.shared.peek(SERVING));
            if before == 0 || before > NEAR {
                return;
            }
            spin_loop();
        }
    }

    // Waits until the ticket is served, and takes the object.
    fn take_turn<R: Wait>(&self, rt: &R, token: &mut Token<O>, ticket: u64)
        requires desk { token.old.table_id ≡ self.now.table.shared.table_id }
        requires free { (token.old.me.1 ≡ []) × (token.old.me.0.live ≡ true) × (token.old.me.0.found ≡ None) }
        requires ticket { token.old.me.0.ticket ≡ Some ticket }
        ensures desk { token.new.table_id ≡ token.old.table_id }
        ensures found { Found O.journal O.spare O.legal token.old.me token.new.me ticket }
    {
        for _ in rt.forever() {
            self.linger(ticket);
            let serving = self.table.shared.load::<Look>(token, SERVING);
            if serving == ticket {
                return;
            }
            self.sleepers.park(rt, ticket);
        }
        unreachable!()
    }

    // Applies the command to the object that the seat holds, and gives it back.
    fn serve(&self, token: &mut Token<O>, number: u32, cmd: O::Cmd) -> O::Reply
        requires desk { token.old.table_id ≡ self.now.table.shared.table_id }
        requires number { (token.old.me.0.number ≡ number) × (number < 64) }
        requires holds { (o : O) × Holds O.journal O.spare O.legal token.old.me o }
        ensures desk { token.new.table_id ≡ token.old.table_id }
        ensures done { let x = entry number cmd result in (h : List (Entry O.Cmd O.Reply)) × (token.old.me.0.found ≡ Some h)
            × (token.new.me ≡ (after token.old.me.0 h x, [])) × O.legal (h ++ x ∷ []) }
    {
        let shared = &self.table.shared;
        let Some(mut object) = shared.exchange(token, 0, None) else {
            unreachable!()
        };
        let reply = object.apply(number, cmd);
        match shared.exchange(token, 0, Some(object)) {
            None => {}
            Some(_) => unreachable!(),
        }
        shared.fetch_add::<End>(token, SERVING, 1);
        reply
    }

    // Wakes the seat whose turn comes behind `ticket`, which was served, and, so that it is awake in time, the one
    // whose turn comes after that. Who draws a ticket later finds out by its look.
    fn wake(&self, ticket: u64) {
        let drawn = self.table.shared.peek(TICKETS);
        for ahead in 1..=AHEAD {
            let next = ticket.saturating_add(ahead);
            if next < drawn {
                self.sleepers.wake(next);
            }
        }
    }

    /// Takes a turn: waits for it, and applies the command. `Full` comes exactly where the seat's ticket, drawn now
    /// or earlier, is 262,144 or more: then the command isn't done, and the seat draws no other ticket.
    pub fn turn<R: Wait>(&self, rt: &R, seat: &mut Seat<O>, cmd: O::Cmd) -> Result<O::Reply, Full>
        requires desk { IsSeatOf self.now seat.old }
        ensures desk { desk_of seat.new ≡ desk_of seat.old }
        ensures done { IfOk result (λ reply. Turned O.legal (view_of seat.old) (view_of seat.new) cmd reply) }
        ensures full { IfErr result (λ f. view_of seat.new ≡ refusing (view_of seat.old) f.ticket) }
        ensures above { IfErr result (λ f. 262144 ≤ f.ticket) }
        ensures again { (t : ℕ) → (view_of seat.old).refused ≡ Some t → result ≡ Err record { ticket = t } }
    {
        if let Some(ticket) = seat.refused {
            return Err(Full { ticket });
        }
        let ticket = self
            .table
            .shared
            .fetch_add::<Draw>(&mut seat.token, TICKETS, 1);
        if ticket >= LAST {
            seat.refused = Some(ticket);
            return Err(Full { ticket });
        }
        self.take_turn(rt, &mut seat.token, ticket);
        let reply = self.serve(&mut seat.token, seat.number, cmd);
        self.wake(ticket);
        Ok(reply)
    }

    /// Gives the seat's least spare number to a new seat, which has seen as much, and has no spare number itself.
    /// `NoSeat` comes exactly where the seat has no spare number.
    pub fn split(&self, seat: &mut Seat<O>) -> Result<Seat<O>, NoSeat>
        requires desk { IsSeatOf self.now seat.old }
        ensures desk { desk_of seat.new ≡ desk_of seat.old }
        ensures given { IfOk result (λ new. view_of new ≡ given (view_of seat.old)) }
        ensures given_desk { IfOk result (λ new. desk_of new ≡ desk_of seat.old) }
        ensures giving { OnOk result (view_of seat.new ≡ giving (view_of seat.old)) }
        ensures spare { OnOk result ((view_of seat.old).next < (view_of seat.old).end) }
        ensures none { OnErr result ((view_of seat.old).next ≡ (view_of seat.old).end) }
        ensures same { OnErr result (view_of seat.new ≡ view_of seat.old) }
    {
        if seat.next == seat.end {
            return Err(NoSeat);
        }
        let mut token = self.table.shared.split_seat::<Give>(&mut seat.token);
        // tells that the new seat's number has no entry
        self.table.shared.load::<Look>(&mut token, SERVING);
        let number = seat.next;
        seat.next += 1;
        seat.out += 1;
        Ok(Seat {
            token,
            number,
            next: 0,
            end: 0,
            out: 0,
            refused: None,
        })
    }

    /// Takes a seat back that was split from this one. What either has seen is then seen, and the other's own
    /// entries and refused ticket are kept under its number.
    pub fn join(&self, seat: &mut Seat<O>, other: Seat<O>)
        requires desk { IsSeatOf self.now seat.old × IsSeatOf self.now other }
        requires split { Has (view_of seat.old).out (view_of other).number }
        ensures desk { desk_of seat.new ≡ desk_of seat.old }
        ensures joined { view_of seat.new ≡ joined (view_of seat.old) (view_of other) }
        ensures seen { IsBeginning (view_of seat.old).seen (view_of seat.new).seen }
        ensures other_seen { IsBeginning (view_of other).seen (view_of seat.new).seen }
    {
        let Seat { token, .. } = other;
        self.table.shared.join_seat::<Back>(&mut seat.token, token);
        // tells that both have seen beginnings of one journal
        self.table.shared.load::<Settle>(&mut seat.token, SERVING);
        seat.out -= 1;
    }

    /// Takes the object out, once all seats have come back to the first. `NotClosed` comes exactly where some are
    /// still out, with their number and all as it was.
    pub fn close(self, seat: Seat<O>) -> Result<O, NotClosed<O>>
        requires desk { IsSeatOf self seat }
        requires first { (view_of seat).number ≡ 0 }
        ensures closed { IfOk result (λ o. Closed O.legal (view_of seat) (O.journal o)) }
        ensures all_in { OnOk result ((view_of seat).out ≡ []) }
        ensures same { IfErr result (λ r. (r.desk ≡ self) × (r.seat ≡ seat)) }
        ensures out { IfErr result (λ r. (r.out ≡ length (view_of seat).out) × (0 < r.out)) }
    {
        if seat.out > 0 {
            return Err(NotClosed {
                out: seat.out,
                desk: self,
                seat,
            });
        }
        let Desk { table, .. } = self;
        let Seat { token, .. } = seat;
        let mut closed = table.close_with(token);
        let object = closed.take(0);
        closed.free();
        Ok(object.unwrap())
    }
}
