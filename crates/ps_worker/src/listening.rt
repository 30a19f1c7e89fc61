//! A bell that is listened to.
ghost use Rattle.std.specs.Prelude.{◌≡◌, ◌≤◌};
ghost use Rattle.ps_io.specs.Counts.{one_more};
ghost use Rattle.ps_io.specs.Hints.{counted};

use ps_io::Bell;
use std::marker::Model;
use std::sync::Wait;

/// Asks a bell, and counts how often it was waited for, and how often it was found closed. What a bell tells is
/// promised by nobody; that it was asked is what the counts show.
#[derive(Drop)]
pub struct Listener<'a, R> {
    rt: &'a R,
    bell: &'a Bell,
    waits: u64,
    closings: u64,
}

impl<'a, R> Model for Listener<'a, R> {
    ghost use Rattle.ps_worker.specs.Hearings.{Hearing};

    ghost Value = { Hearing };

    ghost view = { λ l. record { waits = l.waits; closings = l.closings } };
}

impl<'a, R: Wait> Listener<'a, R> {
    /// Nothing was asked yet.
    pub fn new(rt: &'a R, bell: &'a Bell) -> Listener<'a, R>
        ensures { result ≡ record { waits = 0; closings = 0 } }
    {
        Listener {
            rt,
            bell,
            waits: 0,
            closings: 0,
        }
    }

    /// How often the bell was rung.
    pub fn seen(&self) -> u64 {
        self.bell.seen(self.rt)
    }

    /// Whether the bell is closed.
    pub fn closed(&mut self) -> bool
        ensures heard { self.new ≡ record self.old { closings = counted result self.old.closings } }
        ensures never_falls { self.old.closings ≤ self.new.closings }
    {
        let closed = self.bell.closed(self.rt);
        self.note(closed);
        closed
    }

    /// Waits until the bell is closed, which is true, or was rung more than `count` times, which is false.
    pub fn wait_past(&mut self, count: u64) -> bool
        ensures heard { self.new ≡ record { waits = one_more self.old.waits; closings = counted result self.old.closings } }
        ensures never_falls { (self.old.waits ≤ self.new.waits) × (self.old.closings ≤ self.new.closings) }
    {
        let closed = self.bell.wait_past(self.rt, count);
        self.waits = self.waits.saturating_add(1);
        self.note(closed);
        closed
    }

    // One more finding of the bell.
    fn note(&mut self, closed: bool)
        ensures heard { self.new ≡ record self.old { closings = counted closed self.old.closings } }
        ensures never_falls { self.old.closings ≤ self.new.closings }
    {
        if closed {
            self.closings = self.closings.saturating_add(1);
        }
    }
}
