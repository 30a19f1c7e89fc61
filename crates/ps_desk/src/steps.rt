//! The rule of a desk's table, and what each kind of step tells the seat that takes it.
ghost use Rattle.ps_desk.specs.Rule.{Rule};
ghost use Rattle.ps_desk.specs.Steps.{Draws, Looks, Ends, Settles};
ghost use Rattle.ps_desk.specs.Views.{opened, giving, given, receiving, spent};

use crate::object::Object;
use crate::view::View;
use atomic_table::{Join, Play, Split, TableRule};
use std::marker::PhantomData;

/// What holds between any two steps.
pub struct Turns<O> {
    marker: PhantomData<O>,
}

impl<O: Object> TableRule<Option<O>, View<O::Cmd, O::Reply>, u32> for Turns<O> {
    ghost holds = { λ seats. Rule O.journal O.spare O.legal seats };

    ghost first = { opened };
}

/// A ticket is drawn: the ticket word goes up by one.
pub struct Draw;

impl<O: Object> Play<Option<O>, View<O::Cmd, O::Reply>> for Draw {
    ghost then = { λ _. Draws };
}

/// The serving word is read. Where it is the seat's own ticket, the seat takes the object.
pub struct Look;

impl<O: Object> Play<Option<O>, View<O::Cmd, O::Reply>> for Look {
    ghost then = { λ _. Looks O.journal O.spare O.legal };
}

/// The turn ends: the serving word goes up by one, and the object is given back.
pub struct End;

impl<O: Object> Play<Option<O>, View<O::Cmd, O::Reply>> for End {
    ghost then = { λ _. Ends O.journal };
}

/// A number is given away.
pub struct Give;

impl<C, R> Split<View<C, R>> for Give {
    ghost left = { giving };

    ghost right = { given };
}

/// A seat comes back.
pub struct Back;

impl<C, R> Join<View<C, R>> for Back {
    ghost both = { receiving };

    ghost spent = { spent };
}

/// The serving word is read once more, and what the seat that came back has seen is seen.
pub struct Settle;

impl<O: Object> Play<Option<O>, View<O::Cmd, O::Reply>> for Settle {
    ghost then = { λ _ m _. Settles m };
}
