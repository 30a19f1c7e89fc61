//! What a command line spells.

ghost use Rattle.std.specs.Prelude.{◌≡◌, ◌↔◌, IsTrue, MatchOption, codes};
ghost use Rattle.ps_script.specs.Orders.{Spells, SpellsNone, takes_block};
ghost use Rattle.ps_script.specs.Arguments.{SpellsPlace, NoPlace, SpellsPair, NoPair, SpellsPhase, NoPhase, SpellsSpan, NoSpan, HasArguments, HasNone, SpellsOrder, NoOrder};

use crate::name::{Name, Place};
use crate::order::{Order, Spelled};
use crate::pieces::{cut, number};

// Whether a word is this one.
fn is_word(word: &[u8], wanted: &[u8]) -> bool
    ensures { IsTrue result ↔ (word.now ≡ wanted.now) }
{
    word == wanted
}

// A name and a version.
fn place(bytes: &[u8]) -> Option<Place>
    ensures { MatchOption result (NoPlace bytes.now) (λ p. SpellsPlace bytes.now p) }
{
    let words = cut(bytes)?;
    let name = Name::of(words.first)?;
    let version = number(words.rest)?;
    Some(Place { name, version })
}

// Two places.
fn pair(bytes: &[u8]) -> Option<(Place, Place)>
    ensures { MatchOption result (NoPair bytes.now) (λ r. SpellsPair bytes.now r.0 r.1) }
{
    let named = cut(bytes)?;
    let name = Name::of(named.first)?;
    let numbered = cut(named.rest)?;
    let version = number(numbered.first)?;
    let second = place(numbered.rest)?;
    Some((Place { name, version }, second))
}

// Two numbers.
fn span(bytes: &[u8]) -> Option<(u32, u32)>
    ensures { MatchOption result (NoSpan bytes.now) (λ r. SpellsSpan bytes.now r.0 r.1) }
{
    let words = cut(bytes)?;
    let from = number(words.first)?;
    let to = number(words.rest)?;
    Some((from, to))
}

fn open(bytes: &[u8]) -> Option<Order>
    ensures { MatchOption result (HasNone (codes "open") bytes.now) (λ o. HasArguments (codes "open") bytes.now o) }
{
    let name = Name::of(bytes)?;
    Some(Order::Open { name })
}

fn splice(bytes: &[u8]) -> Option<Order>
    ensures { MatchOption result (HasNone (codes "splice") bytes.now) (λ o. HasArguments (codes "splice") bytes.now o) }
{
    let named = cut(bytes)?;
    let name = Name::of(named.first)?;
    let numbered = cut(named.rest)?;
    let version = number(numbered.first)?;
    let (from, to) = span(numbered.rest)?;
    Some(Order::Splice {
        place: Place { name, version },
        from,
        to,
    })
}

fn retire(bytes: &[u8]) -> Option<Order>
    ensures { MatchOption result (HasNone (codes "retire") bytes.now) (λ o. HasArguments (codes "retire") bytes.now o) }
{
    let place = place(bytes)?;
    Some(Order::Retire { place })
}

// What is asked up to a global phase.
fn ask_phase(bytes: &[u8]) -> Option<(Place, Place)>
    ensures { MatchOption result (NoPhase bytes.now) (λ r. SpellsPhase bytes.now r.0 r.1) }
{
    let words = cut(bytes)?;
    if !is_word(words.first, b"phase") {
        return None;
    }
    pair(words.rest)
}

fn ask(bytes: &[u8]) -> Option<Order>
    ensures { MatchOption result (HasNone (codes "ask") bytes.now) (λ o. HasArguments (codes "ask") bytes.now o) }
{
    match ask_phase(bytes) {
        Some((first, second)) => Some(Order::AskPhase { first, second }),
        None => {
            let (first, second) = pair(bytes)?;
            Some(Order::Ask { first, second })
        }
    }
}

fn prove(bytes: &[u8]) -> Option<Order>
    ensures { MatchOption result (HasNone (codes "prove") bytes.now) (λ o. HasArguments (codes "prove") bytes.now o) }
{
    let (first, second) = pair(bytes)?;
    Some(Order::Prove { first, second })
}

fn sum(bytes: &[u8]) -> Option<Order>
    ensures { MatchOption result (HasNone (codes "sum") bytes.now) (λ o. HasArguments (codes "sum") bytes.now o) }
{
    let place = place(bytes)?;
    Some(Order::Sum { place })
}

fn show(bytes: &[u8]) -> Option<Order>
    ensures { MatchOption result (HasNone (codes "show") bytes.now) (λ o. HasArguments (codes "show") bytes.now o) }
{
    let place = place(bytes)?;
    Some(Order::Show { place })
}

// The order with this first word and these others.
fn arguments(verb: &[u8], bytes: &[u8]) -> Option<Order>
    ensures { MatchOption result (HasNone verb.now bytes.now) (λ o. HasArguments verb.now bytes.now o) }
{
    if is_word(verb, b"open") {
        open(bytes)
    } else if is_word(verb, b"splice") {
        splice(bytes)
    } else if is_word(verb, b"retire") {
        retire(bytes)
    } else if is_word(verb, b"ask") {
        ask(bytes)
    } else if is_word(verb, b"prove") {
        prove(bytes)
    } else if is_word(verb, b"sum") {
        sum(bytes)
    } else if is_word(verb, b"show") {
        show(bytes)
    } else {
        None
    }
}

fn order(bytes: &[u8]) -> Option<Order>
    ensures { MatchOption result (NoOrder bytes.now) (λ o. SpellsOrder bytes.now o) }
{
    let words = cut(bytes)?;
    arguments(words.first, words.rest)
}

/// The order of a session that the line is.
pub fn spelled(line: &[u8]) -> Option<Spelled>
    ensures { MatchOption result (SpellsNone line.now) (λ s. Spells line.now s.session s.order) }
{
    let words = cut(line)?;
    let session = number(words.first)?;
    let order = order(words.rest)?;
    Some(Spelled { session, order })
}

/// Whether a block follows the line.
pub fn takes_block(order: &Order) -> bool
    ensures { result ≡ takes_block order.now }
{
    match order {
        Order::Open { .. } => true,
        Order::Splice { .. } => true,
        _ => false,
    }
}
