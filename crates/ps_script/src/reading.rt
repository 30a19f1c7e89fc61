//! Reading a script.

ghost use Rattle.std.specs.Prelude.{◌≡◌, ◌≢◌, ◌≤◌, ◌<◌, ◌+◌, [], length, false, IfOk, IfErr, IfSome, MatchOption};
ghost use Rattle.ps_script.specs.Orders.{takes_block};
ghost use Rattle.ps_script.specs.Items.{IsBody, LacksBody, asked_in, LeadsOn, OrderLeadsOn, FaultIs};
ghost use Rattle.ps_script.specs.Reading.{IsReading, IsOrderReading, Known, Only, lines_of, is_skipped, order_of, block_of};

use crate::command::Command;
use crate::fault::ScriptFault;
use crate::lines::{BlockText, block, first_line};
use crate::order::{Order, Spelled};
use crate::script::{Line, Lines, Script};
use crate::spelling::{spelled, takes_block};
use crate::text::Text;
use std::alloc::{AllocError, Global};
use std::sync::Arc;

// The number of the last session.
const LAST_SESSION: u32 = 15;

// Whether a line is empty or begins with `#`.
fn is_skipped(line: &[u8]) -> bool
    ensures { result ≡ is_skipped line.now }
{
    match line.first() {
        None => true,
        Some(b) => *b == b'#',
    }
}

// A copy of a block, to be shared.
fn shared(alloc: Global, block: &[u8]) -> Result<Arc<Text>, AllocError>
    requires { length block.now ≤ 16777216 }
    ensures { IfOk result (λ t. t.value ≡ block.now) }
{
    let bytes = block.to_vec(alloc)?;
    let text = Arc::new(alloc, Text::from_vec(bytes))?;
    Ok(text)
}

// The command of an order with this block, which is empty where the order takes none.
fn command(alloc: Global, order: &Order, block: &[u8]) -> Result<Command, AllocError>
    requires short { length block.now ≤ 16777216 }
    requires none { takes_block order.now ≡ false → block.now ≡ [] }
    ensures order { IfOk result (λ c. order_of c ≡ order.now) }
    ensures block { IfOk result (λ c. block_of c ≡ block.now) }
{
    let command = match *order {
        Order::Open { name } => Command::Open {
            name,
            text: shared(alloc, block)?,
        },
        Order::Splice { place, from, to } => Command::Splice {
            place,
            from,
            to,
            block: shared(alloc, block)?,
        },
        Order::Retire { place } => Command::Retire { place },
        Order::Ask { first, second } => Command::Ask { first, second },
        Order::AskPhase { first, second } => Command::AskPhase { first, second },
        Order::Prove { first, second } => Command::Prove { first, second },
        Order::Sum { place } => Command::Sum { place },
        Order::Show { place } => Command::Show { place },
    };
    Ok(command)
}

// What stands behind the line of an order: its block, or no byte where it takes none.
fn body<'a>(order: &Order, bytes: &'a [u8]) -> Option<BlockText<'a>>
    requires { length bytes.now ≤ 16777216 }
    ensures body { MatchOption result (LacksBody order.now bytes.now)
        (λ b. IsBody order.now bytes.now b.text.now b.lines b.rest.now) }
    ensures short { IfSome result (λ b. b.lines + length b.rest.now ≤ length bytes.now) }
    ensures text { IfSome result (λ b. length b.text.now ≤ length bytes.now) }
{
    if takes_block(order) {
        return block(bytes);
    }
    Some(BlockText {
        text: &[],
        lines: 0,
        rest: bytes,
    })
}

// What stands first in a script: a command or a line to be skipped, of so many lines, and what stands behind it.
#[derive(Drop)]
struct Item<'a> {
    line: Option<Line>,
    lines: u32,
    rest: &'a [u8],
}

// The command of a line that is spelled right, with what stands behind the line.
fn ordered<'a>(
    alloc: Global,
    number: u32,
    spelled: &Spelled,
    bytes: &'a [u8],
) -> Result<Item<'a>, ScriptFault>
    requires { length bytes.now ≤ 16777216 }
    ensures leads { IfOk result (λ i.
        OrderLeadsOn number spelled.now.session spelled.now.order bytes.now (asked_in i.line) (number + i.lines) i.rest.now) }
    ensures short { IfOk result (λ i. i.lines + length i.rest.now ≤ length bytes.now + 1) }
    ensures shorter { IfOk result (λ i. length i.rest.now ≤ length bytes.now) }
    ensures fault { IfErr result (λ e.
        FaultIs e (IsOrderReading number spelled.now.session spelled.now.order bytes.now)) }
{
    if spelled.session > LAST_SESSION {
        return Err(ScriptFault::Session(number));
    }
    match body(&spelled.order, bytes) {
        None => Err(ScriptFault::Block(number)),
        Some(body) => {
            let command = command(alloc, &spelled.order, body.text)?;
            Ok(Item {
                line: Some(Line {
                    session: spelled.session,
                    command,
                }),
                lines: body.lines + 1,
                rest: body.rest,
            })
        }
    }
}

// The first item of bytes that begin with this line of the script.
fn first_item(alloc: Global, number: u32, bytes: &[u8]) -> Result<Item<'_>, ScriptFault>
    requires some { bytes.now ≢ [] }
    requires short { length bytes.now ≤ 16777216 }
    ensures leads { IfOk result (λ i. LeadsOn number bytes.now (asked_in i.line) (number + i.lines) i.rest.now) }
    ensures short { IfOk result (λ i. i.lines + length i.rest.now ≤ length bytes.now) }
    ensures shorter { IfOk result (λ i. length i.rest.now < length bytes.now) }
    ensures fault { IfErr result (λ e. FaultIs e (IsReading number bytes.now)) }
{
    let first = first_line(bytes);
    if is_skipped(first.line) {
        return Ok(Item {
            line: None,
            lines: 1,
            rest: first.rest,
        });
    }
    match spelled(first.line) {
        None => Err(ScriptFault::Form(number)),
        Some(spelled) => ordered(alloc, number, &spelled, first.rest),
    }
}

fn read_items(alloc: Global, bytes: &[u8]) -> Result<Script, ScriptFault>
    requires { length bytes.now ≤ 16777216 }
    ensures { Known (lines_of result) (IsReading 1 bytes.now) }
{
    let mut lines = Vec::new(alloc);
    let mut number = 1;
    let mut rest = bytes;
    while !rest.is_empty() {
        let item = first_item(alloc, number, rest)?;
        number += item.lines;
        rest = item.rest;
        if let Some(line) = item.line {
            lines.push(line)?;
        }
    }
    Ok(Script {
        lines: Lines::from_vec(lines),
    })
}

/// The script that the bytes are. Condition: at most 16,777,216 bytes.
///
/// A fault is that of the first line that is wrong, and has its number, counted from 1: `Session` where only the
/// number of the session is too large, `Block` where the line is right and its block has no end, and `Form`
/// otherwise. `Memory` is want of memory.
pub fn read(alloc: Global, bytes: &[u8]) -> Result<Script, ScriptFault>
    requires { length bytes.now ≤ 16777216 }
    // The commands are those that the bytes spell, and a fault is the first.
    ensures reads { Known (lines_of result) (IsReading 1 bytes.now) }
    // Whatever the bytes are read as is this.
    ensures only { Only (lines_of result) (IsReading 1 bytes.now) }
{
    read_items(alloc, bytes)
}
