//! The text of replies.

ghost use Rattle.std.specs.Prelude.{◌≡◌, ◌++◌, ◌-◌, IfOk, length, take, codes, decimal};
ghost use Rattle.ps_reach.specs.declared.verdict.Verdict.TheVariants.{Yes};
ghost use Rattle.ps_normal.specs.Deriving.{derivation_of};
ghost use Rattle.ps_reply.specs.Names.{fault_name};
ghost use Rattle.ps_reply.specs.Items.{item_lines};
ghost use Rattle.ps_journal.specs.declared.replies.Reply.TheVariants.{Committed, Widths};
ghost use Rattle.ps_reply.specs.Replies.{body_text, proof_text, answered_with, reply_text};

use crate::items::push_items;
use crate::names::fault_name;
use crate::verdicts::{limit_text, verdict_text};
use ps_journal::Reply;
use ps_normal::derive;
use ps_reach::{Body, Items, Judged, Record, Verdict};
use qasm_expand::FaultName;
use std::alloc::{AllocError, Global};

// `bad` with a fault's name, line and column.
fn bad_text(alloc: Global, name: FaultName, line: u32, column: u32) -> Result<Vec<u8>, AllocError>
    ensures { IfOk result (λ v. v.items ≡ codes "bad " ++ fault_name name ++ codes " " ++ decimal line ++ codes ":" ++ decimal column) }
{
    let name = fault_name(name);
    let text = format!(in alloc; "bad {name} {line}:{column}")?;
    Ok(text.into_bytes())
}

// `sum` with the sum, or with the limit that was passed.
fn sum_text(alloc: Global, record: &Record) -> Result<Vec<u8>, AllocError>
    ensures { IfOk result (λ v. v.items ≡ body_text record.now.body) }
{
    match &record.body {
        Body::Sum(sum) => {
            let mut text = b"sum ".to_vec(alloc)?;
            text.extend_from_slice(&sum.text(alloc)?)?;
            Ok(text)
        }
        Body::Passed(evidence) => {
            let mut text = b"sum passed ".to_vec(alloc)?;
            text.extend_from_slice(&limit_text(alloc, &evidence.passed)?)?;
            Ok(text)
        }
    }
}

// `shown` with the number of items, and a line for each.
fn shown_text(alloc: Global, items: &Items) -> Result<Vec<u8>, AllocError>
    ensures { IfOk result (λ v. v.items ≡ codes "shown " ++ decimal (length items.now) ++ item_lines items.now) }
{
    let items = items.as_slice();
    let count = items.len();
    let mut text = format!(in alloc; "shown {count}")?.into_bytes();
    push_items(&mut text, alloc, items)?;
    Ok(text)
}

// A text without its last byte.
fn without_end(text: &[u8]) -> &[u8]
    ensures { result.now ≡ take (length text.now - 1) text.now }
{
    match text.split_last() {
        Some((_, front)) => front,
        None => text,
    }
}

// `proof` with the number of lines of the derivation, and these lines. Each of them ends with LF, and a reply has none
// at its end.
fn proof_text(alloc: Global, judged: &Judged) -> Result<Vec<u8>, AllocError>
    requires yes { judged.now.verdict ≡ Yes }
    ensures { IfOk result (λ v. v.items ≡ proof_text (derivation_of judged.now)) }
{
    let derivation = derive(alloc, judged)?;
    let count = derivation.lines.as_slice().len();
    let mut text = format!(in alloc; "proof {count}\n")?.into_bytes();
    let lines = ps_steps::text(alloc, &derivation)?;
    text.extend_from_slice(without_end(&lines))?;
    Ok(text)
}

// The verdict, with its derivation where a proof is asked for.
fn answered_text(alloc: Global, judged: &Judged, proof: bool) -> Result<Vec<u8>, AllocError>
    ensures { IfOk result (λ v. v.items ≡ answered_with judged.now proof judged.now.verdict) }
{
    match &judged.verdict {
        Verdict::Yes if proof => proof_text(alloc, judged),
        verdict => verdict_text(alloc, judged.first.n, verdict),
    }
}

// Words, and a number behind them.
fn numbered(alloc: Global, words: &str, number: u64) -> Result<Vec<u8>, AllocError>
    ensures { IfOk result (λ v. v.items ≡ words.now ++ decimal number) }
{
    let text = format!(in alloc; "{words}{number}")?;
    Ok(text.into_bytes())
}

// `committed` with the version, and how many of its segments have no record.
fn committed_text(alloc: Global, version: u32, missing: u32) -> Result<Vec<u8>, AllocError>
    ensures { IfOk result (λ v. v.items ≡ reply_text (Committed version missing)) }
{
    let text = format!(in alloc; "committed {version} missing {missing}")?;
    Ok(text.into_bytes())
}

// `widths` with the qubits of both circuits.
fn widths_text(alloc: Global, first: u32, second: u32) -> Result<Vec<u8>, AllocError>
    ensures { IfOk result (λ v. v.items ≡ reply_text (Widths first second)) }
{
    let text = format!(in alloc; "widths {first} {second}")?;
    Ok(text.into_bytes())
}

/// The text of a reply, with LF between its lines and none at its end. It is empty for a reply that ends no command.
/// `AllocError` is want of memory.
pub fn words(alloc: Global, reply: &Reply) -> Result<Vec<u8>, AllocError>
    ensures { IfOk result (λ v. v.items ≡ reply_text reply.now) }
{
    match reply {
        Reply::Opened { missing } => numbered(alloc, "opened 1 missing ", *missing as u64),
        Reply::Committed { version, missing } => committed_text(alloc, *version, *missing),
        Reply::Retired { .. } => b"retired".to_vec(alloc),
        Reply::Answered { judged, proof } => answered_text(alloc, judged.get(), *proof),
        Reply::Shown(items) => shown_text(alloc, items.get()),
        Reply::SumIs(record) => sum_text(alloc, record.get()),
        Reply::NameTaken(entry) => numbered(alloc, "name taken ", *entry as u64),
        Reply::CircuitsFull => b"circuits full".to_vec(alloc),
        Reply::Bad { name, line, column } => bad_text(alloc, *name, *line, *column),
        Reply::NoCircuit => b"no circuit".to_vec(alloc),
        Reply::NoVersion(latest) => numbered(alloc, "no version ", *latest as u64),
        Reply::WasRetired(entry) => numbered(alloc, "was retired ", *entry as u64),
        Reply::IsLatest => b"latest".to_vec(alloc),
        Reply::Stale(latest) => numbered(alloc, "stale ", *latest as u64),
        Reply::Span(length) => numbered(alloc, "span ", *length as u64),
        Reply::TooLong(length) => numbered(alloc, "too long ", *length as u64),
        Reply::Nothing => b"nothing".to_vec(alloc),
        Reply::Widths(first, second) => widths_text(alloc, *first, *second),
        Reply::NoPin => b"no pin".to_vec(alloc),
        Reply::OtherRun => b"other run".to_vec(alloc),
        Reply::NoRoom(total) => numbered(alloc, "no room ", *total),
        Reply::NotCrowded => b"not crowded".to_vec(alloc),
        Reply::Unsettled(missing) => numbered(alloc, "unsettled ", *missing as u64),
        Reply::Memory => b"memory".to_vec(alloc),
        _ => Ok(Vec::new(alloc)),
    }
}
