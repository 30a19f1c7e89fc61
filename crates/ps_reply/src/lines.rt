//! The lines of a journal.

ghost use Rattle.std.specs.Prelude.{◌≡◌, ◌≤◌, ◌-◌, ◌++◌, IfOk, All, codes, decimal};
ghost use Rattle.ps_reply.specs.Replies.{reply_text};
ghost use Rattle.ps_reply.specs.Lines.{entry_text, journal_text, IsOfSession};
ghost use Rattle.ps_journal.specs.History.{ends_command};

use crate::replies::words;
use ps_journal::{Cmd, Entry, Reply};
use std::alloc::{AllocError, Global};

// Whether an entry ends a command of a session.
fn ends_command(cmd: &Cmd, reply: &Reply) -> bool
    ensures { result ≡ ends_command cmd.now reply.now }
{
    match cmd {
        Cmd::Pin { .. } => match reply {
            Reply::Pinned => false,
            _ => true,
        },
        Cmd::Next { .. } => false,
        Cmd::Publish { .. } => false,
        _ => true,
    }
}

// The session's number, its reply and LF.
fn session_text(alloc: Global, seat: u32, reply: &Reply) -> Result<Vec<u8>, AllocError>
    requires { 1 ≤ seat }
    ensures { IfOk result (λ v. v.items ≡ decimal (seat - 1) ++ codes " " ++ reply_text reply.now ++ codes "\n") }
{
    let session = seat - 1;
    let mut text = format!(in alloc; "{session} ")?.into_bytes();
    text.extend_from_slice(&words(alloc, reply)?)?;
    text.push(b'\n')?;
    Ok(text)
}

/// The line or the lines of an entry that ends a command of a session: the session's number, a space and the reply, with
/// LF at the end. It is empty for every other entry. `AllocError` is want of memory.
///
/// Condition: an entry that ends a command is not of seat 0.
pub fn line(alloc: Global, entry: &Entry) -> Result<Vec<u8>, AllocError>
    requires { IsOfSession entry.now }
    ensures { IfOk result (λ v. v.items ≡ entry_text entry.now) }
{
    if ends_command(&entry.cmd, &entry.reply) {
        session_text(alloc, entry.seat, &entry.reply)
    } else {
        Ok(Vec::new(alloc))
    }
}

/// The lines of all entries of a journal, in order. `AllocError` is want of memory.
///
/// Condition: no entry that ends a command is of seat 0.
pub fn text(alloc: Global, journal: &[Entry]) -> Result<Vec<u8>, AllocError>
    requires { All IsOfSession journal.now }
    ensures { IfOk result (λ v. v.items ≡ journal_text journal.now) }
{
    let mut text = Vec::new(alloc);
    for entry in journal {
        text.extend_from_slice(&line(alloc, entry)?)?;
    }
    Ok(text)
}
