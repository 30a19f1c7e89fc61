//! The commands of a script, done one after another.
ghost use Rattle.std.specs.Prelude.{◌≡◌, ◌+◌, ◌≤◌, [], IfOk, IfErr, vec_len, vec_capacity};
ghost use Rattle.ps_journal.specs.History.{IsLegal};
ghost use Rattle.ps_book.specs.Books.{entries};
ghost use Rattle.ps_sessions.specs.Lines.{Adds, AnswersLine, BreaksOff};
ghost use Rattle.ps_sessions.specs.Runs.{IsRunOf};

use crate::runs::{Ending, Journal, Response, Responses, Run};
use crate::seats::Alone;
use ps_book::Book;
use ps_calls::command;
use ps_desk::Full;
use ps_io::{Gate, Point};
use ps_journal::Reply;
use ps_script::{Line, Script};
use std::alloc::{AllocError, Global};

/// Does the command of a line at the book, past the gate. The seat of a session has the next number.
fn answer<G: Gate>(alloc: Global, book: &mut Book, line: Line, gate: &G) -> Result<Reply, Full>
    requires { IsLegal (entries book.old) }
    ensures lawful { IsLegal (entries book.new) }
    ensures done { IfOk result (λ reply. AnswersLine line reply (entries book.old) (entries book.new)) }
    ensures cut { IfErr result (λ f. BreaksOff line f.ticket (entries book.old) (entries book.new)) }
{
    let Line {
        session,
        command: asked,
    } = line;
    let number = session + 1;
    gate.pass(number, Point::Starting);
    let mut seat = Alone {
        book,
        number,
        refused: None,
    };
    let reply = match command(alloc, &mut seat, asked, gate) {
        Ok(reply) => reply,
        Err(full) => return Err(full),
    };
    gate.pass(number, Point::Answered);
    Ok(reply)
}

/// Does the commands of the lines in order, up to one of which a turn is refused.
fn serve<G: Gate>(
    alloc: Global,
    book: Book,
    lines: Vec<Line>,
    responses: Vec<Response>,
    gate: &G,
) -> Run
    requires new { entries book ≡ [] }
    requires none { responses.items ≡ [] }
    requires room { vec_len lines ≤ vec_capacity responses }
    ensures { IsRunOf lines.items result }
{
    let mut book = book;
    let mut responses = responses;
    for line in lines {
        let session = line.session;
        match answer(alloc, &mut book, line, gate) {
            Ok(reply) => responses.push_reserved(Response { session, reply }),
            Err(full) => {
                return Run {
                    journal: Journal::from_vec(book.into_journal()),
                    responses: Responses::from_vec(responses),
                    ending: Ending::Full {
                        ticket: full.ticket,
                    },
                };
            }
        }
    }
    Run {
        journal: Journal::from_vec(book.into_journal()),
        responses: Responses::from_vec(responses),
        ending: Ending::Done,
    }
}

/// Does the commands of the script in its order on the calling thread, all at one book. The seat of session s has the
/// number s + 1. The gate is passed before each command and behind each answer, and where `command` passes it.
///
/// `AllocError` is want of memory before the first turn.
pub fn run_alone<G: Gate>(alloc: Global, script: Script, gate: &G) -> Result<Run, AllocError>
    ensures { IfOk result (λ r. IsRunOf script.lines r) }
{
    let book = Book::new(alloc)?;
    let lines = script.lines.into_vec();
    let responses = Vec::with_capacity(alloc, lines.len())?;
    Ok(serve(alloc, book, lines, responses, gate))
}
