//! The commands of a script, dealt out to their sessions.
ghost use Rattle.std.specs.Prelude.{◌≡◌, [], IfOk, vec_len};
ghost use Rattle.ps_threads.specs.Served.{AreDealt};

use ps_script::{Command, Line};
use std::alloc::{AllocError, Global};

/// How many sessions there are.
pub const SESSIONS: u32 = 16;

/// The commands of each session, in the order of the lines: those of session s stand at place s.
pub fn deal(alloc: Global, lines: Vec<Line>) -> Result<Vec<Vec<Command>>, AllocError>
    ensures len { IfOk result (λ v. vec_len v ≡ 16) }
    ensures dealt { IfOk result (λ v. AreDealt lines.items v.items) }
{
    let mut dealt = nothing(alloc)?;
    for line in lines {
        dealt[line.session as usize].push(line.command)?;
    }
    Ok(dealt)
}

// No commands for each session.
fn nothing(alloc: Global) -> Result<Vec<Vec<Command>>, AllocError>
    ensures len { IfOk result (λ v. vec_len v ≡ 16) }
    ensures dealt { IfOk result (λ v. AreDealt [] v.items) }
{
    let mut dealt = Vec::with_capacity(alloc, SESSIONS as usize)?;
    for _ in 0..SESSIONS {
        dealt.push_reserved(Vec::new(alloc));
    }
    Ok(dealt)
}
