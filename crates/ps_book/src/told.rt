//! A reply, twice: for the seat that asked, and for the journal.
ghost use Rattle.std.specs.Prelude.{◌≡◌, true, IfOk};
ghost use Rattle.ps_journal.specs.Plain.{is_plain};

use ps_journal::Reply;
use std::alloc::AllocError;

/// One reply twice.
#[derive(Drop)]
pub(crate) struct Told {
    pub(crate) reply: Reply,
    pub(crate) copy: Reply,
    pub(crate) ghost same: { copy ≡ reply },
}

impl Told {
    /// A reply that shares nothing. Takes no memory.
    pub(crate) fn plain(reply: Reply) -> Told
        requires { is_plain reply ≡ true }
        ensures { result.reply ≡ reply }
    {
        match reply.share() {
            Ok(copy) => Told { reply, copy },
            Err(_) => unreachable!(),
        }
    }

    /// A reply that may share something.
    pub(crate) fn shared(reply: Reply) -> Result<Told, AllocError>
        ensures { IfOk result (λ t. t.reply ≡ reply) }
    {
        let copy = reply.share()?;
        Ok(Told { reply, copy })
    }
}
