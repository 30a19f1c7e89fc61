//! What the service answers.

ghost use Rattle.std.specs.Prelude.{◌≡◌, true, IfOk, IsOk};
ghost use Rattle.ps_journal.specs.Plain.{is_plain, is_refusal};

use crate::commands::Cmd;
use crate::shared::Shared;
use ps_reach::{Items, Judged, Record, Task};
use qasm_expand::FaultName;
use std::alloc::AllocError;

/// One turn of the service: who asked what, and what was answered. Entries are numbered from 0.
pub type Entry = ps_desk::Entry<Cmd, Reply>;

/// One answer of the service.
#[derive(Drop)]
pub enum Reply {
    /// The circuit is open, and so many segments of its first version have no record.
    Opened {
        missing: u32,
    },
    /// The circuit has this version, so many segments of which have no record.
    Committed {
        version: u32,
        missing: u32,
    },
    /// The version is retired. The bits are the seats that have a claim on it.
    Retired {
        claims: u64,
    },
    /// The seat has pinned the versions.
    Pinned,
    /// The seat has a claim on a segment, which this task computes.
    Task(Shared<Task>),
    /// Nothing is to be computed for the pinned versions, which come to these records.
    Settled {
        first: Shared<Record>,
        second: Option<Shared<Record>>,
    },
    /// Nothing is to be computed for any version.
    Idle,
    /// The record is published.
    Published,
    /// The claim stands.
    Stands,
    /// The verdict is told, and whether a proof is asked for.
    Answered {
        judged: Shared<Judged>,
        proof: bool,
    },
    /// The items of the version.
    Shown(Shared<Items>),
    /// The version comes to this record.
    SumIs(Shared<Record>),
    /// This entry opened a circuit of the name.
    NameTaken(u32),
    /// 256 circuits are there.
    CircuitsFull,
    /// The text or the block has this first fault.
    Bad {
        name: FaultName,
        line: u32,
        column: u32,
    },
    /// No circuit has the name.
    NoCircuit,
    /// The circuit has no such version; this is its latest one.
    NoVersion(u32),
    /// This entry retired the version.
    WasRetired(u32),
    /// The version is the latest one.
    IsLatest,
    /// The base is not the latest version, which is this one.
    Stale(u32),
    /// There is no such range of items in a version with so many.
    Span(u32),
    /// The version would have so many items, more than 65,536.
    TooLong(u32),
    /// Nothing would change.
    Nothing,
    /// The two circuits have these numbers of qubits, which differ.
    Widths(u32, u32),
    /// The seat has pinned nothing.
    NoPin,
    /// The seat has no claim.
    NoClaim,
    /// A record is not of what it should be, or the outcome is one of another command.
    OtherRun,
    /// This entry published a record of the segment.
    Already(u32),
    /// The version is not kept any more, since this entry.
    Dropped(u32),
    /// The kept terms would be so many, more than 8,388,608.
    NoRoom(u64),
    /// Nothing was refused for room under the pin.
    NotCrowded,
    /// So many segments of the version have no record yet.
    Unsettled(u32),
    /// Memory was wanting.
    Memory,
}

impl Reply {
    /// The same reply once more, for which what it shares gets one owner more. A reply that shares nothing takes no memory.
    pub fn share(&self) -> Result<Reply, AllocError>
        ensures value { IfOk result (λ r. r ≡ self.now) }
        ensures plain { is_plain self.now ≡ true → IsOk result }
    {
        match self {
            Reply::Task(task) => Ok(Reply::Task(task.share()?)),
            Reply::Settled { first, second } => {
                let first = first.share()?;
                let second = share_maybe(second)?;
                Ok(Reply::Settled { first, second })
            }
            Reply::Answered { judged, proof } => Ok(Reply::Answered {
                judged: judged.share()?,
                proof: *proof,
            }),
            Reply::Shown(items) => Ok(Reply::Shown(items.share()?)),
            Reply::SumIs(record) => Ok(Reply::SumIs(record.share()?)),
            _ => Ok(self.plain_copy()),
        }
    }

    /// The same of a reply that shares nothing.
    fn plain_copy(&self) -> Reply
        requires { is_plain self.now ≡ true }
        ensures { result ≡ self.now }
    {
        match self {
            Reply::Opened { missing } => Reply::Opened { missing: *missing },
            Reply::Committed { version, missing } => Reply::Committed {
                version: *version,
                missing: *missing,
            },
            Reply::Retired { claims } => Reply::Retired { claims: *claims },
            Reply::Pinned => Reply::Pinned,
            Reply::Idle => Reply::Idle,
            Reply::Published => Reply::Published,
            Reply::Stands => Reply::Stands,
            _ => self.refusal_copy(),
        }
    }

    /// The same of a refusal.
    fn refusal_copy(&self) -> Reply
        requires { is_refusal self.now ≡ true }
        ensures { result ≡ self.now }
    {
        match self {
            Reply::NameTaken(entry) => Reply::NameTaken(*entry),
            Reply::CircuitsFull => Reply::CircuitsFull,
            Reply::Bad { name, line, column } => Reply::Bad {
                name: *name,
                line: *line,
                column: *column,
            },
            Reply::NoCircuit => Reply::NoCircuit,
            Reply::NoVersion(latest) => Reply::NoVersion(*latest),
            Reply::WasRetired(entry) => Reply::WasRetired(*entry),
            Reply::IsLatest => Reply::IsLatest,
            Reply::Stale(latest) => Reply::Stale(*latest),
            Reply::Span(len) => Reply::Span(*len),
            Reply::TooLong(len) => Reply::TooLong(*len),
            Reply::Nothing => Reply::Nothing,
            Reply::Widths(first, second) => Reply::Widths(*first, *second),
            Reply::NoPin => Reply::NoPin,
            Reply::NoClaim => Reply::NoClaim,
            Reply::OtherRun => Reply::OtherRun,
            Reply::Already(entry) => Reply::Already(*entry),
            Reply::Dropped(entry) => Reply::Dropped(*entry),
            Reply::NoRoom(total) => Reply::NoRoom(*total),
            Reply::NotCrowded => Reply::NotCrowded,
            Reply::Unsettled(missing) => Reply::Unsettled(*missing),
            Reply::Memory => Reply::Memory,
            _ => unreachable!(),
        }
    }
}

/// A record that may be shared, once more.
fn share_maybe(record: &Option<Shared<Record>>) -> Result<Option<Shared<Record>>, AllocError>
    ensures { IfOk result (λ r. r ≡ record.now) }
{
    match record {
        None => Ok(None),
        Some(record) => {
            let record = record.share()?;
            Ok(Some(record))
        }
    }
}
