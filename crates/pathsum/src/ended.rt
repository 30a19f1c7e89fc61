use ps_sessions::Journal;

/// How a call of the program ended.
#[derive(Drop)]
pub struct Ended {
    /// The exit status.
    pub status: u8,
    /// The turns of a run: what the service was asked, and what it answered. None where no script was run.
    pub journal: Journal,
}
