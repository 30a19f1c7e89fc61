use ps_reach::Record;

/// What filling a segment came to.
#[derive(Drop)]
pub enum Filled {
    /// The record of the segment.
    Done(Record),
    /// It was asked to stop.
    Stopped,
}
