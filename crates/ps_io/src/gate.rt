/// The places at which a caller asks a gate before it goes on.
#[derive(Clone, Copy, Debug, PartialEq, Eq)]
pub enum Point {
    /// Before each command of a session.
    Starting,
    /// After a version was pinned.
    Pinned,
    /// While a segment is computed.
    Filling,
    /// After each reply of a session.
    Answered,
}

/// Who may hold a caller up. A point counts as passed from the moment at which the gate is asked.
pub trait Gate {
    /// Asks for the seat at the point. It promises nothing.
    fn pass(&self, seat: u32, point: Point);
}

/// The gate that holds nobody up.
#[derive(Clone, Copy, Debug)]
pub struct OpenGate;

impl Gate for OpenGate {
    fn pass(&self, _seat: u32, _point: Point) {}
}
