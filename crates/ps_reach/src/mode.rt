/// What two segments are compared for.
#[derive(Clone, Copy, Debug, PartialEq, Eq)]
pub enum Mode {
    /// Whether they are one linear map.
    Exact,
    /// Whether they are one linear map up to a global phase.
    Phase,
}
