/// A step of rewriting a path sum, which names path variables by their numbers from 0 on.
#[derive(Clone, Copy, Debug, PartialEq, Eq)]
pub enum Step {
    /// A variable that stands nowhere goes.
    Elim { y0: u16 },
    /// A variable that turns by half a turn where the second is not the rest of its terms goes, and
    /// the second becomes that rest.
    Hh { y0: u16, y1: u16 },
    /// A variable that turns by a quarter of a turn, and by half a turn where the rest of its terms
    /// is 1, goes.
    Omega { y0: u16 },
}

/// A step of building a path sum.
#[derive(Clone, Copy, Debug, PartialEq, Eq)]
pub enum Move {
    /// The sum of the gate at a place of the circuit.
    Leaf(u32),
    /// The identity's sum.
    Id,
    /// The last two sums, one after the other.
    Join,
    /// A step of rewriting of the last sum.
    Rewrite(Step),
}
