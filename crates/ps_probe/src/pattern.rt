/// Which inputs are fixed, and to what. Of each number bit i is that of input i, which is the first character's
/// for i = 0; bits from `len` on say nothing.
#[derive(Clone, Copy)]
pub struct Pattern {
    /// How many inputs there are.
    pub len: u32,
    /// The inputs that are fixed.
    pub fixed: u64,
    /// The inputs that are fixed to 1.
    pub ones: u64,
}
