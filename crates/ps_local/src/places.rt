/// A place in each of two lists: so many items stand before it.
#[derive(Clone, Copy)]
pub struct Places {
    /// How many items of the first list stand before the place.
    pub first: usize,
    /// How many items of the second list stand before the place.
    pub second: usize,
}
