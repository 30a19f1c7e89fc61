use ps_reach::Items;

/// What is left of two lists of items between a front and a back that they have in common.
#[derive(Drop)]
pub struct Cut {
    /// How many items the front has.
    pub front: usize,
    /// How many items the back has.
    pub back: usize,
    /// The items of the first list in between.
    pub first: Items,
    /// The items of the second list in between.
    pub second: Items,
}
