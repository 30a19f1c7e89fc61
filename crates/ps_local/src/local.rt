use ps_normal::Decision;

/// What was found of two lists of items, by what is left of them.
#[derive(Drop)]
pub struct Local {
    /// How many items the front has that they have in common.
    pub front: usize,
    /// How many items the back has that they have in common.
    pub back: usize,
    pub found: Found,
}

/// What is left of two lists of items comes to this.
#[derive(Drop)]
pub enum Found {
    /// Nothing is left of either.
    Nothing,
    /// What is left comes to this.
    Decided(Decision),
    /// What is left comes to neither yes nor no as it stands, but it is windows side by side, each of which is
    /// one map.
    Windows,
}
