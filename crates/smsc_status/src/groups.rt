//! How large the groups are that a run commits at once.

/// The groups of a run. Each count has the smaller groups in it.
#[derive(Clone, Copy)]
pub struct GroupFigures {
    pub of_1: u64,
    pub up_to_2: u64,
    pub up_to_4: u64,
    pub up_to_8: u64,
    pub up_to_16: u64,
    pub up_to_32: u64,
    /// All groups: none has more than 64 items.
    pub up_to_64: u64,
    /// The items of all groups.
    pub items: u64,
}
