//! What an operator may want to know of the link to a handset.

/// What an operator may want to know of the link to a handset.
#[derive(Clone, Copy, PartialEq, Eq)]
pub struct LinkFigures {
    /// How many parts of messages and status reports wait for the handset.
    pub waiting: usize,
    /// The handset said that it has no memory.
    pub is_full: bool,
    /// Something to the handset is under way.
    pub is_under_way: bool,
}
