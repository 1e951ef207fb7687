//! How many seats there are, and how many sit at them.

/// How many seats a server has, and so how many connections are open at most.
pub const SEATS: usize = 32;

/// How many sit, when somebody had no seat.
#[derive(Clone, Copy, Debug, PartialEq, Eq)]
pub struct Seated {
    /// How many applications sit.
    pub applications: usize,
    /// How many handsets sit.
    pub links: usize,
    /// The place of the account that has most sessions, and how many; none where no session is bound.
    pub most: Option<(u8, usize)>,
}
