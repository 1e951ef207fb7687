//! The answers of the machine that adds up the jobs.

/// What the machine answers.
#[derive(Clone, Copy, PartialEq, Eq)]
pub enum Reply {
    /// The sum so far.
    Sum(u64),
    /// The job was not done.
    Failed,
}
