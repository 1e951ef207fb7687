//! Runs of given lists of jobs, each session in a thread of its own.

mod many;
mod opened;
mod threads;
mod two;

pub use many::many_sessions;
pub use two::two_sessions;
