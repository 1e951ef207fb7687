//! The moments at which pending messages expire.
//!
//! `Deadlines` has the moment from which on each message is not delivered any more, as a heap. A new message costs a
//! logarithm, and takes no memory where room was made before. `past` finds the messages whose moment is reached, at a
//! cost of what it finds, and never misses one. A message that ended earlier stays until its deadline is the first.

mod deadline;
mod deadlines;

pub use deadline::Deadline;
pub use deadlines::{Deadlines, DeadlinesReserve};
