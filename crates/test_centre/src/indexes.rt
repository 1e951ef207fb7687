//! Tests of what a centre keeps in memory beside its rows, over public calls.
//!
//! They are of deadlines, of values that are kept once, of indexes whose copies are shared, and of the queue of a
//! handset. Each call has ample memory, so that none may give up.

#[cfg(test)]
mod deadlines;
#[cfg(test)]
mod indexes;
#[cfg(test)]
mod interning;
#[cfg(test)]
pub(crate) mod names;
#[cfg(test)]
mod queue;
