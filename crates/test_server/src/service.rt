//! Tests of the centre as the machine of a hub: turn by turn over a store in memory that fails on demand, and in
//! threads.
//!
//! A course is a table: what happens, turn by turn, and for each turn the step's end and each seat's replies. Bound
//! sessions have their answers and receipts, links their frames. A commit or a read of a body that the store refuses
//! leaves what was committed, and the service continues from it.
//!
//! Each session in a thread has a list of a submit and a query of the first message. In whatever order the centre takes
//! them, each message has a number of its own, and who has submitted can query the first.

#[cfg(test)]
mod asks;
#[cfg(test)]
pub(crate) mod centre;
#[cfg(test)]
mod courses;
#[cfg(test)]
mod many_sessions;
#[cfg(test)]
mod store;
#[cfg(test)]
mod telling;
#[cfg(test)]
mod turns;
