//! Seats for sessions and links, and the queues between them and their keeper.
//!
//! Seats put jobs into one queue, which the keeper's side alone takes from. Each seat takes its answers from a queue of
//! its own, which the keeper's side alone puts into. What a seat put is its part of what was popped, and then its part
//! of the queue, in order, each job once. What a seat took is the beginning of what it was given.
//!
//! A put never waits: where the queue is full the seat gets its job back. Nothing promises that a thread makes progress.
//!
//! - `answers`: the queue of one seat's answers
//! - `bell`: what wakes a seat
//! - `jobs`: the queue of jobs, from all seats to the keeper
//! - `opening`: how the queues and their seats are made
//! - `queues`: the keeper's end of all queues
//! - `seat`: a seat, which puts jobs and takes answers
#![tactic(auto)]

mod answers;
mod bell;
mod jobs;
mod opening;
mod queues;
mod seat;

pub use bell::Bell;
pub use jobs::Letter;
pub use queues::SeatQueues;
pub use seat::Seat;
