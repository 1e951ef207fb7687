//! The keeper's end of each queue.
ghost use Rattle.std.specs.Prelude.{◌≡◌, ◌<◌, ℕ, true, Some, slice_get, length};
ghost use Rattle.std.specs.Arc.{arc_value};
ghost use Rattle.crossbeam_queue.specs.Passes.{view, IsPassOf, ruled_capacity};
ghost use Rattle.sms_seats.specs.Answers.{giver_view};
ghost use Rattle.sms_seats.specs.Jobs.{of, keeper_view, has_end};

use crate::answers::{AnswersPass, AnswersQueue};
use crate::jobs::{JobsPass, JobsQueue};
use std::alloc::Global;
use std::sync::Arc;
use std::thread::Parker;

mod giving;
mod popping;
mod taking;

/// The way to one seat: the queue of its answers, and what wakes it.
#[derive(Drop)]
pub struct SeatChannel<O> {
    pub(crate) queue: Arc<AnswersQueue<O>, Global>,
    pub(crate) pass: AnswersPass<O>,
    pub(crate) bell: Arc<Parker, Global>,
    ghost seated: { IsPassOf (arc_value queue) pass },
    ghost gives: { view pass ≡ giver_view (view pass).given },
}

/// The keeper's end of the queue of jobs, and of the queue of each seat's answers.
#[derive(Drop)]
pub struct SeatQueues<J, O> {
    pub(crate) jobs: Arc<JobsQueue<J>, Global>,
    pub(crate) pass: JobsPass<J>,
    pub(crate) lines: Vec<SeatChannel<O>>,
    // Whose end mark was popped.
    pub(crate) closed: Vec<bool>,
    // A put wakes it.
    pub(crate) bell: Arc<Parker, Global>,
    ghost seated: { IsPassOf (arc_value jobs) pass },
    ghost roomy: { 0 < ruled_capacity (arc_value jobs) },
    ghost runs: { view pass ≡ keeper_view (view pass).made (view pass).ran },
    ghost numbered: { (view pass).made ≡ length lines.items },
    ghost sized: { length closed.items ≡ length lines.items },
    ghost ended: { (k : ℕ) → slice_get closed.items k ≡ Some true → has_end (of k (view pass).ran) ≡ true },
}
