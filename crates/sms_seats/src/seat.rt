//! A seat, at which a session or a link puts its jobs and takes its answers.
ghost use Rattle.std.specs.Prelude.{◌≡◌, true};
ghost use Rattle.std.specs.Arc.{arc_value};
ghost use Rattle.crossbeam_queue.specs.Passes.{view, IsPassOf};
ghost use Rattle.sms_seats.specs.Answers.{taker_view};
ghost use Rattle.sms_seats.specs.Jobs.{seat_view, ends_last};

use crate::answers::{AnswersPass, AnswersQueue};
use crate::jobs::{JobsPass, JobsQueue};
use std::alloc::Global;
use std::sync::Arc;
use std::thread::Parker;

mod calls;

/// A place at a hub, which one thread holds at a time.
#[derive(Drop)]
pub struct Seat<J, O> {
    pub(crate) number: usize,
    pub(crate) jobs: Arc<JobsQueue<J>, Global>,
    pub(crate) pass: JobsPass<J>,
    pub(crate) answers: Arc<AnswersQueue<O>, Global>,
    pub(crate) taker: AnswersPass<O>,
    // Wakes it: the keeper rings for an answer.
    pub(crate) bell: Arc<Parker, Global>,
    // Wakes the keeper.
    pub(crate) keeper: Arc<Parker, Global>,
    ghost seated: { IsPassOf (arc_value jobs) pass },
    ghost puts: { view pass ≡ seat_view number (view pass).put },
    ghost ended: { ends_last (view pass).put ≡ true },
    ghost served: { IsPassOf (arc_value answers) taker },
    ghost takes: { view taker ≡ taker_view (view taker).taken },
}
