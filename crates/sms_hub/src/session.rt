//! A session of a given list of jobs.
ghost use Rattle.std.specs.Prelude.{◌≡◌, false};
ghost use Rattle.sms_seats.specs.Seats.{taken_by};

use sms_keeper::Seat;

pub(crate) mod steps;

/// A seat with the answers that were taken at it.
#[derive(Drop)]
pub(crate) struct Session<J, O> {
    pub(crate) seat: Seat<J, O>,
    pub(crate) answers: Vec<O>,
    // Memory ran out, and an answer was lost.
    pub(crate) short: bool,
    ghost all_taken: { short ≡ false → answers.items ≡ taken_by seat },
}
