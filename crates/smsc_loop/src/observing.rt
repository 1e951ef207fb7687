//! What an observer gets to know of an endpoint.
ghost use Rattle.std.specs.Prelude.{ℕ, List, Option};
ghost use Rattle.sms_seats.specs.declared.seat.Seat.{Seat};
ghost use Rattle.sms_centre_spec.specs.declared.jobs.job.Job.{Job};
ghost use Rattle.sms_centre_spec.specs.declared.jobs.reply.Reply.{Reply};
ghost use Rattle.smsc_loop.specs.Courses.{Did, standing};
ghost use Rattle.smsc_loop.specs.Phases.{Phase};

use crate::endpoint::Endpoint;
use crate::surroundings::{Activity, Surroundings};

/// Tells the observer what happened to the endpoint.
pub(crate) fn observe_notes<G: Endpoint, A: Surroundings>(around: &A, seat: usize, endpoint: &mut G)
    ensures { (p : Phase) (a w : Option (List ℕ)) (s : Seat Job Reply) → Did G.does (standing endpoint.old p a w s)
        (standing endpoint.new p a w s) }
{
    for _ in 0..64 {
        match endpoint.note() {
            Some(note) => around.observe(seat, note),
            None => return,
        }
    }
}

/// Tells the observer how much the endpoint did.
pub(crate) fn watch<G: Endpoint, A: Surroundings>(around: &A, seat: usize, endpoint: &G) {
    let activity = Activity {
        counts: endpoint.counts(),
        window: endpoint.unanswered(),
    };
    around.watch(seat, &activity);
}
