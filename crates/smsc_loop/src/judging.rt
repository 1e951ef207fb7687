//! What the waiting and the orders lead to.
ghost use Rattle.std.specs.Prelude.{◌≡◌, ◌||◌, ℕ, Bool, List, None, Option, is_ok, IfOk};
ghost use Rattle.sms_seats.specs.declared.seat.Seat.{Seat};
ghost use Rattle.sms_centre_spec.specs.declared.jobs.job.Job.{Job};
ghost use Rattle.sms_centre_spec.specs.declared.jobs.reply.Reply.{Reply};
ghost use Rattle.smsc_loop.specs.Courses.{Did, standing};
ghost use Rattle.smsc_loop.specs.Duties.{Heeds, Obeys, Stood, Unbinds, has_time as has_time_of};
ghost use Rattle.smsc_loop.specs.Phases.{Serves, behind};
ghost use Rattle.smsc_loop.specs.Served.{MeantAt, SideEnd};

use crate::endpoint::Endpoint;
use crate::note::LeaveReason;
use crate::surroundings::{Order, Surroundings};
use crate::turn_end::TurnEnd;
use smpp_session::patience::{EndpointState, Patience, WaitOutcome};
use std::alloc::AllocError;

// Milliseconds that an endpoint which is to leave has for the answers that it is still owed.
const ANSWER_LIMIT: u64 = 7_000;

fn state_of<G: Endpoint, A: Surroundings>(around: &A, endpoint: &G) -> EndpointState {
    EndpointState {
        is_known: endpoint.is_known(),
        is_bound: endpoint.is_bound(),
        others_wait: around.do_others_wait(),
        owed: endpoint.owed_since(),
    }
}

// Whether an endpoint that is to leave still has time for answers.
fn has_time(patience: &Patience, now: u64) -> bool
    ensures { result ≡ has_time_of patience.now now }
{
    match patience.leaving {
        Some(since) => now.saturating_sub(since) < ANSWER_LIMIT,
        None => true,
    }
}

// Does what the verdict asks. An endpoint that is to leave may wait for answers.
fn heed<G: Endpoint>(
    verdict: WaitOutcome,
    waits: bool,
    endpoint: &mut G,
    patience: &mut Patience,
    now: u64,
) -> Result<TurnEnd, AllocError>
    ensures { Heeds G.does G.owing verdict waits now patience.old endpoint.old patience.new endpoint.new result }
{
    match verdict {
        WaitOutcome::Waits => Ok(TurnEnd::Stays),
        WaitOutcome::AsksLink => {
            endpoint.ask_link()?;
            patience.ask(now);
            Ok(TurnEnd::Stays)
        }
        WaitOutcome::Silent => Ok(TurnEnd::Leaves(LeaveReason::Silent)),
        WaitOutcome::Stalled => Ok(TurnEnd::Leaves(LeaveReason::Stalled)),
        WaitOutcome::Unanswered => Ok(TurnEnd::Leaves(LeaveReason::Unanswered)),
        WaitOutcome::Inactive => Ok(TurnEnd::Leaves(LeaveReason::Inactive)),
        WaitOutcome::Ordered if waits => Ok(TurnEnd::Stays),
        WaitOutcome::Ordered => Ok(TurnEnd::Leaves(LeaveReason::Ordered)),
    }
}

/// Does what the waiting has led to.
pub(crate) fn judge<G: Endpoint, A: Surroundings>(
    around: &A,
    endpoint: &mut G,
    patience: &mut Patience,
    now: u64,
) -> Result<TurnEnd, AllocError>
    ensures did { (a w : Option (List ℕ)) (s : Seat Job Reply) → Did G.does (standing endpoint.old Serves a w s)
        (standing endpoint.new (behind (is_ok result) Serves) a w s) }
    ensures meant { (side : SideEnd) (closed : Bool) → IfOk result (λ end. MeantAt G.waits G.over G.owing side closed endpoint.new end) }
{
    if endpoint.is_known() {
        patience.know(now);
    }
    let verdict = patience.verdict(&state_of(around, endpoint), now);
    let waits = endpoint.owes() && has_time(patience, now);
    heed(verdict, waits, endpoint, patience, now)
}

// An endpoint that was sent unbind stays, and so does one that still has answers to get.
fn stand(is_asked: bool, owes: bool, patience: &mut Patience, now: u64) -> TurnEnd
    requires { patience.old.leaving ≡ None }
    ensures { Stood (is_asked || owes) now patience.old patience.new result }
{
    if is_asked || owes {
        patience.leave(now);
        return TurnEnd::Stays;
    }
    TurnEnd::Leaves(LeaveReason::Ordered)
}

// Asks the endpoint to leave, unless it was asked.
fn unbind<G: Endpoint>(
    leaving: Option<u64>,
    endpoint: &mut G,
    patience: &mut Patience,
    now: u64,
) -> Result<TurnEnd, AllocError>
    requires { patience.old.leaving ≡ leaving }
    ensures { Unbinds G.does G.owing leaving now patience.old endpoint.old patience.new endpoint.new result }
{
    match leaving {
        Some(_) => Ok(TurnEnd::Stays),
        None => {
            let is_asked = endpoint.ask_to_leave()?;
            let owes = endpoint.owes();
            Ok(stand(is_asked, owes, patience, now))
        }
    }
}

/// Does what is ordered of the endpoint.
pub(crate) fn obey<G: Endpoint>(
    order: Order,
    endpoint: &mut G,
    patience: &mut Patience,
    now: u64,
) -> Result<TurnEnd, AllocError>
    ensures { Obeys G.does G.owing order now patience.old endpoint.old patience.new endpoint.new result }
{
    match order {
        Order::Stay => Ok(TurnEnd::Stays),
        Order::End => Ok(TurnEnd::Leaves(LeaveReason::Ordered)),
        Order::Replaced => Ok(TurnEnd::Leaves(LeaveReason::Replaced)),
        Order::Unbind => unbind(patience.leaving, endpoint, patience, now),
    }
}
