//! What a stimulus asks, and what it gives.
ghost use Rattle.std.specs.Prelude.{◌≡◌, None, IfOk};
ghost use Rattle.sms_centre.specs.plans.EventOutcome.{IsOutcome};
ghost use Rattle.sms_centre.specs.state.CentreState.{Represents};
ghost use Rattle.sms_centre_spec.specs.CentreEvent.{happened};
ghost use Rattle.sms_centre_spec.specs.declared.event.CentreEvent.{CentreEvent as CentreEventOf};
ghost use Rattle.sms_keeper.specs.declared.machine.Fate.TheVariants.{Done, Refused};
ghost use Rattle.smsc_service.specs.Asking.{asked_by as asked_by_of};
ghost use Rattle.smsc_service.specs.Seats.{seats_in};
ghost use Rattle.smsc_service.specs.Serving.{Serving, after, followed_by, gives};
ghost use Rattle.smsc_service.specs.Replies.{asker, failed_by, nothing_by, risen_by as risen_by_of, seat_answer as seat_answer_of, taken_by, replies_to};

use crate::asking::{SeatRequest, errand_asks, job_asks};
use crate::made::Made;
use crate::replies::{Requester, failed, reply_outs, taken, vacancy};
use crate::seat_map::SeatMap;
use sms_base::Msisdn;
use sms_centre::{Centre, CentreAnswer, CentreEvent, Plan};
use sms_centre_spec::jobs::{Job, Reply};
use sms_keeper::{Fate, Out, Outs, Stimulus};
use std::alloc::{AllocError, Global};

/// What the stimulus asks of the centre. A hub has 32 seats.
pub(crate) fn asked_by<'a>(seat_map: &SeatMap, stimulus: &'a Stimulus<Job>) -> SeatRequest<'a>
    ensures asked { result ≡ asked_by_of (seats_in seat_map.now) stimulus.entry.now }
{
    match stimulus {
        Stimulus::Job(seat, job) => {
            if *seat < 32 {
                job_asks(seat_map, *seat as u32, job)
            } else {
                SeatRequest::Nothing
            }
        }
        Stimulus::Tick(now) => SeatRequest::Event(CentreEvent::Tick(*now)),
        Stimulus::Own(errand) => errand_asks(errand),
    }
}

/// What the stimulus changes of who sits where.
pub(crate) fn follow(seat_map: &mut SeatMap, stimulus: &Stimulus<Job>)
    ensures { seats_in seat_map.new ≡ followed_by stimulus.now (seats_in seat_map.old) }
{
    if let Stimulus::Job(seat, job) = stimulus {
        if *seat < 32 {
            seat_map.follow(*seat as u32, job);
        }
    }
}

// ---- what it gives

// The handset whose link a job brings up: frames for it are sent to the seat that asks.
fn risen_by(stimulus: &Stimulus<Job>) -> Option<Msisdn>
    ensures { result ≡ risen_by_of stimulus.now }
{
    match stimulus {
        Stimulus::Job(_, Job::LinkUp { handset }) => Some(*handset),
        _ => None,
    }
}

fn asker_of(stimulus: &Stimulus<Job>) -> usize
    ensures { result ≡ asker stimulus.now }
{
    match stimulus {
        Stimulus::Job(seat, _) => *seat,
        Stimulus::Tick(_) | Stimulus::Own(_) => 0,
    }
}

// The answer that goes to the seat that asked: that to an errand goes to none.
fn seat_answer(stimulus: &Stimulus<Job>, answer: Option<CentreAnswer>) -> Option<CentreAnswer>
    ensures { result ≡ seat_answer_of stimulus.now answer }
{
    match stimulus {
        Stimulus::Job(_, _) | Stimulus::Tick(_) => answer,
        Stimulus::Own(_) => None,
    }
}

/// The replies of the seats to the plan of an event.
pub(crate) fn planned_outs(
    alloc: Global,
    seat_map: &SeatMap,
    stimulus: &Stimulus<Job>,
    centre: &Centre,
    planned: &Plan,
) -> Result<Vec<Out<Reply>>, AllocError>
    ensures { (event : CentreEventOf) (s : Serving) → Represents s.core centre.now → seats_in seat_map.now ≡ s.seats
        → IsOutcome (happened event s.core) planned.now.plan
        → IfOk result (λ outs. outs.items ≡ replies_to s.seats stimulus.now (happened event s.core)) }
{
    let asker = Requester {
        risen: risen_by(stimulus),
        seat: asker_of(stimulus),
    };
    let answer = seat_answer(stimulus, planned.outputs().answer);
    reply_outs(alloc, seat_map, &asker, centre, planned, answer)
}

fn taken_at(stimulus: &Stimulus<Job>) -> Outs<Reply>
    ensures { result ≡ taken_by stimulus.now }
{
    match stimulus {
        Stimulus::Job(seat, _) => taken(*seat),
        Stimulus::Tick(_) | Stimulus::Own(_) => Outs::none(),
    }
}

/// What an item comes to where a link is taken.
pub(crate) fn turned_away(stimulus: &Stimulus<Job>) -> Made
    ensures fate { result.fate ≡ Done }
    ensures outs { result.outs ≡ taken_by stimulus.now }
    ensures told { result.told ≡ None }
{
    Made {
        fate: Fate::Done,
        outs: taken_at(stimulus),
        told: None,
    }
}

fn failed_at(stimulus: &Stimulus<Job>) -> Outs<Reply>
    ensures { result ≡ failed_by stimulus.now }
{
    match stimulus {
        Stimulus::Job(seat, job) => failed(*seat, job),
        Stimulus::Tick(_) | Stimulus::Own(_) => Outs::none(),
    }
}

fn vacancy_at(seat_map: &SeatMap, stimulus: &Stimulus<Job>) -> Outs<Reply>
    ensures { result ≡ nothing_by (seats_in seat_map.now) stimulus.now }
{
    match stimulus {
        Stimulus::Job(seat, job) => vacancy(seat_map, *seat, job),
        Stimulus::Tick(_) | Stimulus::Own(_) => Outs::none(),
    }
}

/// What an item comes to that asks nothing.
pub(crate) fn unasked(seat_map: &SeatMap, stimulus: &Stimulus<Job>) -> Made
    ensures fate { result.fate ≡ Done }
    ensures outs { result.outs ≡ nothing_by (seats_in seat_map.now) stimulus.now }
    ensures told { result.told ≡ None }
{
    Made {
        fate: Fate::Done,
        outs: vacancy_at(seat_map, stimulus),
        told: None,
    }
}

/// What an item comes to that was not made.
pub(crate) fn unmade(fate: Fate, stimulus: &Stimulus<Job>) -> Made
    ensures fate { result.fate ≡ fate }
    ensures outs { result.outs ≡ failed_by stimulus.now }
    ensures told { result.told ≡ None }
{
    Made {
        fate,
        outs: failed_at(stimulus),
        told: None,
    }
}

/// What an item gives whose group is refused, by who sits where if it is. It changes that as its job does.
pub(crate) fn refused_with_group(seat_map: &mut SeatMap, stimulus: &Stimulus<Job>) -> Outs<Reply>
    // For whatever centre starts again then.
    ensures outs { (r : Serving) → seats_in seat_map.old ≡ r.seats → result ≡ gives r stimulus.now Refused }
    ensures seats { (r : Serving) → seats_in seat_map.old ≡ r.seats → seats_in seat_map.new ≡ (after r stimulus.now Refused).seats }
{
    match asked_by(seat_map, stimulus) {
        SeatRequest::Event(_) => {
            follow(seat_map, stimulus);
            failed_at(stimulus)
        }
        SeatRequest::Nothing => vacancy_at(seat_map, stimulus),
        SeatRequest::Taken => taken_at(stimulus),
        SeatRequest::Forget { .. } => failed_at(stimulus),
        SeatRequest::Enrol(_) => failed_at(stimulus),
    }
}
