//! What is answered where there was no memory for a request.
ghost use Rattle.std.specs.Prelude.{◌≡◌, ◌≢◌};
ghost use Rattle.sms_centre.specs.state.CentreState.{Represents};
ghost use Rattle.sms_centre_spec.specs.Draft.{Core};
ghost use Rattle.sms_keeper.specs.declared.machine.Fate.TheVariants.{NoMemory};
ghost use Rattle.smsc_service.specs.Replies.{refused_by};
ghost use Rattle.smsc_service.specs.Serving.{refusal_for as refusal_for_of, refusal_of as refusal_of_event, short_of, unless_refused};

use crate::asking::SeatRequest;
use crate::made::Made;
use smpp_pdu::CommandStatus;
use sms_centre::{Centre, CentreAnswer, CentreEvent};
use sms_centre_spec::jobs::{Job, Reply};
use sms_keeper::{Fate, Out, Outs, Stimulus};

// The status with which the request is refused whatever memory there is.
fn refusal_for(centre: &Centre, asked: &SeatRequest<'_>) -> Option<CommandStatus>
    ensures { (c : Core) → Represents c centre.now → result ≡ refusal_for_of asked.now c }
{
    match asked {
        SeatRequest::Event(event) => refusal_of(centre, event),
        SeatRequest::Nothing
        | SeatRequest::Taken
        | SeatRequest::Forget { .. }
        | SeatRequest::Enrol(_) => None,
    }
}

fn refusal_of(centre: &Centre, event: &CentreEvent<'_>) -> Option<CommandStatus>
    ensures { (c : Core) → Represents c centre.now → result ≡ refusal_of_event event.now c }
{
    match event {
        CentreEvent::Submit { account, message } => centre.submit_refusal(*account, message),
        CentreEvent::Query { account, query } => centre.query_refusal(*account, query),
        CentreEvent::Cancel { account, cancel } => centre.cancel_refusal(*account, cancel),
        CentreEvent::Bound { .. }
        | CentreEvent::Unbound { .. }
        | CentreEvent::DeliverAnswered { .. }
        | CentreEvent::Frame { .. }
        | CentreEvent::LinkUp { .. }
        | CentreEvent::LinkDown { .. }
        | CentreEvent::Ordered { .. }
        | CentreEvent::Tick(_) => None,
    }
}

fn refused_at(status: CommandStatus, stimulus: &Stimulus<Job>) -> Outs<Reply>
    ensures { result ≡ refused_by status stimulus.now }
{
    match stimulus {
        Stimulus::Job(seat, _) => Outs::one(Out {
            seat: *seat,
            out: Reply::Answer(CentreAnswer::Refused(status)),
        }),
        Stimulus::Tick(_) | Stimulus::Own(_) => Outs::none(),
    }
}

// What a request comes to that found no memory, and is refused with that status.
fn refused(status: CommandStatus, stimulus: &Stimulus<Job>) -> Made
    ensures fate { result.fate ≡ NoMemory }
    ensures outs { result.outs ≡ refused_by status stimulus.now }
{
    Made {
        fate: Fate::NoMemory,
        outs: refused_at(status, stimulus),
        told: None,
    }
}

// What found no memory, refused as its request is whatever memory there is, if it is.
fn short(centre: &Centre, asked: &SeatRequest<'_>, stimulus: &Stimulus<Job>, made: Made) -> Made
    requires none { made.fate ≡ NoMemory }
    ensures fate { result.fate ≡ NoMemory }
    ensures outs { (c : Core) → Represents c centre.now → result.outs ≡ short_of (refusal_for_of asked.now c) stimulus.now made.outs }
{
    match refusal_for(centre, asked) {
        Some(status) => {
            drop(made);
            refused(status, stimulus)
        }
        None => made,
    }
}

/// What was made as it is. What found no memory is refused as its request is whatever memory there is, if it is.
pub(crate) fn answered(
    centre: &Centre,
    asked: &SeatRequest<'_>,
    stimulus: &Stimulus<Job>,
    made: Made,
) -> Made
    ensures fate { result.fate ≡ made.fate }
    ensures told { result.fate ≢ NoMemory → result.told ≡ made.told }
    ensures outs { (c : Core) → (made.fate ≡ NoMemory → Represents c centre.now)
        → result.outs ≡ unless_refused made.fate (refusal_for_of asked.now c) stimulus.now made.outs }
{
    match made.fate {
        Fate::NoMemory => short(centre, asked, stimulus, made),
        Fate::Done => made,
        Fate::Refused => made,
    }
}
