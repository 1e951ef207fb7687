//! Receipts, then offers.
ghost use Rattle.std.specs.Prelude.{◌≡◌, None};
ghost use Rattle.sms_rows.specs.keep.StoreOutcome.{WasHonest};
ghost use Rattle.sms_centre_queue.specs.queues.Walks.{walk};
ghost use Rattle.sms_centre_draft.specs.walks.Stepping.{offer_at as offer_at_of};
ghost use Rattle.sms_centre_spec.specs.CentreEvent.{follow as follow_of};
ghost use Rattle.sms_centre_spec.specs.Draft.{Draft};
ghost use Rattle.sms_centre_spec.specs.Offering.{offer as offer_of};
ghost use Rattle.sms_centre_spec.specs.Sessions.{send as send_of};
ghost use Rattle.sms_centre_events.specs.offering.Refusing.{ReadingOutcome, UnlessMemory};
ghost use Rattle.sms_centre_events.specs.offering.Stored.{CanOffer};
ghost use Rattle.sms_centre_draft.specs.CentreDraft.{Represents};

use crate::offering::offers::offer_at;
use sms_centre_draft::CentreDraft;
use sms_centre_draft::walks::laws::offers_concern_those_found;
use sms_centre_queue::queues::{Concern, ConcernedHandset};
use sms_centre_spec::PlanError;
use sms_rows::keep::BodyKeep;

// Offers to these handsets, one after the other.
fn offer_each<B: BodyKeep>(
    draft: &mut CentreDraft<'_>,
    bodies: &mut B,
    centre: &[u8],
    stops: &[ConcernedHandset],
) -> Result<(), PlanError>
    ensures outcome { (d : Draft) (rows : B.Rows) → Represents d draft.old
        → CanOffer B.body_of rows centre.now d.store
        → ReadingOutcome (λ _. Represents (walk offer_at_of stops.now d) draft.new) (walk offer_at_of stops.now d).links.read rows
        (B.state bodies.old) (B.state bodies.new) result }
    ensures before { WasHonest (B.state bodies.old) (B.state bodies.new) }
{
    for stop in stops {
        match offer_at(draft, bodies, centre, stop.number) {
            Ok(()) => {}
            Err(error) => return Err(error),
        }
    }
    Ok(())
}

// To each handset whose link is ready the next that is due is offered.
fn offer<B: BodyKeep>(
    draft: &mut CentreDraft<'_>,
    bodies: &mut B,
    centre: &[u8],
) -> Result<(), PlanError>
    ensures outcome { (d : Draft) (rows : B.Rows) → Represents d draft.old → CanOffer B.body_of rows centre.now d.store
        → ReadingOutcome (λ _. Represents (offer_of d) draft.new) (offer_of d).links.read rows (B.state bodies.old) (B.state bodies.new) result }
    ensures before { WasHonest (B.state bodies.old) (B.state bodies.new) }
{
    offers_concern_those_found();
    let now = draft.now();
    match draft.stops(&Concern::Offer(now)) {
        Ok(stops) => offer_each(draft, bodies, centre, stops.as_slice()),
        Err(_) => Err(PlanError::NoMemory),
    }
}

// Receipts that are due are sent.
fn send_receipts(draft: &mut CentreDraft<'_>) -> Result<(), PlanError>
    ensures { (d : Draft) → Represents d draft.old → UnlessMemory (λ _. Represents (send_of d) draft.new) result }
{
    match draft.send() {
        Ok(()) => Ok(()),
        Err(_) => Err(PlanError::NoMemory),
    }
}

/// What follows every event. Receipts that are due are sent in their sessions. Then each handset whose link is ready is
/// offered its next due part. The TPDU is read from the store, unless the event made it. `centre` is the centre's
/// address as RP units carry it, 2 to 11 octets.
///
/// Where the rows are sound, one of three holds. The centre then represents what follows in the definition, and the
/// store holds what it held. Or the store refused to read a body that the definition reads (`NoBody`), and is unchanged
/// or closed. Or there was no memory, and the store refused nothing. After an error the event is given up.
pub fn follow<B: BodyKeep>(
    draft: &mut CentreDraft<'_>,
    bodies: &mut B,
    centre: &[u8],
) -> Result<(), PlanError>
    ensures outcome { (d : Draft) (rows : B.Rows) → Represents d draft.old → CanOffer B.body_of rows centre.now d.store
        → ReadingOutcome (λ _. Represents (follow_of d) draft.new) (follow_of d).links.read rows (B.state bodies.old) (B.state bodies.new) result }
    ensures before { WasHonest (B.state bodies.old) (B.state bodies.new) }
{
    match send_receipts(draft) {
        Ok(()) => offer(draft, bodies, centre),
        Err(error) => Err(error),
    }
}
