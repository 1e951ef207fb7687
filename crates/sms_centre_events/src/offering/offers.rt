//! What is offered to one handset.
ghost use Rattle.std.specs.Prelude.{◌≡◌, ℕ, List, None, Some};
ghost use Rattle.sms_base.specs.Among.{Among};
ghost use Rattle.sms_rows.specs.keep.StoreOutcome.{WasHonest};
ghost use Rattle.sms_centre_draft.specs.walks.Stepping.{offer_at as offer_at_of};
ghost use Rattle.sms_centre_spec.specs.Draft.{Draft, waiting_in};
ghost use Rattle.sms_centre_events.specs.offering.Refusing.{ReadingOutcome};
ghost use Rattle.sms_centre_events.specs.offering.Offered.{next_for as next_for_of, offer_next};
ghost use Rattle.sms_centre_events.specs.offering.Stored.{CanOffer};
ghost use Rattle.sms_centre_rows.specs.waiting.Waiting.{waits_beside};
ghost use Rattle.sms_centre_draft.specs.CentreDraft.{Represents};

use crate::offering::reading::tpdu;
use crate::offering::units::send;
use sms_base::Msisdn;
use sms_centre_draft::CentreDraft;
use sms_centre_rows::waiting::QueuedPart;
use sms_centre_spec::PlanError;
use sms_rows::keep::BodyKeep;

// The next that is due for the handset, if its link is ready.
fn next_for(draft: &CentreDraft<'_>, handset: &Msisdn) -> Option<QueuedPart>
    ensures { (d : Draft) → Represents d draft.now → result ≡ next_for_of handset.now d }
{
    if !draft.queues.is_ready(handset) {
        return None;
    }
    draft.queues.next(handset, draft.now())
}

// Whether another is due beside it.
fn has_more(draft: &CentreDraft<'_>, handset: &Msisdn, queued: &QueuedPart) -> bool
    ensures { (d : Draft) → Represents d draft.now → result ≡ waits_beside d.store.moment queued.now (waiting_in handset.now d.store) }
{
    draft.queues.waits_beside(handset, draft.now(), queued)
}

// That one is offered.
fn offer_queued<B: BodyKeep>(
    draft: &mut CentreDraft<'_>,
    bodies: &mut B,
    centre: &[u8],
    handset: Msisdn,
    queued: &QueuedPart,
) -> Result<(), PlanError>
    ensures outcome { (d : Draft) (rows : B.Rows) → Represents d draft.old → CanOffer B.body_of rows centre.now d.store
        → Among queued.now (waiting_in handset d.store)
        → ReadingOutcome (λ _. Represents (offer_next handset (Some queued.now) d) draft.new) (offer_next handset (Some queued.now) d).links.read rows
        (B.state bodies.old) (B.state bodies.new) result }
    ensures before { WasHonest (B.state bodies.old) (B.state bodies.new) }
{
    let more = has_more(draft, &handset, queued);
    match tpdu(draft, bodies, queued) {
        Ok(tpdu) => send(draft, centre, handset, queued, more, tpdu),
        Err(error) => Err(error),
    }
}

/// Offers the next due part to `handset`, if its link is ready.
pub(crate) fn offer_at<B: BodyKeep>(
    draft: &mut CentreDraft<'_>,
    bodies: &mut B,
    centre: &[u8],
    handset: Msisdn,
) -> Result<(), PlanError>
    ensures outcome { (d : Draft) (rows : B.Rows) → Represents d draft.old → CanOffer B.body_of rows centre.now d.store
        → ReadingOutcome (λ _. Represents (offer_at_of handset d) draft.new)
        (offer_at_of handset d).links.read rows (B.state bodies.old) (B.state bodies.new) result }
    ensures before { WasHonest (B.state bodies.old) (B.state bodies.new) }
{
    match next_for(draft, &handset) {
        Some(queued) => offer_queued(draft, bodies, centre, handset, &queued),
        None => Ok(()),
    }
}
