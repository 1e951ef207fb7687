//! The TPDU of what waits.
ghost use Rattle.std.specs.Prelude.{◌≡◌, ◌∷◌, ℕ, List, None, Some, [], option_copied};
ghost use Rattle.sms_base.specs.Among.{Among};
ghost use Rattle.sms_rows.specs.keep.StoreOutcome.{WasHonest};
ghost use Rattle.sms_centre_spec.specs.Draft.{Draft, waiting_in};
ghost use Rattle.sms_centre_spec.specs.Offering.{read_of, tpdu_of};
ghost use Rattle.sms_centre_events.specs.offering.Refusing.{ReadingOutcome, UnlessMemory};
ghost use Rattle.sms_centre_events.specs.offering.Stored.{CanOffer, made_tpdu};
ghost use Rattle.sms_centre_draft.specs.CentreDraft.{Represents};

use sms_base::Octets;
use sms_centre_draft::CentreDraft;
use sms_centre_rows::waiting::QueuedPart;
use sms_centre_spec::PlanError;
use sms_rows::keep::BodyKeep;
use sms_rows::table::{Key, Row};

// The body of that key, which the store has.
fn read<B: BodyKeep>(bodies: &mut B, key: Key) -> Result<Octets, PlanError>
    ensures outcome { (rows : B.Rows) (tpdu : List ℕ) → B.body_of rows key ≡ Some tpdu
        → ReadingOutcome (λ octets. octets ≡ tpdu) (key ∷ []) rows (B.state bodies.old) (B.state bodies.new) result }
    ensures before { WasHonest (B.state bodies.old) (B.state bodies.new) }
{
    match bodies.body(key) {
        Ok(Some(octets)) => Ok(octets),
        Ok(None) => Err(PlanError::NoBody),
        Err(_) => Err(PlanError::NoBody),
    }
}

// The TPDU of what waits, if the event made it.
fn made<'w>(draft: &'w CentreDraft<'_>, queued: &QueuedPart) -> Option<&'w [u8]>
    ensures { (d : Draft) (handset : List ℕ) → Represents d draft.now → Among queued.now (waiting_in handset d.store)
        → option_copied result ≡ made_tpdu queued.now d.store }
{
    if queued.number == 0 {
        return draft.reports.tpdu_made(queued.id);
    }
    draft.messages.tpdu_put(queued.id, queued.number)
}

/// The TPDU of what waits for a handset: the event made it, or it is read.
pub(crate) fn tpdu<B: BodyKeep>(
    draft: &CentreDraft<'_>,
    bodies: &mut B,
    queued: &QueuedPart,
) -> Result<Octets, PlanError>
    ensures outcome { (d : Draft) (rows : B.Rows) (centre handset : List ℕ) → Represents d draft.now
        → Among queued.now (waiting_in handset d.store) → CanOffer B.body_of rows centre d.store
        → ReadingOutcome (λ octets. octets ≡ tpdu_of queued.now d.store) (read_of queued.now d.store d.links).read rows
        (B.state bodies.old) (B.state bodies.new) result }
    ensures before { WasHonest (B.state bodies.old) (B.state bodies.new) }
{
    match made(draft, queued) {
        Some(octets) => copied(draft, octets),
        None => read(bodies, queued.key()),
    }
}

// Octets in memory of their own.
fn copied(draft: &CentreDraft<'_>, octets: &[u8]) -> Result<Octets, PlanError>
    ensures { UnlessMemory (λ copy. copy ≡ octets.now) result }
{
    match Octets::copy_of(draft.alloc(), octets) {
        Ok(octets) => Ok(octets),
        Err(_) => Err(PlanError::NoMemory),
    }
}
