//! The unit in which a TPDU is offered, and the transaction that carries it.
ghost use Rattle.std.specs.Prelude.{◌≡◌, ◌<◌, ◌≤◌, ◌↔◌, length, true, IfOk, OnOk};
ghost use Rattle.sms_relay.specs.RelayGrammar.{IsCentre, IsTpdu, data_down};
ghost use Rattle.sms_tpdu.specs.MoreMessages.{with_more_messages};
ghost use Rattle.sms_centre_spec.specs.Draft.{Draft};
ghost use Rattle.sms_centre_spec.specs.Offering.{holder_of as holder_of_queued};
ghost use Rattle.sms_centre_events.specs.offering.Refusing.{UnlessMemory};
ghost use Rattle.sms_centre_events.specs.offering.Offered.{offer_in};
ghost use Rattle.sms_centre_draft.specs.CentreDraft.{Represents};

use sms_base::{Holder, Msisdn, OctetView, Octets};
use sms_centre_draft::CentreDraft;
use sms_centre_rows::waiting::QueuedPart;
use sms_centre_spec::PlanError;
use sms_relay::{Rp, write_down};
use sms_tpdu::set_more_messages;
use std::alloc::{AllocError, Global};

// The bit of TP-MMS says whether more waits.
fn with_bit(tpdu: Octets, more: bool) -> Octets
    ensures { result ≡ with_more_messages more tpdu }
{
    let mut octets = tpdu.into_vec();
    set_more_messages(octets.as_mut_slice(), more);
    Octets::from_vec(octets)
}

// RP-DATA.
fn data_unit(alloc: Global, reference: u8, centre: &[u8], tpdu: &[u8]) -> Result<Octets, AllocError>
    requires centre { IsCentre centre.now }
    requires tpdu { IsTpdu tpdu.now }
    ensures { IfOk result (λ unit. unit ≡ data_down reference centre.now tpdu.now) }
{
    write_down(
        alloc,
        &Rp::DataUnit {
            reference,
            centre: OctetView::of(centre),
            unit: OctetView::of(tpdu),
        },
    )
}

// Whether a TPDU fits RP-DATA from that centre, which takes 248 octets at most.
fn fits(centre: &[u8], tpdu: &[u8]) -> bool
    ensures { (result ≡ true) ↔ ((2 ≤ length centre.now) × ((length centre.now ≤ 11) × (length tpdu.now ≤ 232))) }
{
    centre.len() >= 2 && centre.len() <= 11 && tpdu.len() <= 232
}

// The unit that carries the TPDU, if it fits.
fn unit(
    alloc: Global,
    reference: u8,
    centre: &[u8],
    tpdu: Octets,
    more: bool,
) -> Result<Octets, PlanError>
    ensures is { 2 ≤ length centre.now → length centre.now ≤ 11 → length tpdu ≤ 200
        → UnlessMemory (λ unit. unit ≡ data_down reference centre.now (with_more_messages more tpdu)) result }
    ensures fits { IfOk result (λ unit. (0 < length unit) × (length unit ≤ 248)) }
{
    let octets = with_bit(tpdu, more);
    if !fits(centre, octets.as_slice()) {
        return Err(PlanError::NoBody);
    }
    match data_unit(alloc, reference, centre, octets.as_slice()) {
        Ok(unit) => Ok(unit),
        Err(_) => Err(PlanError::NoMemory),
    }
}

// Number 0 is a status report.
fn holder_of(queued: &QueuedPart) -> Holder
    ensures { result ≡ holder_of_queued queued.now }
{
    match queued.number {
        0 => Holder::Report(queued.id),
        number => Holder::Part(queued.id, number),
    }
}

// A transaction to the handset begins with the unit.
fn begun(
    draft: &mut CentreDraft<'_>,
    handset: Msisdn,
    queued: &QueuedPart,
    unit: &[u8],
) -> Result<(), AllocError>
    requires some { 0 < length unit.now }
    requires fits { length unit.now ≤ 248 }
    ensures { (d : Draft) → Represents d draft.old → OnOk result (Represents (offer_in handset unit.now queued.now d) draft.new) }
{
    let now = draft.now();
    let holder = holder_of(queued);
    draft
        .queues
        .begin(handset, now, queued.reference, holder, unit)?;
    Ok(())
}

fn begin(
    draft: &mut CentreDraft<'_>,
    handset: Msisdn,
    queued: &QueuedPart,
    unit: &[u8],
) -> Result<(), PlanError>
    requires some { 0 < length unit.now }
    requires fits { length unit.now ≤ 248 }
    ensures { (d : Draft) → Represents d draft.old → UnlessMemory (λ _. Represents (offer_in handset unit.now queued.now d) draft.new) result }
{
    match begun(draft, handset, queued, unit) {
        Ok(()) => Ok(()),
        Err(_) => Err(PlanError::NoMemory),
    }
}

/// Offers what waits to the handset: its TPDU is sent in a transaction of its own, and says whether more waits.
pub(crate) fn send(
    draft: &mut CentreDraft<'_>,
    centre: &[u8],
    handset: Msisdn,
    queued: &QueuedPart,
    more: bool,
    tpdu: Octets,
) -> Result<(), PlanError>
    ensures { (d : Draft) → Represents d draft.old → 2 ≤ length centre.now → length centre.now ≤ 11 → length tpdu ≤ 200
        → UnlessMemory (λ _. Represents (offer_in handset (data_down queued.now.reference centre.now (with_more_messages more tpdu))
        queued.now d) draft.new) result }
{
    match unit(draft.alloc(), queued.reference, centre, tpdu, more) {
        Ok(unit) => begin(draft, handset, queued, unit.as_slice()),
        Err(error) => Err(error),
    }
}
