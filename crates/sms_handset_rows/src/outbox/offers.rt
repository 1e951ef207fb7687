//! What is sent next of the outbox, and as what octets.
ghost use Rattle.std.specs.Prelude.{◌≡◌, ◌+◌, ◌<◌, ◌≤◌, min, length, IfOk, option_copied};
ghost use Rattle.sms_base.specs.Address.{IsAddress};
ghost use Rattle.sms_relay.specs.RelayGrammar.{data_up, smma_up};
ghost use Rattle.sms_tpdu.specs.AddressGrammar.{relay_address};
ghost use Rattle.sms_handset_rows.specs.outbox.Offers.{first_due as first_due_of, first_fired as first_fired_of, is_due as is_due_of, is_fired as is_fired_of};
ghost use Rattle.sms_handset_rows.specs.outbox.Offers.{rejecting_duplicates as rejecting_duplicates_of, submit_of as submit_octets};

use crate::outbox::notice::Notice;
use crate::outbox::out_entry::{EntryState, OutEntry};
use crate::outbox::out_view::OutView;
use sms_base::{Address, Moment, OctetView, Octets};
use sms_relay::{Rp, write_up};
use sms_tpdu::write_relay_address;
use std::alloc::{AllocError, Global};

// Whether a moment that was waited for is there; none is there at once.
fn is_due(moment: Moment, entry: &OutEntry) -> bool
    ensures { result ≡ is_due_of moment entry.now }
{
    if entry.state != EntryState::Queued {
        return false;
    }
    match entry.due {
        Some(due) => due <= moment,
        None => true,
    }
}

// Whether TRAM has fired.
fn is_fired(moment: Moment, due: Option<Moment>) -> bool
    ensures { result ≡ is_fired_of moment due }
{
    match due {
        Some(due) => due <= moment,
        None => false,
    }
}

/// The oldest RP-SMMA whose TRAM has fired.
pub fn first_fired(moment: Moment, notices: &[Notice]) -> Option<Notice>
    ensures { result ≡ first_fired_of moment notices.now }
{
    for notice in notices {
        if is_fired(moment, notice.due) {
            return Some(*notice);
        }
    }
    None
}

/// The oldest entry that is due.
pub fn first_due<'a>(moment: Moment, outbox: &'a [OutView<'a>]) -> Option<&'a OutEntry>
    ensures { option_copied result ≡ first_due_of moment outbox.now }
{
    for view in outbox {
        let entry = view.entry();
        if is_due(moment, entry) {
            return Some(entry);
        }
    }
    None
}

// The SUBMIT as it is sent now: TP-RD is bit 2 of its first octet.
fn submit_of(alloc: Global, entry: &OutEntry) -> Result<Octets, AllocError>
    ensures value { IfOk result (λ tpdu. tpdu ≡ submit_octets entry.now) }
    ensures few { IfOk result (λ tpdu. length tpdu ≤ 200) }
{
    let tpdu = entry.tpdu.as_slice();
    if !entry.rejects_duplicates {
        return Octets::copy_of(alloc, tpdu);
    }
    rejecting_duplicates(alloc, tpdu)
}

fn rejecting_duplicates(alloc: Global, tpdu: &[u8]) -> Result<Octets, AllocError>
    ensures { IfOk result (λ sent. sent ≡ rejecting_duplicates_of tpdu.now) }
{
    let mut sent = Octets::with_capacity(alloc, tpdu.len())?;
    if let [first, rest @ ..] = tpdu {
        sent.push(first / 8 * 8 + 4 + first % 4)?;
        sent.append(rest)?;
    }
    Ok(sent)
}

/// The RP-DATA with the SUBMIT of an entry, 1 to 248 octets.
#[tactic(auto, using(sms_tpdu::proofs::RelayAddresses::relay_some))]
pub fn data_unit(alloc: Global, centre: &Address, entry: &OutEntry) -> Result<Octets, AllocError>
    requires { IsAddress centre.now }
    ensures value { IfOk result (λ unit. unit ≡ data_up entry.now.reference (relay_address centre.now) (submit_octets entry.now)) }
    ensures some { IfOk result (λ unit. 0 < length unit) }
    ensures few { IfOk result (λ unit. length unit ≤ 248) }
{
    let centre = write_relay_address(alloc, centre)?;
    let tpdu = submit_of(alloc, entry)?;
    let unit = write_up(
        alloc,
        &Rp::DataUnit {
            reference: entry.reference,
            centre: OctetView::of(centre.as_slice()),
            unit: OctetView::of(tpdu.as_slice()),
        },
    )?;
    Ok(unit)
}

/// An RP-SMMA (3GPP TS 24.011 7.3.2), 2 octets.
pub fn smma(alloc: Global, reference: u8) -> Result<Octets, AllocError>
    ensures { IfOk result (λ unit. unit ≡ smma_up reference) }
{
    let unit = write_up(alloc, &Rp::Smma { reference })?;
    Ok(unit)
}

/// The entry as it is under way.
pub fn sent_once_more(entry: OutEntry) -> OutEntry
    ensures { result ≡ record entry { state = EntryState.Sending; tries = min (entry.tries + 1) 255; due = None } }
{
    let mut entry = entry;
    entry.state = EntryState::Sending;
    entry.tries = entry.tries.saturating_add(1);
    entry.due = None;
    entry
}
