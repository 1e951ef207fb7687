//! Whether rows of the outbox are sound.
ghost use Rattle.std.specs.Prelude.{◌≡◌};
ghost use Rattle.sms_tpdu.specs.TpduReading.{up_at};
ghost use Rattle.sms_tpdu.specs.declared.carrier.Carrier.TheVariants.{InData as Data};
ghost use Rattle.sms_handset_rows.specs.inbox.Groups.{is_among as is_among_of};
ghost use Rattle.sms_handset_rows.specs.inbox.InboxTest.{differ as differ_of, each_passes};
ghost use Rattle.sms_handset_rows.specs.outbox.OutboxTest.{are_tries as are_tries_of, is_out_entry as is_out_entry_of, is_submitted as is_submitted_of};
ghost use Rattle.sms_handset_rows.specs.outbox.OutboxTest.{reads_submit as reads_submit_of, was_sent as was_sent_of};
ghost use Rattle.sms_handset_rows.specs.outbox.References.{held_by_entries, held_message_references};

use crate::inbox::{Entry, is_apart, is_given, is_same_address};
use crate::outbox::out_entry::{EntryState, OutEntry};
use crate::outbox::settling::MOST_TRIES;
use sms_tpdu::{Carrier, Up, read_up};

fn reads_submit(entry: &OutEntry) -> bool
    ensures { result ≡ reads_submit_of entry.now (up_at Data entry.now.tpdu) }
{
    match read_up(entry.tpdu.as_slice(), Carrier::InData) {
        Ok(Up::Submit(submit)) => {
            is_same_address(&submit.destination_address, &entry.destination)
                && submit.message_reference == entry.message_reference
                && !submit.reject_duplicates
        }
        _ => false,
    }
}

fn is_submitted(entry: &OutEntry) -> bool
    ensures { result ≡ is_submitted_of entry.now }
{
    reads_submit(entry) && entry.tpdu.as_slice().len() <= 200
}

fn was_sent(tries: u8) -> bool
    ensures { result ≡ was_sent_of tries }
{
    0 < tries && tries <= MOST_TRIES
}

fn are_tries(state: EntryState, tries: u8) -> bool
    ensures { result ≡ are_tries_of state tries }
{
    match state {
        EntryState::Queued => tries < MOST_TRIES,
        EntryState::Sending | EntryState::Sent | EntryState::Failed | EntryState::Unsure => {
            was_sent(tries)
        }
    }
}

fn is_out_entry(next: u32, entries: &[Entry], entry: &OutEntry) -> bool
    ensures { result ≡ is_out_entry_of next entries.now entry.now }
{
    (is_given(next, entry.number) && is_apart(entry.number, entries))
        && (is_submitted(entry) && are_tries(entry.state, entry.tries))
}

/// Whether each entry has a number of its own that was given, its SUBMIT is read as such, and its tries fit its state.
pub fn are_out_entries(next: u32, entries: &[Entry], outbox: &[OutEntry]) -> bool
    ensures { result ≡ each_passes (λ o. is_out_entry_of next entries.now o) outbox.now }
{
    for entry in outbox {
        if !is_out_entry(next, entries, entry) {
            return false;
        }
    }
    true
}

fn holds_message_reference(reference: u8, outbox: &[OutEntry]) -> bool
    ensures { result ≡ is_among_of reference (held_message_references outbox.now) }
{
    for entry in outbox {
        if entry.state.is_unfinished() && entry.message_reference == reference {
            return true;
        }
    }
    false
}

/// Whether the TP-MRs of unfinished entries differ.
pub fn message_references_differ(outbox: &[OutEntry]) -> bool
    ensures { result ≡ differ_of (held_message_references outbox.now) }
{
    match outbox {
        [] => true,
        [first, rest @ ..] => {
            if first.state.is_unfinished() {
                !holds_message_reference(first.message_reference, rest)
                    && message_references_differ(rest)
            } else {
                message_references_differ(rest)
            }
        }
    }
}

fn holds_reference(reference: u8, outbox: &[OutEntry]) -> bool
    ensures { result ≡ is_among_of reference (held_by_entries outbox.now) }
{
    for entry in outbox {
        if entry.state.is_unfinished() && entry.reference == reference {
            return true;
        }
    }
    false
}

/// Whether the references of unfinished entries differ.
pub fn references_differ(outbox: &[OutEntry]) -> bool
    ensures { result ≡ differ_of (held_by_entries outbox.now) }
{
    match outbox {
        [] => true,
        [first, rest @ ..] => {
            if first.state.is_unfinished() {
                !holds_reference(first.reference, rest) && references_differ(rest)
            } else {
                references_differ(rest)
            }
        }
    }
}
