//! Whether rows of the inbox are sound.
ghost use Rattle.std.specs.Prelude.{◌≡◌};
ghost use Rattle.sms_tpdu.specs.TpduReading.{down_at};
ghost use Rattle.sms_tpdu.specs.declared.carrier.Carrier.TheVariants.{InData as Data};
ghost use Rattle.sms_handset_rows.specs.inbox.Groups.{all_numbers, first_number, is_among as is_among_of, is_part_of as is_part_of_group, members};
ghost use Rattle.sms_handset_rows.specs.inbox.Groups.{part_numbers};
ghost use Rattle.sms_handset_rows.specs.inbox.InboxTest.{are_marks as are_marks_of, differ as differ_of, each_passes, has_key as has_key_of};
ghost use Rattle.sms_handset_rows.specs.inbox.InboxTest.{is_apart as is_apart_of, is_entry as is_entry_of, is_given as is_given_of, is_last as is_last_of};
ghost use Rattle.sms_handset_rows.specs.inbox.InboxTest.{is_message as is_message_of, is_of_open_group as is_of_open_group_of};
ghost use Rattle.sms_handset_rows.specs.inbox.InboxTest.{is_open_group as is_open_group_of, reads_deliver as reads_deliver_of, reads_part as reads_part_of};

use crate::inbox::discarded_group::DiscardedGroup;
use crate::inbox::entry::{Entry, Group, Message};
use crate::inbox::groups::{find_mark, has_every, is_among, is_same_group, key_of};
use crate::inbox::last_accepted::LastAccepted;
use sms_concat::ConcatKey;
use sms_tpdu::{Carrier, Deliver, Down, read_down};

// ---- numbers

/// Whether the number was given to an entry, where `next` is given next.
pub fn is_given(next: u32, number: u32) -> bool
    ensures { result ≡ is_given_of next number }
{
    0 < number && number < next
}

// Whether no number stands twice.
fn differ(numbers: &[u8]) -> bool
    ensures { result ≡ differ_of numbers.now }
{
    match numbers {
        [] => true,
        [first, rest @ ..] => !is_among(*first, rest) && differ(rest),
    }
}

// ---- the inbox

fn reads_deliver(tpdu: &[u8]) -> bool
    ensures { result ≡ reads_deliver_of (down_at Data tpdu.now) }
{
    matches!(read_down(tpdu, Carrier::InData), Ok(Down::Deliver(_)))
}

fn has_key(group: &Group, number: u8, message: &Deliver<'_>, key: Option<ConcatKey>) -> bool
    ensures { result ≡ has_key_of group.now number message.now key }
{
    match key {
        Some(key) => {
            let carried = Group {
                source: message.originating_address,
                reference: key.reference,
                total: key.total,
            };
            is_same_group(&carried, group) && key.number == number
        }
        None => false,
    }
}

fn reads_part(group: &Group, number: u8, tpdu: &[u8]) -> bool
    ensures { result ≡ reads_part_of group.now number (down_at Data tpdu.now) }
{
    match read_down(tpdu, Carrier::InData) {
        Ok(Down::Deliver(message)) => {
            let key = key_of(
                message.user_data_header_indicator,
                message.user_data.octets.as_slice(),
            );
            has_key(group, number, &message, key)
        }
        _ => false,
    }
}

fn is_message(slots: u8, message: &Message) -> bool
    ensures { result ≡ is_message_of slots message.now }
{
    match message {
        Message::Single { tpdu } => slots == 1 && reads_deliver(tpdu.as_slice()),
        Message::Part {
            group,
            number,
            tpdu,
        } => slots == 1 && reads_part(group, *number, tpdu.as_slice()),
        Message::Joined { .. } => 1 <= slots,
    }
}

fn is_entry(next: u32, entry: &Entry) -> bool
    ensures { result ≡ is_entry_of next entry.now }
{
    is_given(next, entry.number) && is_message(entry.slots, &entry.message)
}

/// Whether each entry has a number that was given, and what it holds is read as that, in as many slots.
pub fn are_entries(next: u32, entries: &[Entry]) -> bool
    ensures { result ≡ each_passes (λ e. is_entry_of next e) entries.now }
{
    for entry in entries {
        if !is_entry(next, entry) {
            return false;
        }
    }
    true
}

// ---- open groups

fn is_part_of(group: &Group, message: &Message) -> bool
    ensures { result ≡ is_part_of_group group.now message.now }
{
    match message {
        Message::Part { group: other, .. } => is_same_group(other, group),
        _ => false,
    }
}

// Whether the part of that number is there.
fn has_part(group: &Group, number: u8, entries: &[Entry]) -> bool
    ensures { result ≡ is_among_of number (part_numbers (members group.now entries.now)) }
{
    for entry in entries {
        if is_part_of(group, &entry.message) && entry.message.part_number() == number {
            return true;
        }
    }
    false
}

// Whether no part is there twice.
fn parts_differ(group: &Group, entries: &[Entry]) -> bool
    ensures { result ≡ differ_of (part_numbers (members group.now entries.now)) }
{
    match entries {
        [] => true,
        [first, rest @ ..] => {
            if is_part_of(group, &first.message) {
                !has_part(group, first.message.part_number(), rest) && parts_differ(group, rest)
            } else {
                parts_differ(group, rest)
            }
        }
    }
}

// Whether each part is there.
#[tactic(auto, using(crate::proofs::inbox::Numbers::lacks_number))]
fn has_all_parts(group: &Group, entries: &[Entry]) -> bool
    ensures { result ≡ all_numbers group.now.total (part_numbers (members group.now entries.now)) }
{
    for below in 0..group.total {
        if !has_part(group, below + 1, entries) {
            return false;
        }
    }
    true
}

// The number of the entry of the first part.
fn first_part(group: &Group, entries: &[Entry]) -> u32
    ensures { result ≡ first_number (members group.now entries.now) }
{
    for entry in entries {
        if is_part_of(group, &entry.message) {
            return entry.number;
        }
    }
    0
}

fn is_open_group(entries: &[Entry], marks: &[DiscardedGroup], group: &Group) -> bool
    ensures { result ≡ is_open_group_of entries.now marks.now group.now }
{
    parts_differ(group, entries)
        && !has_all_parts(group, entries)
        && find_mark(group, marks).is_none()
}

fn is_of_open_group(entries: &[Entry], marks: &[DiscardedGroup], entry: &Entry) -> bool
    ensures { result ≡ is_of_open_group_of entries.now marks.now entry.now.number entry.now.message }
{
    match &entry.message {
        Message::Part { group, .. } => {
            if first_part(group, entries) == entry.number {
                is_open_group(entries, marks, group)
            } else {
                true
            }
        }
        _ => true,
    }
}

/// Whether each part is one of an open group: each number once, not all of them, and no group that is discarded.
pub fn are_of_open_groups(entries: &[Entry], marks: &[DiscardedGroup]) -> bool
    ensures { result ≡ each_passes (λ e. is_of_open_group_of entries.now marks.now e.number e.message) entries.now }
{
    for entry in entries {
        if !is_of_open_group(entries, marks, entry) {
            return false;
        }
    }
    true
}

// ---- what was accepted last

fn is_last(last: &LastAccepted) -> bool
    ensures { result ≡ is_last_of last.now }
{
    matches!(
        read_down(last.tpdu.as_slice(), Carrier::InData),
        Ok(Down::Deliver(_)) | Ok(Down::StatusReport(_))
    )
}

/// Whether each is a DELIVER or a STATUS-REPORT.
pub fn are_last(rows: &[LastAccepted]) -> bool
    ensures { result ≡ each_passes (λ l. is_last_of l) rows.now }
{
    for last in rows {
        if !is_last(last) {
            return false;
        }
    }
    true
}

/// Whether no entry of the inbox has the number.
pub fn is_apart(number: u32, entries: &[Entry]) -> bool
    ensures { result ≡ is_apart_of number entries.now }
{
    for entry in entries {
        if entry.number == number {
            return false;
        }
    }
    true
}

// ---- discarded groups

/// Whether each discarded group has a number of its own that was given, and its parts that arrived differ and are not
/// all.
pub fn are_marks(next: u32, entries: &[Entry], marks: &[DiscardedGroup]) -> bool
    ensures { result ≡ are_marks_of next entries.now marks.now }
{
    match marks {
        [] => true,
        [first, rest @ ..] => {
            ((is_given(next, first.number) && is_apart(first.number, entries))
                && (differ(first.seen.as_slice())
                    && (!has_every(first.group.total, first.seen.as_slice())
                        && find_mark(&first.group, rest).is_none())))
                && are_marks(next, entries, rest)
        }
    }
}
