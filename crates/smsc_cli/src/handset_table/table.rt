//! The table.
ghost use Rattle.std.specs.Prelude.{◌≡◌, ◌++◌, codes, decimal, IfOk, OnOk};
ghost use Rattle.sms_tpdu.specs.TpduReading.{down_at};
ghost use Rattle.sms_tpdu.specs.declared.carrier.Carrier.TheVariants.{InData};
ghost use Rattle.smsc_cli.specs.columns.Columns.{lines};
ghost use Rattle.smsc_cli.specs.handset_table.HandsetTable.{entry_line, handset_table, head_line, message_state, message_text, number_cell, originator};
ghost use Rattle.smsc_cli.specs.handset_table.HandsetTable.{out_line, party_cell, source_of, state_cell, state_word};

use crate::columns::{put_cell, put_name, put_number};
use crate::handset_table::content::{put_content, put_delivered, put_submitted};
use sms_base::{Octets, put_decimal};
use sms_handset_rows::inbox::{Entry, Message};
use sms_handset_rows::outbox::{EntryState, OutEntry};
use sms_tpdu::{Carrier, Down, read_down};
use std::alloc::{AllocError, Global};

// A column is as wide as the longest that stands in it, and a space: a number of 32 bits, an address, `PART 255/255`.
const NUMBER: usize = 11;

const PARTY: usize = 22;

const STATE: usize = 13;

fn put_head(out: &mut Octets, party: &[u8]) -> Result<(), AllocError>
    ensures { OnOk result (out.new ≡ out.old ++ head_line party.now) }
{
    put_cell(out, NUMBER, b"ENTRY")?;
    put_cell(out, PARTY, party)?;
    put_cell(out, STATE, b"STATE")?;
    out.append(b"TEXT\n")
}

fn put_originator(out: &mut Octets, tpdu: &[u8]) -> Result<(), AllocError>
    ensures { OnOk result (out.new ≡ out.old ++ party_cell (originator (down_at InData tpdu.now))) }
{
    match read_down(tpdu, Carrier::InData) {
        Ok(Down::Deliver(message)) => {
            put_name(out, PARTY, message.originating_address.digits.as_slice())
        }
        Ok(Down::StatusReport(_) | Down::SubmitReport(_)) | Err(_) => put_name(out, PARTY, &['-']),
    }
}

fn put_source(out: &mut Octets, message: &Message) -> Result<(), AllocError>
    ensures { OnOk result (out.new ≡ out.old ++ party_cell (source_of message.now)) }
{
    match message {
        Message::Single { tpdu } => put_originator(out, tpdu.as_slice()),
        Message::Part { group, .. } => put_name(out, PARTY, group.source.digits.as_slice()),
        Message::Joined { source, .. } => put_name(out, PARTY, source.digits.as_slice()),
    }
}

// Which part it is, of how many.
fn part_state(alloc: Global, number: u8, total: u8) -> Result<Octets, AllocError>
    ensures { IfOk result (λ text. text ≡ codes "PART " ++ (decimal number ++ (codes "/" ++ decimal total))) }
{
    let mut text = Octets::new(alloc);
    text.append(b"PART ")?;
    put_decimal(&mut text, u64::from(number))?;
    text.append(b"/")?;
    put_decimal(&mut text, u64::from(total))?;
    Ok(text)
}

fn put_part_state(alloc: Global, out: &mut Octets, number: u8, total: u8) -> Result<(), AllocError>
    ensures { OnOk result (out.new ≡ out.old ++ state_cell (codes "PART " ++ (decimal number ++ (codes "/" ++ decimal total)))) }
{
    let text = part_state(alloc, number, total)?;
    put_cell(out, STATE, text.as_slice())
}

fn put_state(alloc: Global, out: &mut Octets, message: &Message) -> Result<(), AllocError>
    ensures { OnOk result (out.new ≡ out.old ++ state_cell (message_state message.now)) }
{
    match message {
        Message::Single { .. } => put_cell(out, STATE, b"RECEIVED"),
        Message::Part { group, number, .. } => put_part_state(alloc, out, *number, group.total),
        Message::Joined { .. } => put_cell(out, STATE, b"JOINED"),
    }
}

fn put_message(alloc: Global, out: &mut Octets, message: &Message) -> Result<(), AllocError>
    ensures { OnOk result (out.new ≡ out.old ++ message_text message.now) }
{
    match message {
        Message::Single { tpdu } | Message::Part { tpdu, .. } => {
            put_delivered(alloc, out, tpdu.as_slice())
        }
        Message::Joined { content, .. } => put_content(alloc, out, content),
    }
}

fn put_entry(alloc: Global, out: &mut Octets, entry: &Entry) -> Result<(), AllocError>
    ensures { OnOk result (out.new ≡ out.old ++ entry_line entry.now) }
{
    put_number(out, NUMBER, u64::from(entry.number))?;
    put_source(out, &entry.message)?;
    put_state(alloc, out, &entry.message)?;
    put_message(alloc, out, &entry.message)?;
    out.append(b"\n")
}

fn put_entries(alloc: Global, out: &mut Octets, entries: &[Entry]) -> Result<(), AllocError>
    ensures { OnOk result (out.new ≡ out.old ++ lines entry_line entries.now) }
{
    for entry in entries {
        put_entry(alloc, out, entry)?;
    }
    Ok(())
}

fn state_word(state: EntryState) -> &'static str
    ensures { result.now ≡ state_word state }
{
    match state {
        EntryState::Queued => "QUEUED",
        EntryState::Sending => "SENDING",
        EntryState::Sent => "SENT",
        EntryState::Failed => "FAILED",
        EntryState::Unsure => "UNSURE",
    }
}

fn put_out_entry(alloc: Global, out: &mut Octets, entry: &OutEntry) -> Result<(), AllocError>
    ensures { OnOk result (out.new ≡ out.old ++ out_line entry.now) }
{
    put_number(out, NUMBER, u64::from(entry.number))?;
    put_name(out, PARTY, entry.destination.digits.as_slice())?;
    put_cell(out, STATE, state_word(entry.state).as_bytes())?;
    put_submitted(alloc, out, entry.tpdu.as_slice())?;
    out.append(b"\n")
}

fn put_out_entries(alloc: Global, out: &mut Octets, entries: &[OutEntry]) -> Result<(), AllocError>
    ensures { OnOk result (out.new ≡ out.old ++ lines out_line entries.now) }
{
    for entry in entries {
        put_out_entry(alloc, out, entry)?;
    }
    Ok(())
}

fn put_table(
    alloc: Global,
    out: &mut Octets,
    inbox: &[Entry],
    outbox: &[OutEntry],
) -> Result<(), AllocError>
    ensures { OnOk result (out.new ≡ out.old ++ (head_line (codes "FROM") ++
        (lines entry_line inbox.now ++ (head_line (codes "TO") ++ lines out_line outbox.now)))) }
{
    put_head(out, b"FROM")?;
    put_entries(alloc, out, inbox)?;
    put_head(out, b"TO")?;
    put_out_entries(alloc, out, outbox)
}

/// The table of an inbox and an outbox. Each is under a line that names its columns, with a line for each entry in the
/// given order.
///
/// A line has the entry's number, the digits or the name of its originator or destination, its state, and its text.
/// Where that is no text, it is how many octets it has; where it is unreadable, `(no text)`.
#[tactic(auto, unfolding(crate::specs::handset_table::HandsetTable::handset_table))]
pub fn handset_table(
    alloc: Global,
    inbox: &[Entry],
    outbox: &[OutEntry],
) -> Result<Octets, AllocError>
    ensures { IfOk result (λ text. text ≡ handset_table inbox.now outbox.now) }
{
    let mut out = Octets::new(alloc);
    put_table(alloc, &mut out, inbox, outbox)?;
    Ok(out)
}
