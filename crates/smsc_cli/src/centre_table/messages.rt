//! The lines of messages.
ghost use Rattle.std.specs.Prelude.{◌≡◌, ◌++◌, ◌%◌, OnOk, codes, unwrap_or};
ghost use Rattle.sms_base.specs.MessageId.{id_text};
ghost use Rattle.sms_base.specs.SmppTime.{two_digits};
ghost use Rattle.smsc_cli.specs.columns.Columns.{cell, lines};
ghost use Rattle.smsc_cli.specs.centre_table.CentreTable.{due_word, message_line, moments, own_parts, parties, state_word as word_of, time_of, tries};

use crate::centre_table::parts::{attempts_in, due_in};
use crate::columns::{put_cell, put_name, put_number};
use sms_base::{FinalState, MessageId, Moment, Octets};
use sms_centre_rows::messages::{MessageRow, PartRow};
use sms_rows::table::{Key, Table};
use std::alloc::AllocError;

/// The word of a state, at most seven letters.
pub(crate) fn state_word(state: Option<FinalState>) -> &'static str
    ensures { result.now ≡ word_of state }
{
    match state {
        None => "ENROUTE",
        Some(FinalState::Delivered) => "DELIVRD",
        Some(FinalState::Expired) => "EXPIRED",
        Some(FinalState::Deleted) => "DELETED",
        Some(FinalState::Undeliverable) => "UNDELIV",
    }
}

fn put_id(out: &mut Octets, id: MessageId) -> Result<(), AllocError>
    ensures { OnOk result (out.new ≡ out.old ++ cell 11 (id_text id)) }
{
    // It is one to ten digits long.
    let _range = id.number();
    put_cell(out, 11, &id.digits())
}

#[tactic(auto, unfolding(crate::specs::centre_table::CentreTable::parties))]
fn put_parties(out: &mut Octets, message: &MessageRow) -> Result<(), AllocError>
    ensures { OnOk result (out.new ≡ out.old ++ parties message.now) }
{
    put_id(out, message.id)?;
    put_name(out, 22, message.source.digits.as_slice())?;
    let handset = message.handset.digits();
    put_name(out, 22, handset.as_slice())?;
    put_cell(out, 8, state_word(message.state).as_bytes())
}

// The seconds of the minute, in two digits.
fn second_digits(moment: Moment) -> [u8; 2]
    ensures { result ≡ two_digits (moment % 60) }
{
    let second = (moment.seconds() % 60) as u8;
    [b'0' + second / 10, b'0' + second % 10]
}

fn put_time(out: &mut Octets, moment: Moment) -> Result<(), AllocError>
    ensures { OnOk result (out.new ≡ out.old ++ time_of moment) }
{
    out.append(&moment.date_digits())?;
    out.append(&second_digits(moment))
}

/// A moment at UTC, YYMMDDhhmmss, and a space.
pub(crate) fn put_moment(out: &mut Octets, moment: Moment) -> Result<(), AllocError>
    ensures { OnOk result (out.new ≡ out.old ++ (time_of moment ++ codes " ")) }
{
    put_time(out, moment)?;
    out.append(b" ")
}

#[tactic(auto, unfolding(crate::specs::centre_table::CentreTable::moments))]
fn put_moments(out: &mut Octets, message: &MessageRow) -> Result<(), AllocError>
    ensures { OnOk result (out.new ≡ out.old ++ moments message.now) }
{
    put_moment(out, message.submitted)?;
    put_moment(out, message.done.unwrap_or(message.submitted))
}

/// When a message is tried next, or that it is not.
pub(crate) fn put_due(
    out: &mut Octets,
    state: Option<FinalState>,
    due: Option<Moment>,
) -> Result<(), AllocError>
    ensures { OnOk result (out.new ≡ out.old ++ due_word state due) }
{
    match (state, due) {
        (None, Some(due)) => put_time(out, due),
        (None, None) | (Some(_), _) => out.append(b"-"),
    }
}

#[tactic(auto, unfolding(crate::specs::centre_table::CentreTable::tries))]
fn put_tries(out: &mut Octets, state: Option<FinalState>, own: &[PartRow]) -> Result<(), AllocError>
    ensures { OnOk result (out.new ≡ out.old ++ tries state own.now) }
{
    put_number(out, 9, u64::from(attempts_in(own)))?;
    put_due(out, state, due_in(own))?;
    out.append(b"\n")
}

/// The parts of the message of this number.
pub fn own_parts(parts: &Table<PartRow>, id: MessageId) -> &[PartRow]
    ensures { result.now ≡ own_parts id parts.now.rows }
{
    let id = id.number();
    parts.rows_between(Key::pair(id, 0), Key::pair(id + 1, 0))
}

fn put_message(
    out: &mut Octets,
    parts: &Table<PartRow>,
    message: &MessageRow,
) -> Result<(), AllocError>
    ensures { OnOk result (out.new ≡ out.old ++ message_line parts.now.rows message.now) }
{
    put_parties(out, message)?;
    put_moments(out, message)?;
    put_tries(out, message.state, own_parts(parts, message.id))
}

/// A line for each message.
pub(crate) fn put_messages(
    out: &mut Octets,
    parts: &Table<PartRow>,
    messages: &[MessageRow],
) -> Result<(), AllocError>
    ensures { OnOk result (out.new ≡ out.old ++ lines (message_line parts.now.rows) messages.now) }
{
    for message in messages {
        put_message(out, parts, message)?;
    }
    Ok(())
}
