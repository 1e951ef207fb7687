//! Whether rows of messages, parts and priorities are sound.
ghost use Rattle.std.specs.Prelude.{◌≡◌, Some, nat_lt, true};
ghost use Rattle.sms_centre_rows.specs.messages.SplitReferences.{is_same_address as is_same_address_of};
ghost use Rattle.sms_tpdu.specs.TpduReading.{down_at};
ghost use Rattle.sms_tpdu.specs.declared.carrier.Carrier.TheVariants.{InData as Data};
ghost use Rattle.sms_centre_rows.specs.conditions.MessageTest.{carries as carries_of, ends_so as ends_so_of, has_rows as has_rows_of};
ghost use Rattle.sms_centre_rows.specs.conditions.MessageTest.{is_deliver_of as is_deliver_of_message, is_done as is_done_of, is_handset as is_handset_of};
ghost use Rattle.sms_centre_rows.specs.conditions.MessageTest.{is_id as is_id_of, is_message as is_message_of, is_part as is_part_of};
ghost use Rattle.sms_centre_rows.specs.conditions.MessageTest.{is_priority as is_priority_of, delivery_agrees as delivery_agrees_of, parts_with};
ghost use Rattle.std.specs.List.{list_all};

use crate::conditions::addresses::is_address;
use crate::messages::{MessageRow, PartRow, PriorityRow, is_delivered};
use sms_base::{Address, Digits, FinalState, MessageId, Moment, Msisdn};
use sms_rows::table::{Key, Table};
use sms_tpdu::{Carrier, Down, read_down};

// ---- numbers

fn is_id(id: MessageId) -> bool
    ensures { result ≡ is_id_of id }
{
    let number = id.number();
    0 < number && number <= 9_999_999_999
}

/// Whether the digits can be written as the address of a handset.
pub fn is_handset(digits: &Digits) -> bool
    ensures { result ≡ is_handset_of digits.now }
{
    is_address(&Address::of_handset(*digits))
}

// The number of a handset is one.
pub(crate) fn passes(number: &Msisdn)
    ensures { is_handset_of number.now ≡ true }
{
    number.spells_a_number();
}

// ---- messages

fn ends_so(state: Option<FinalState>, done: Option<Moment>) -> bool
    ensures { result ≡ ends_so_of state done }
{
    match state {
        Some(_) => done.is_some(),
        None => done.is_none(),
    }
}

fn are_done(parts: &[PartRow]) -> bool
    ensures { result ≡ list_all is_done_of parts.now }
{
    parts.iter().all(|part| part.progress.is_done)
}

/// Where the rows of a message are looked for: beside those of the one before it.
#[derive(Clone, Copy)]
struct Places {
    part: usize,
    priority: usize,
}

fn delivery_agrees(parts: &Table<PartRow>, places: &mut Places, message: &MessageRow) -> bool
    ensures { result ≡ delivery_agrees_of parts.now.rows message.now }
{
    let id = message.id.number();
    let own = parts.rows_beside(&mut places.part, Key::pair(id, 0), Key::pair(id + 1, 0));
    is_delivered(message.state) == are_done(own)
}

fn has_rows(
    parts: &Table<PartRow>,
    priorities: &Table<PriorityRow>,
    places: &mut Places,
    id: MessageId,
) -> bool
    ensures { result ≡ has_rows_of parts.now.rows priorities.now.rows id }
{
    let part = parts.find_beside(&mut places.part, Key::pair(id.number(), 1));
    let priority = priorities.find_beside(&mut places.priority, Key::of(id.number()));
    part.is_some() && priority.is_some()
}

fn is_message(
    parts: &Table<PartRow>,
    priorities: &Table<PriorityRow>,
    places: &mut Places,
    message: &MessageRow,
) -> bool
    ensures { result ≡ is_message_of parts.now.rows priorities.now.rows message.now }
{
    passes(&message.handset);
    let is_written = is_id(message.id)
        && is_address(&message.source)
        && ends_so(message.state, message.done);
    let agrees = delivery_agrees(parts, places, message);
    let has_rows = has_rows(parts, priorities, places, message.id);
    is_written && (agrees && has_rows)
}

/// Whether each message has a number, addresses that can be written, its first part and its priority. It has the moment
/// of its end exactly where it ended. It is delivered exactly where all its parts are done.
pub fn are_messages(
    messages: &[MessageRow],
    parts: &Table<PartRow>,
    priorities: &Table<PriorityRow>,
) -> bool
    ensures { result ≡ list_all (λ m. is_message_of parts.now.rows priorities.now.rows m) messages.now }
{
    let mut places = Places {
        part: 0,
        priority: 0,
    };
    for message in messages {
        if !is_message(parts, priorities, &mut places, message) {
            return false;
        }
    }
    true
}

// ---- parts

/// Whether two addresses are the same.
pub fn is_same_address(one: &Address, other: &Address) -> bool
    ensures { result ≡ is_same_address_of one.now other.now }
{
    one.ton.number() == other.ton.number()
        && (one.npi == other.npi && one.digits.as_slice() == other.digits.as_slice())
}

fn is_deliver_of(message: &MessageRow, tpdu: &[u8]) -> bool
    ensures { result ≡ is_deliver_of_message message.now (down_at Data tpdu.now) }
{
    match read_down(tpdu, Carrier::InData) {
        Ok(Down::Deliver(deliver)) => {
            is_same_address(&deliver.originating_address, &message.source)
                && (deliver.data_coding_scheme == message.data_coding_scheme
                    && (deliver.protocol_identifier == message.protocol_identifier
                        && deliver.no_more_messages_to_send))
        }
        _ => false,
    }
}

fn carries(part: &PartRow, message: &MessageRow) -> bool
    ensures { result ≡ carries_of part.now (Some message.now) }
{
    part.tpdu.as_slice().len() <= 200 && is_deliver_of(message, part.tpdu.as_slice())
}

// A number of eight bits is below 256, as the definition has it of a number.
pub(crate) fn is_octet(number: u8) -> bool
    ensures { result ≡ nat_lt number 256 }
{
    u16::from(number) < 256
}

fn is_part(messages: &Table<MessageRow>, place: &mut usize, part: &PartRow) -> bool
    ensures { result ≡ is_part_of messages.now.rows part.now }
{
    match messages.find_beside(place, Key::of(part.id.number())) {
        Some(message) => {
            carries(part, message)
                && ((0 < part.number && part.number <= 20) && is_octet(part.reference))
        }
        None => false,
    }
}

/// Whether each part has a number from 1 to 20 and carries a DELIVER of its message, of 200 octets at most.
pub fn are_parts(parts: &[PartRow], messages: &Table<MessageRow>) -> bool
    ensures { result ≡ list_all (λ p. is_part_of messages.now.rows p) parts.now }
{
    let mut place = 0;
    for part in parts {
        if !is_part(messages, &mut place, part) {
            return false;
        }
    }
    true
}

// ---- priorities

fn is_priority(messages: &Table<MessageRow>, place: &mut usize, priority: &PriorityRow) -> bool
    ensures { result ≡ is_priority_of messages.now.rows priority.now }
{
    let message = messages.find_beside(place, Key::of(priority.id.number()));
    priority.priority <= 3 && message.is_some()
}

/// Whether each priority is at most 3 and that of a message.
pub fn are_priorities(priorities: &[PriorityRow], messages: &Table<MessageRow>) -> bool
    ensures { result ≡ list_all (λ p. is_priority_of messages.now.rows p) priorities.now }
{
    let mut place = 0;
    for priority in priorities {
        if !is_priority(messages, &mut place, priority) {
            return false;
        }
    }
    true
}
