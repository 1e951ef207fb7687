//! Why a query_sm or a cancel_sm is refused (SMPP v3.4 4.8, 4.9). It takes no memory to tell.
ghost use Rattle.std.specs.Prelude.{◌≡◌, Option, Some, None as NoneOf, if◌then◌else◌, is_none};
ghost use Rattle.std.specs.Option.{option_map};
ghost use Rattle.smpp_pdu.specs.declared.status.CommandStatus.TheVariants.{ESME_RCANCELFAIL};
ghost use Rattle.sms_centre_messages.specs.message_index.MessageIndex.{Represents};
ghost use Rattle.sms_centre_messages.specs.message_index.Summaries.{summary_of};
ghost use Rattle.sms_centre_rows.specs.messages.Messages.{message_at};
ghost use Rattle.sms_centre_rows.specs.declared.messages.message.MessageRow.{MessageRow as MessageRowOf};
ghost use Rattle.sms_intake.specs.SmppIntake.{source_in as source_in_of};
ghost use Rattle.sms_centre_spec.specs.Draft.{Draft, messages_in, parts_in};
ghost use Rattle.sms_centre_spec.specs.Numbers.{id_in};
ghost use Rattle.sms_centre_spec.specs.Requests.{cancel_by, cancelled, is_destination as is_destination_of, is_source as is_source_of, message_numbered};
ghost use Rattle.sms_centre_spec.specs.Requests.{only_to as only_to_of, own_message as own_message_of, query_by, status_in};

use crate::accounts::is_source;
use crate::finding::id_of;
use crate::sources::is_destination;
use smpp_pdu::{CancelSm, CommandStatus, QuerySm, SmeAddress};
use sms_base::{Address, MessageId};
use sms_centre_messages::message_index::{MessageIndex, MessageSummary};
use sms_intake::{CentreAccount, source_in};

// What is kept of the message, if it is from that source.
fn if_from(source: &Option<Address>, found: MessageSummary) -> Option<MessageSummary>
    ensures { result ≡ (if is_source_of source.now found.source then Some found else NoneOf) }
{
    if is_source(source, &found.source) {
        return Some(found);
    }
    None
}

// What is kept of the message of that number, if it is one of the account's from that source.
fn own_at(
    index: &MessageIndex,
    account: &CentreAccount,
    source: &Option<Address>,
    id: MessageId,
) -> Option<MessageSummary>
    ensures { (d : Draft) → Represents index.now (messages_in d.store) (parts_in d.store)
        → result ≡ option_map summary_of (own_message_of account.now source.now (message_at id (messages_in d.store))) }
{
    if !index.is_of(id, account.name.as_slice()) {
        return None;
    }
    match index.peek(id) {
        Some(found) => if_from(source, found),
        None => None,
    }
}

// What is kept of the account's message under that number and from that source.
fn own_summary(
    index: &MessageIndex,
    account: &CentreAccount,
    source: &SmeAddress<'_>,
    octets: &[u8],
) -> Option<MessageSummary>
    ensures { (d : Draft) → Represents index.now (messages_in d.store) (parts_in d.store)
        → result ≡ option_map summary_of (own_message_of account.now (source_in_of account.now.address source.now)
        (message_numbered (id_in octets.now) (messages_in d.store))) }
{
    let source = source_in(&account.address, source);
    match id_of(octets) {
        Some(id) => own_at(index, account, &source, id),
        None => None,
    }
}

/// The status with which a query_sm of the account is refused, if it is: there is no such message of the account's.
pub fn refusal_of_query(
    index: &MessageIndex,
    account: &CentreAccount,
    query: &QuerySm<'_>,
) -> Option<CommandStatus>
    ensures { (d : Draft) → Represents index.now (messages_in d.store) (parts_in d.store)
        → result ≡ status_in (query_by (Some account.now) query.now d).answer }
{
    match own_summary(index, account, &query.source, query.message_id.as_slice()) {
        Some(_) => None,
        None => Some(CommandStatus::ESME_RINVMSGID),
    }
}

fn if_to(destination: &SmeAddress<'_>, found: MessageSummary) -> Option<MessageSummary>
    ensures { result ≡ (if is_destination_of destination.now found.handset then Some found else NoneOf) }
{
    if is_destination(destination, &found.handset) {
        return Some(found);
    }
    None
}

// What is kept of the message, if it is one to the destination that is named.
fn only_to(destination: &SmeAddress<'_>, found: Option<MessageSummary>) -> Option<MessageSummary>
    ensures { (o : Option MessageRowOf) → found ≡ option_map summary_of o → result ≡ option_map summary_of (only_to_of destination.now o) }
{
    match found {
        Some(found) => if_to(destination, found),
        None => None,
    }
}

// A message that has ended is not cancelled.
fn if_ended(found: &MessageSummary) -> Option<CommandStatus>
    ensures { result ≡ (if is_none found.now.state then NoneOf else Some ESME_RCANCELFAIL) }
{
    if found.state.is_none() {
        return None;
    }
    Some(CommandStatus::ESME_RCANCELFAIL)
}

// One that is there and has not ended is.
fn unless_pending(found: &Option<MessageSummary>) -> Option<CommandStatus>
    ensures { (o : Option MessageRowOf) (d : Draft) → found.now ≡ option_map summary_of o → result ≡ status_in (cancelled o d).answer }
{
    match found {
        Some(found) => if_ended(found),
        None => Some(CommandStatus::ESME_RINVMSGID),
    }
}

/// The status with which a cancel_sm of the account is refused, if it is: it has no number, there is no such message of
/// the account's to that destination, or the message has ended.
pub fn refusal_of_cancel(
    index: &MessageIndex,
    account: &CentreAccount,
    cancel: &CancelSm<'_>,
) -> Option<CommandStatus>
    ensures { (d : Draft) → Represents index.now (messages_in d.store) (parts_in d.store)
        → result ≡ status_in (cancel_by (Some account.now) cancel.now d).answer }
{
    let octets = cancel.message_id.as_slice();
    if octets.is_empty() {
        return Some(CommandStatus::ESME_RCANCELFAIL);
    }
    let own = own_summary(index, account, &cancel.source, octets);
    let found = only_to(&cancel.destination, own);
    unless_pending(&found)
}
