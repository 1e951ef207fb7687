//! The message that an application asks for.
ghost use Rattle.std.specs.Prelude.{◌≡◌, Some, IfOk};
ghost use Rattle.sms_intake.specs.SmppIntake.{source_in as source_in_of};
ghost use Rattle.sms_centre_spec.specs.Draft.{Draft, messages_in};
ghost use Rattle.sms_centre_spec.specs.Numbers.{id_in};
ghost use Rattle.sms_centre_spec.specs.Requests.{message_numbered, own_message as own_message_of};
ghost use Rattle.sms_centre_draft.specs.CentreDraft.{Represents};

use crate::accounts::is_own;
use smpp_pdu::SmeAddress;
use sms_base::{Address, MessageId};
use sms_centre_draft::CentreDraft;
use sms_centre_rows::messages::MessageRow;
use sms_intake::{CentreAccount, source_in};
use std::alloc::AllocError;

/// The number that the octets are as an application writes it.
pub(crate) fn id_of(octets: &[u8]) -> Option<MessageId>
    ensures { result ≡ id_in octets.now }
{
    let read = MessageId::read(octets);
    match read {
        Some(id) => {
            // It is 1 or more.
            let _number = id.number();
            Some(id)
        }
        None => None,
    }
}

// The message of that number, if it has one.
fn numbered(draft: &CentreDraft<'_>, octets: &[u8]) -> Result<Option<MessageRow>, AllocError>
    ensures { (d : Draft) → Represents d draft.now → IfOk result (λ found. found ≡ message_numbered (id_in octets.now) (messages_in d.store)) }
{
    let id = id_of(octets);
    match id {
        Some(id) => draft.find(id),
        None => Ok(None),
    }
}

fn if_own(
    account: &CentreAccount,
    source: &Option<Address>,
    message: MessageRow,
) -> Option<MessageRow>
    ensures { result ≡ own_message_of account.now source.now (Some message) }
{
    if is_own(account.name.as_slice(), source, &message) {
        return Some(message);
    }
    None
}

// The message, if it is one of the account's from that source.
fn own(
    account: &CentreAccount,
    source: &Option<Address>,
    found: Option<MessageRow>,
) -> Option<MessageRow>
    ensures { result ≡ own_message_of account.now source.now found }
{
    match found {
        Some(message) => if_own(account, source, message),
        None => None,
    }
}

/// The message of the account under that number and from that source, in memory of its own.
pub(crate) fn own_message(
    draft: &CentreDraft<'_>,
    account: &CentreAccount,
    source: &SmeAddress<'_>,
    octets: &[u8],
) -> Result<Option<MessageRow>, AllocError>
    ensures { (d : Draft) → Represents d draft.now
        → IfOk result (λ found. found ≡ own_message_of account.now (source_in_of account.now.address source.now)
        (message_numbered (id_in octets.now) (messages_in d.store))) }
{
    let source = source_in(&account.address, source);
    let found = numbered(draft, octets)?;
    Ok(own(account, &source, found))
}
