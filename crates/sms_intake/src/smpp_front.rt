//! What is judged of a submit_sm before its text.
ghost use Rattle.std.specs.Prelude.{◌≡◌};
ghost use Rattle.sms_intake.specs.SmppIntake.{front_in, has_length, has_sar, has_sar_lengths, has_too_much};

use crate::allowed_source::permitted_source;
use crate::smpp_address::{handset_in, source_in};
use crate::submission::CentreAccount;
use smpp_pdu::{CommandStatus, Message, Tlvs};
use sms_base::{Address, Msisdn, OctetView};

/// The source of a message, and its handset.
#[derive(Clone, Copy, PartialEq, Eq)]
pub struct Front {
    /// The source, the account's address where none is given.
    pub source: Address,
    /// The number of the destination.
    pub handset: Msisdn,
}

// Whether a value has that many octets, if it is there.
fn has_length(length: usize, value: &Option<OctetView<'_>>) -> bool
    ensures { result ≡ has_length length value.now }
{
    match value {
        Some(value) => value.as_slice().len() == length,
        None => true,
    }
}

fn has_sar_lengths(tlvs: &Tlvs<'_>) -> bool
    ensures { result ≡ has_sar_lengths tlvs.now }
{
    has_length(2, &tlvs.sar_msg_ref_num)
        && has_length(1, &tlvs.sar_total_segments)
        && has_length(1, &tlvs.sar_segment_seqnum)
}

fn has_sar(tlvs: &Tlvs<'_>) -> bool
    ensures { result ≡ has_sar tlvs.now }
{
    tlvs.sar_msg_ref_num.is_some()
        || tlvs.sar_total_segments.is_some()
        || tlvs.sar_segment_seqnum.is_some()
}

// Whether a payload stands beside a short_message, or sar values beside a header.
fn has_too_much(message: &Message<'_>) -> bool
    ensures { result ≡ has_too_much message.now }
{
    let payload = message.tlvs.message_payload.is_some();
    let header = message.esm_class / 0x40 % 2 == 1;
    (payload && !message.short_message.as_slice().is_empty()) || (has_sar(&message.tlvs) && header)
}

/// Source and handset of a submit_sm from an account, or the first refusal before its text. In this order: esm_class with a
/// message type, a source that is none or that the account may not give, destination, lengths of the sar values. Then a
/// payload beside a short_message, or sar values beside a header.
#[tactic(auto, unfolding(crate::specs::SmppIntake::front_in))]
pub fn front_of(account: &CentreAccount, message: &Message<'_>) -> Result<Front, CommandStatus>
    ensures { result ≡ front_in account.now message.now }
{
    if message.esm_class / 4 % 16 != 0 {
        return Err(CommandStatus::ESME_RINVESMCLASS);
    }
    let source = source_in(&account.address, &message.source);
    let source = permitted_source(account, source).ok_or(CommandStatus::ESME_RINVSRCADR)?;
    let handset = handset_in(&message.destination)?;
    if !has_sar_lengths(&message.tlvs) {
        return Err(CommandStatus::ESME_RINVPARLEN);
    }
    if has_too_much(message) {
        return Err(CommandStatus::ESME_ROPTPARNOTALLWD);
    }
    Ok(Front { source, handset })
}
