//! Receipts.
ghost use Rattle.std.specs.Prelude.{◌≡◌, ◌∷◌, [], ◌++◌, Some, None, IfOk};
ghost use Rattle.sms_base.specs.MessageId.{id_text};
ghost use Rattle.sms_receipt.specs.Receipts.{message_state, receipt_of, state_number};

use crate::entity::ascii_of;
use crate::final_message::Final;
use crate::text::{id_digits, receipt_text};
use smpp_pdu::{Message, SmeAddress, Tlvs};
use sms_base::{Address, FinalState, MessageId, OctetView, Octets};
use std::alloc::{AllocError, Global};
use std::marker::Model;

/// The deliver_sm by which an application learns how its message ended, seen by contracts as that message.
#[derive(Drop)]
pub struct Receipt {
    source: Address,
    source_text: Octets,
    destination: Address,
    destination_text: Octets,
    text: Octets,
    id: Octets,
    state: Octets,
}

impl Model for Receipt {
    ghost use Rattle.sms_base.specs.AddressKind.{type_number};
    ghost use Rattle.smpp_pdu.specs.declared.message.Message.{Message as MessageOf};
    ghost use Rattle.sms_receipt.specs.Receipts.{receipt_with};

    ghost Value = { MessageOf };

    ghost view = { λ r. receipt_with (record { ton = type_number r.source.ton; npi = r.source.npi; addr = r.source_text })
        (record { ton = type_number r.destination.ton; npi = r.destination.npi; addr = r.destination_text }) r.text r.id r.state };
}

impl Receipt {
    /// The message, which borrows the receipt.
    pub fn message(&self) -> Message<'_>
        ensures { result ≡ self.now }
    {
        Message {
            service_type: OctetView::of(&[]),
            source: SmeAddress {
                ton: self.source.ton.number(),
                npi: self.source.npi,
                addr: OctetView::of(self.source_text.as_slice()),
            },
            destination: SmeAddress {
                ton: self.destination.ton.number(),
                npi: self.destination.npi,
                addr: OctetView::of(self.destination_text.as_slice()),
            },
            esm_class: 0x04,
            protocol_id: 0,
            priority_flag: 0,
            schedule_delivery_time: OctetView::of(&[]),
            validity_period: OctetView::of(&[]),
            registered_delivery: 0,
            replace_if_present_flag: 0,
            data_coding: 0,
            sm_default_msg_id: 0,
            short_message: OctetView::of(self.text.as_slice()),
            tlvs: tlvs_of(&self.id, &self.state),
        }
    }
}

// The optional parameters of a receipt.
fn tlvs_of<'a>(id: &'a Octets, state: &'a Octets) -> Tlvs<'a>
    ensures { result ≡ record {
      sar_msg_ref_num = None;
      sar_total_segments = None;
      sar_segment_seqnum = None;
      message_payload = None;
      receipted_message_id = Some id.entry.now;
      message_state = Some state.entry.now;
    } }
{
    let mut tlvs = Tlvs::none();
    tlvs.receipted_message_id = Some(OctetView::of(id.as_slice()));
    tlvs.message_state = Some(OctetView::of(state.as_slice()));
    tlvs
}

// The number that message_state gives a final state, 2 to 5 (SMPP v3.4 5.2.28).
fn final_number(state: FinalState) -> u8
    ensures { result ≡ message_state state }
{
    match state {
        FinalState::Delivered => 2,
        FinalState::Expired => 3,
        FinalState::Deleted => 4,
        FinalState::Undeliverable => 5,
    }
}

/// message_state of a message: 1 where it has not ended (SMPP v3.4 5.2.28).
pub fn message_state(state: Option<FinalState>) -> u8
    ensures { result ≡ state_number state }
{
    match state {
        None => 1,
        Some(state) => final_number(state),
    }
}

// The identity as a C-octet string.
fn terminated(alloc: Global, id: MessageId) -> Result<Octets, AllocError>
    ensures { IfOk result (λ text. text ≡ id_text id ++ 0 ∷ []) }
{
    let mut text = Octets::with_capacity(alloc, 11)?;
    text.append(&id_digits(id))?;
    text.push(0)?;
    Ok(text)
}

/// The receipt of a message that ended: from its destination to its source, with its text, its identity and its state.
pub fn receipt_of(alloc: Global, end: &Final) -> Result<Receipt, AllocError>
    ensures { IfOk result (λ receipt. receipt ≡ receipt_of end.now) }
{
    Ok(Receipt {
        source: Address::of_handset(end.handset.digits()),
        source_text: ascii_of(alloc, &end.handset.digits())?,
        destination: end.source,
        destination_text: ascii_of(alloc, &end.source.digits)?,
        text: receipt_text(alloc, end)?,
        id: terminated(alloc, end.id)?,
        state: Octets::copy_of(alloc, &[final_number(end.state)])?,
    })
}
