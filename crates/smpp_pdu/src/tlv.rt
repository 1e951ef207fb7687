ghost use Rattle.std.specs.Prelude.{◌≡◌, ◌≤◌, ◌+◌, ◌++◌, length, vec_capacity, vec_len};
ghost use Rattle.sms_base.specs.Reading.{Takes};
ghost use Rattle.smpp_pdu.specs.Tlvs.{tag_number, tlv_octets, tlv_of, no_tlvs, keep};
ghost use Rattle.smpp_pdu.specs.Writing.{written_tlvs, written_len};
ghost use Rattle.smpp_pdu.specs.TlvReading.{tlv_in, tlvs_at};

use crate::fault::PduFault;
use crate::fields::two;
use crate::writing::put_two;
use sms_base::{Cursor, OctetView};

/// The optional parameters that are used, each with its tag (SMPP v3.4 5.3.1).
#[derive(Clone, Copy, PartialEq, Eq)]
pub enum TlvTag {
    ReceiptedMessageId = 0x001E,
    SarMsgRefNum = 0x020C,
    SarTotalSegments = 0x020E,
    SarSegmentSeqnum = 0x020F,
    MessagePayload = 0x0424,
    MessageState = 0x0427,
}

impl TlvTag {
    /// The tag.
    pub fn number(self) -> u16
        ensures { result ≡ tag_number self }
    {
        self as u16
    }
}

/// The values of the optional parameters that are used: of equal tags the last one's, and of any length up to 65,535 octets.
#[derive(Debug, Drop)]
pub struct Tlvs<'a> {
    /// Which long message this is a segment of, two octets.
    pub sar_msg_ref_num: Option<OctetView<'a>>,
    /// How many segments it has, one octet.
    pub sar_total_segments: Option<OctetView<'a>>,
    /// Which of them this is, one octet, from 1.
    pub sar_segment_seqnum: Option<OctetView<'a>>,
    /// The message, in place of short_message.
    pub message_payload: Option<OctetView<'a>>,
    /// The message that a receipt is of, a C-octet string with its NUL.
    pub receipted_message_id: Option<OctetView<'a>>,
    /// What became of that message, one octet.
    pub message_state: Option<OctetView<'a>>,
}

impl<'a> Tlvs<'a> {
    /// No optional parameter.
    pub fn none() -> Tlvs<'a>
        ensures { result ≡ no_tlvs }
    {
        Tlvs {
            sar_msg_ref_num: None,
            sar_total_segments: None,
            sar_segment_seqnum: None,
            message_payload: None,
            receipted_message_id: None,
            message_state: None,
        }
    }

    // Puts a value in the place of its tag, if that is used.
    fn keep(&mut self, tag: u16, value: &'a [u8])
        ensures { self.new ≡ keep tag value.now self.old }
    {
        if tag == TlvTag::SarMsgRefNum.number() {
            self.sar_msg_ref_num = Some(OctetView::of(value));
        } else if tag == TlvTag::SarTotalSegments.number() {
            self.sar_total_segments = Some(OctetView::of(value));
        } else if tag == TlvTag::SarSegmentSeqnum.number() {
            self.sar_segment_seqnum = Some(OctetView::of(value));
        } else if tag == TlvTag::MessagePayload.number() {
            self.message_payload = Some(OctetView::of(value));
        } else if tag == TlvTag::ReceiptedMessageId.number() {
            self.receipted_message_id = Some(OctetView::of(value));
        } else if tag == TlvTag::MessageState.number() {
            self.message_state = Some(OctetView::of(value));
        }
    }

    // How many octets are written.
    #[tactic(auto, using(crate::proofs::Lengths::tlvs_length))]
    pub(crate) fn len(&self) -> usize
        requires { length (written_tlvs self.now) ≤ 65520 }
        ensures { result ≡ length (written_tlvs self.now) }
    {
        len_of(&self.sar_msg_ref_num)
            + len_of(&self.sar_total_segments)
            + len_of(&self.sar_segment_seqnum)
            + len_of(&self.message_payload)
            + len_of(&self.receipted_message_id)
            + len_of(&self.message_state)
    }

    // Writes the values that are there.
    #[tactic(auto, using(crate::proofs::Lengths::tlvs_split, crate::proofs::Lengths::tlvs_length, crate::proofs::Lengths::one_length))]
    pub(crate) fn put(&self, out: &mut Vec<u8>)
        requires short { length (written_tlvs self.now) ≤ 65520 }
        requires room { vec_len out.old + length (written_tlvs self.now) ≤ vec_capacity out.old }
        ensures items { out.new.items ≡ out.old.items ++ written_tlvs self.now }
        ensures len { vec_len out.new ≡ vec_len out.old + length (written_tlvs self.now) }
        ensures capacity { vec_capacity out.old ≤ vec_capacity out.new }
    {
        put_tlv(out, TlvTag::SarMsgRefNum, &self.sar_msg_ref_num);
        put_tlv(out, TlvTag::SarTotalSegments, &self.sar_total_segments);
        put_tlv(out, TlvTag::SarSegmentSeqnum, &self.sar_segment_seqnum);
        put_tlv(out, TlvTag::MessagePayload, &self.message_payload);
        put_tlv(out, TlvTag::ReceiptedMessageId, &self.receipted_message_id);
        put_tlv(out, TlvTag::MessageState, &self.message_state);
    }
}

// An optional parameter: its tag and its value.
#[tactic(auto, unfolding(crate::specs::TlvReading::tlv_in))]
fn optional_parameter<'a>(cursor: &mut Cursor<'a>) -> Result<(u16, &'a [u8]), PduFault>
    ensures { Takes (λ x. (x.0, x.1.now)) result cursor.new (tlv_in cursor.old) }
{
    let tag = two(cursor, PduFault::BadTlv)?;
    let len = two(cursor, PduFault::BadTlv)?;
    let value = cursor.run(usize::from(len), PduFault::BadTlv)?;
    Ok((tag, value))
}

// The optional parameters that the octets are, to their end.
pub(crate) fn optional_parameters<'a>(cursor: &mut Cursor<'a>) -> Result<Tlvs<'a>, PduFault>
    ensures { result ≡ tlvs_at cursor.old }
{
    let mut tlvs = Tlvs::none();
    while !cursor.is_empty() {
        let (tag, value) = optional_parameter(cursor)?;
        tlvs.keep(tag, value);
    }
    Ok(tlvs)
}

// How many octets a parameter is written with, if it is there.
fn len_of(value: &Option<OctetView<'_>>) -> usize
    requires { written_len value.now ≤ 65520 }
    ensures { result ≡ written_len value.now }
{
    match value {
        Some(value) => 4 + value.as_slice().len(),
        None => 0,
    }
}

// Writes a parameter, if it is there.
#[tactic(auto, using(crate::proofs::Lengths::one_length))]
fn put_tlv(out: &mut Vec<u8>, tag: TlvTag, value: &Option<OctetView<'_>>)
    requires short { written_len value.now ≤ 65520 }
    requires room { vec_len out.old + length (tlv_octets (tlv_of tag value.now)) ≤ vec_capacity out.old }
    ensures items { out.new.items ≡ out.old.items ++ tlv_octets (tlv_of tag value.now) }
    ensures len { vec_len out.new ≡ vec_len out.old + length (tlv_octets (tlv_of tag value.now)) }
    ensures capacity { vec_capacity out.old ≤ vec_capacity out.new }
{
    if let Some(value) = value {
        put_two(out, tag.number());
        put_two(out, value.as_slice().len() as u16);
        out.extend_from_slice(value.as_slice()).unwrap();
    }
}
