//! Requests of applications as PDUs.
ghost use Rattle.std.specs.Prelude.{◌≡◌};
ghost use Rattle.sms_script.specs.Requests.{cancel_of as cancel_of_id, nobody as nobody_of, payload_of, query_of as query_of_id, short_message_of};
ghost use Rattle.sms_script.specs.Requests.{submit_of as submit_of_submission};

use crate::event::Submission;
use smpp_pdu::{CancelSm, Message, QuerySm, SmeAddress, Tlvs};
use sms_base::OctetView;

fn nobody() -> SmeAddress<'static>
    ensures { result ≡ nobody_of }
{
    SmeAddress {
        ton: 0,
        npi: 0,
        addr: OctetView::of(&[]),
    }
}

fn short_message(octets: &[u8]) -> OctetView<'_>
    ensures { result ≡ short_message_of octets.now }
{
    if octets.len() <= 254 {
        OctetView::of(octets)
    } else {
        OctetView::of(&[])
    }
}

fn payload(octets: &[u8]) -> Option<OctetView<'_>>
    ensures { result ≡ payload_of octets.now }
{
    if octets.len() <= 254 {
        None
    } else {
        Some(OctetView::of(octets))
    }
}

/// The submit_sm of a submission, over its texts: the destination's, the validity's and the message's octets.
pub fn submit_of<'a>(
    submission: &Submission<'_>,
    to: &'a [u8],
    validity: &'a [u8],
    octets: &'a [u8],
) -> Message<'a>
    requires to { to.now ≡ submission.now.to }
    requires validity { validity.now ≡ submission.now.validity }
    requires octets { octets.now ≡ submission.now.message }
    ensures { result ≡ submit_of_submission submission.entry.now }
{
    Message {
        service_type: OctetView::of(&[]),
        source: nobody(),
        destination: SmeAddress {
            ton: 1,
            npi: 1,
            addr: OctetView::of(to),
        },
        esm_class: submission.esm_class,
        protocol_id: 0,
        priority_flag: submission.priority,
        schedule_delivery_time: OctetView::of(&[]),
        validity_period: OctetView::of(validity),
        registered_delivery: submission.registered_delivery,
        replace_if_present_flag: 0,
        data_coding: submission.coding,
        sm_default_msg_id: 0,
        short_message: short_message(octets),
        tlvs: Tlvs {
            sar_msg_ref_num: None,
            sar_total_segments: None,
            sar_segment_seqnum: None,
            message_payload: payload(octets),
            receipted_message_id: None,
            message_state: None,
        },
    }
}

/// The query_sm for a message.
pub fn query_of(id: &[u8]) -> QuerySm<'_>
    ensures { result ≡ query_of_id id.entry.now }
{
    QuerySm {
        message_id: OctetView::of(id),
        source: nobody(),
    }
}

/// The cancel_sm for a message.
pub fn cancel_of(id: &[u8]) -> CancelSm<'_>
    ensures { result ≡ cancel_of_id id.entry.now }
{
    CancelSm {
        service_type: OctetView::of(&[]),
        message_id: OctetView::of(id),
        source: nobody(),
        destination: nobody(),
    }
}
