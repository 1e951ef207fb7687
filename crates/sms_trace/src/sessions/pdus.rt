//! PDUs of sessions, where there are such: the texts of a script can be too long for their fields.
ghost use Rattle.std.specs.Prelude.{◌≡◌, ◌↔◌, ◌≤◌, ◌+◌, nat_lt, true};
ghost use Rattle.std.specs.List.{list_all};
ghost use Rattle.smpp_pdu.specs.BodyGrammar.{IsAddressText, IsCancelValue, IsMessageValue, IsQueryRespValue, IsQueryValue};
ghost use Rattle.smpp_pdu.specs.Fields.{IsText, IsTimeText};
ghost use Rattle.smpp_pdu.specs.Writing.{IfThere, IsMessageRespValue, written_len};
ghost use Rattle.sms_trace.specs.sessions.Writable.{AreShort, CanBeWritten};

use smpp_pdu::{Body, CancelSm, Message, MessageResp, Pdu, QuerySm, QuerySmResp, SmeAddress, Tlvs};
use sms_base::{Moment, OctetView, Octets};
use std::alloc::{AllocError, Global};

// No parameter of a script's run is longer, but for a payload.
const MOST_VALUE: usize = 100;

const MOST_PAYLOAD: usize = 60_000;

fn has_no_nul(octets: &[u8]) -> bool
    ensures { result ≡ list_all (λ octet. nat_lt 0 octet) octets.now }
{
    octets.iter().all(|octet| *octet > 0)
}

// Whether the octets can be a text of at most so many octets, NUL included.
fn is_text(octets: &[u8], limit: usize) -> bool
    ensures { (result ≡ true) ↔ IsText limit octets.now }
{
    has_no_nul(octets) && octets.len() < limit
}

// Whether the octets can be a time: none or sixteen.
fn is_time(octets: &[u8]) -> bool
    ensures { (result ≡ true) ↔ IsTimeText octets.now }
{
    has_no_nul(octets) && (octets.is_empty() || octets.len() == 16)
}

fn is_address(address: &SmeAddress<'_>) -> bool
    ensures { (result ≡ true) ↔ IsAddressText address.now }
{
    is_text(address.addr.as_slice(), 21)
}

// Whether the value of a parameter, if it is there, has so many octets at most.
fn is_short(value: &Option<OctetView<'_>>, most: usize) -> bool
    ensures { (result ≡ true) ↔ (written_len value.now ≤ 4 + most) }
{
    match value {
        Some(value) => value.as_slice().len() <= most,
        None => true,
    }
}

fn are_short(tlvs: &Tlvs<'_>) -> bool
    ensures { (result ≡ true) ↔ AreShort tlvs.now }
{
    is_short(&tlvs.sar_msg_ref_num, MOST_VALUE)
        && is_short(&tlvs.sar_total_segments, MOST_VALUE)
        && is_short(&tlvs.sar_segment_seqnum, MOST_VALUE)
        && is_short(&tlvs.message_payload, MOST_PAYLOAD)
        && is_short(&tlvs.receipted_message_id, MOST_VALUE)
        && is_short(&tlvs.message_state, MOST_VALUE)
}

fn is_message(message: &Message<'_>) -> bool
    ensures { (result ≡ true) ↔ (IsMessageValue message.now × AreShort message.now.tlvs) }
{
    is_text(message.service_type.as_slice(), 6)
        && is_address(&message.source)
        && is_address(&message.destination)
        && is_time(message.schedule_delivery_time.as_slice())
        && is_time(message.validity_period.as_slice())
        && message.short_message.as_slice().len() < 255
        && are_short(&message.tlvs)
}

fn is_query(query: &QuerySm<'_>) -> bool
    ensures { (result ≡ true) ↔ IsQueryValue query.now }
{
    is_text(query.message_id.as_slice(), 65) && is_address(&query.source)
}

fn is_cancel(cancel: &CancelSm<'_>) -> bool
    ensures { (result ≡ true) ↔ IsCancelValue cancel.now }
{
    is_text(cancel.service_type.as_slice(), 6)
        && is_text(cancel.message_id.as_slice(), 65)
        && is_address(&cancel.source)
        && is_address(&cancel.destination)
}

fn is_message_resp(resp: &Option<MessageResp<'_>>) -> bool
    ensures { (result ≡ true) ↔ IfThere IsMessageRespValue resp.now }
{
    match resp {
        Some(resp) => is_text(resp.message_id.as_slice(), 65),
        None => true,
    }
}

fn is_query_resp(resp: &Option<QuerySmResp<'_>>) -> bool
    ensures { (result ≡ true) ↔ IfThere IsQueryRespValue resp.now }
{
    match resp {
        Some(resp) => is_text(resp.message_id.as_slice(), 65)
            && is_time(resp.final_date.as_slice()),
        None => true,
    }
}

/// Whether there is a PDU with that body, one that a script's run has: its fields are within their limits.
pub fn can_be_written(body: &Body<'_>) -> bool
    ensures { (result ≡ true) ↔ CanBeWritten body.now }
{
    match body {
        Body::SubmitSm(message) => is_message(message),
        Body::DeliverSm(message) => is_message(message),
        Body::QuerySm(query) => is_query(query),
        Body::CancelSm(cancel) => is_cancel(cancel),
        Body::SubmitSmResp(resp) => is_message_resp(resp),
        Body::DeliverSmResp(resp) => is_message_resp(resp),
        Body::QuerySmResp(resp) => is_query_resp(resp),
        Body::CancelSmResp => true,
        _ => false,
    }
}

/// The octets of the PDU, if there is such a PDU.
pub(crate) fn octets_of(alloc: Global, pdu: &Pdu<'_>) -> Result<Option<Octets>, AllocError> {
    if can_be_written(&pdu.body) {
        let octets = pdu.write(alloc)?;
        Ok(Some(octets))
    } else {
        Ok(None)
    }
}

// Two decimal digits of a semi-octet pair, the low one first (3GPP TS 23.040 9.1.2.3).
fn put_pair(octet: u8, text: &mut Octets) -> Result<(), AllocError> {
    text.push(48 + (octet % 16) % 10)?;
    text.push(48 + (octet / 16) % 10)
}

/// The moment as an absolute time, in sixteen octets at UTC (SMPP v3.4 7.1.1); none where there is none.
pub fn absolute_time(alloc: Global, done: Option<Moment>) -> Result<Octets, AllocError> {
    let mut text = Octets::new(alloc);
    let Some(done) = done else {
        return Ok(text);
    };
    let [year, month, day, hour, minute, second, _] = done.to_scts();
    put_pair(year, &mut text)?;
    put_pair(month, &mut text)?;
    put_pair(day, &mut text)?;
    put_pair(hour, &mut text)?;
    put_pair(minute, &mut text)?;
    put_pair(second, &mut text)?;
    text.append(b"000+")?;
    Ok(text)
}
