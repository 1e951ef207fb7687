//! Each call at its greatest size, so that none gives up where memory is left.
ghost use Rattle.std.specs.Prelude.{◌≡◌, ◌≤◌, ◌<◌, [], length};
ghost use Rattle.smpp_pdu.specs.Writing.{IsWritable};
ghost use Rattle.smpp_session.specs.Sessions.{IsDeliverable};

use crate::rows::holds;
use crate::smpp::exchanges::SUBMIT_HEADER;
use crate::smpp::sessions::{Given, feeds, is_bound, is_given, session};
use smpp_pdu::{Body, Message, Pdu, SmeAddress, Tlvs};
use smpp_session::Session;
use sms_base::{OctetView, Octets};
use std::alloc::{AllocError, Global};
use std::test::Fail;

// The octets of a payload that makes a message of 65,536 octets, header and all, where its other fields are empty.
const GREATEST_PAYLOAD: usize = 65_499;

fn none() -> OctetView<'static>
    ensures { result ≡ [] }
{
    OctetView::of(&[])
}

fn nowhere() -> SmeAddress<'static>
    ensures { result.addr ≡ [] }
{
    let addr = none();
    SmeAddress {
        ton: 1,
        npi: 1,
        addr,
    }
}

// A message with this payload, of 37 octets more.
#[tactic(auto, using(smpp_pdu::proofs::Lengths::message_length, smpp_pdu::proofs::Lengths::address_length, smpp_pdu::proofs::Lengths::tlvs_length))]
pub(crate) fn message<'a>(payload: &'a [u8]) -> Message<'a>
    requires { length payload.now ≤ 65499 }
    ensures { IsDeliverable result }
{
    let service_type = none();
    let source = nowhere();
    let destination = nowhere();
    let schedule_delivery_time = none();
    let validity_period = none();
    let short_message = none();
    Message {
        service_type,
        source,
        destination,
        esm_class: 4,
        protocol_id: 0,
        priority_flag: 0,
        schedule_delivery_time,
        validity_period,
        registered_delivery: 0,
        replace_if_present_flag: 0,
        data_coding: 0,
        sm_default_msg_id: 0,
        short_message,
        tlvs: Tlvs {
            sar_msg_ref_num: None,
            sar_total_segments: None,
            sar_segment_seqnum: None,
            message_payload: Some(OctetView::of(payload)),
            receipted_message_id: None,
            message_state: None,
        },
    }
}

// A PDU with that message of a payload.
fn submit<'a>(payload: &'a [u8]) -> Pdu<'a>
    requires { length payload.now ≤ 65499 }
    ensures { IsWritable result }
{
    Pdu {
        command_status: 0,
        sequence_number: 0x7FFF_FFFF,
        body: Body::SubmitSm(message(payload)),
    }
}

// The octets, so many times.
fn repeated(alloc: Global, octets: &[u8], count: usize) -> Result<Octets, AllocError> {
    let mut all = Octets::new(alloc);
    for _ in 0..count {
        all.append(octets)?;
    }
    Ok(all)
}

// The longest payload that a message has room for.
fn longest(octets: &Octets) -> &[u8]
    ensures { length result.now ≤ 65499 }
{
    match octets.as_slice().get(..GREATEST_PAYLOAD) {
        Some(payload) => payload,
        None => &[],
    }
}

// How many octets of payload a submit_sm is read with.
fn payload_len(octets: &[u8]) -> usize {
    match Pdu::read(octets) {
        Ok(
            Pdu {
                body: Body::SubmitSm(
                    Message {
                        tlvs: Tlvs {
                            message_payload: Some(payload),
                            ..
                        },
                        ..
                    },
                ),
                ..
            },
        ) => payload.as_slice().len(),
        _ => 0,
    }
}

fn longest_submit(alloc: Global) -> Result<Octets, AllocError> {
    let payload = repeated(alloc, b"a", GREATEST_PAYLOAD)?;
    submit(longest(&payload)).write(alloc)
}

fn are_silent(session: &mut Session, octets: &[u8]) -> bool {
    for octet in octets {
        if !feeds(session, &[*octet], &Given::Nothing) {
            return false;
        }
    }
    true
}

// The last octets give a submit_sm of all these.
fn gives_request(session: &mut Session, last: &[u8], all: &[u8]) -> bool {
    match session.feed(last) {
        Ok(given) => is_given(&given.actions, all, &Given::Request(0)),
        Err(_) => false,
    }
}

// The octets come one by one, and with the last of them all are passed up.
fn passes_up(session: &mut Session, octets: &[u8]) -> bool {
    let (front, last) = octets.split_at(octets.len().saturating_sub(1));
    is_bound(session) && are_silent(session, front) && gives_request(session, last, octets)
}

fn answers_many(session: &mut Session, octets: &[u8]) -> bool {
    match session.feed(octets) {
        Ok(given) => given.actions.as_slice().len() == 5_000,
        Err(_) => false,
    }
}

fn delivers_longest(session: &mut Session, payload: &Octets) -> bool {
    if !is_bound(session) {
        return false;
    }
    match session.deliver(message(longest(payload))) {
        Ok(sent) => sent.octets.len() == 65_536,
        Err(_) => false,
    }
}

// What is done at its greatest size.
#[derive(Clone, Copy)]
enum Case {
    // The longest submit_sm is written and read.
    Read,
    // It is passed up, octet by octet.
    PassedUp,
    // Five thousand PDUs come in one piece.
    Many,
    // The longest message is delivered.
    Delivered,
}

// The octets of a case.
fn octets_of(alloc: Global, case: Case) -> Result<Octets, AllocError> {
    match case {
        Case::Read | Case::PassedUp => longest_submit(alloc),
        Case::Many => repeated(alloc, &SUBMIT_HEADER, 5_000),
        Case::Delivered => repeated(alloc, b"a", GREATEST_PAYLOAD),
    }
}

fn goes(session: &mut Session, octets: &Octets, case: Case) -> bool {
    match case {
        Case::Read => {
            octets.len() == 65_536 && payload_len(octets.as_slice()) == GREATEST_PAYLOAD
        }
        Case::PassedUp => passes_up(session, octets.as_slice()),
        Case::Many => answers_many(session, octets.as_slice()),
        Case::Delivered => delivers_longest(session, octets),
    }
}

fn goes_in_session(alloc: Global, octets: &Octets, case: Case) -> bool {
    match session(alloc) {
        Ok(mut session) => goes(&mut session, octets, case),
        Err(_) => false,
    }
}

fn plays(alloc: Global, case: Case) -> bool {
    match octets_of(alloc, case) {
        Ok(octets) => goes_in_session(alloc, &octets, case),
        Err(_) => false,
    }
}

const CASES: &[(Case, &str)] = &[
    (Case::Read, "the longest submit_sm"),
    (Case::PassedUp, "the longest submit_sm, octet by octet"),
    (Case::Many, "many PDUs in one piece"),
    (Case::Delivered, "the longest message"),
];

#[test]
fn calls_go_at_their_greatest_size(rt: HostRuntime) -> Result<(), Fail> {
    for (case, name) in CASES {
        holds(plays(rt.alloc(), *case), name)?;
    }
    Ok(())
}
