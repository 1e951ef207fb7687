//! PDUs of the standard's form, written by hand and by another implementation.
use crate::pdus::exchanges::{
    BIND, BIND_ANSWER, ENQUIRE, ENQUIRE_ANSWER, SHORT_LENGTH, SUBMIT, SUBMIT_ANSWER,
};
use crate::pdus::vectors;
use crate::rows::{are, holds, is_written};
use smpp_pdu::{
    Bind, BindResp, Body, CommandId, CommandStatus, Header, Message, MessageResp, Pdu, PduFault,
    TlvTag, Tlvs,
};
use sms_base::{OctetView, Octets};
use std::alloc::{AllocError, Global};
use std::test::Fail;

fn is(octets: &OctetView<'_>, wanted: &[u8]) -> bool {
    are(octets.as_slice(), wanted)
}

// Whether the octets are a PDU of that command, sequence number and status.
fn is_command(octets: &[u8], command: CommandId, number: u32, status: CommandStatus) -> bool {
    match Pdu::read(octets) {
        Ok(pdu) => {
            pdu.body.command() == command
                && pdu.sequence_number == number
                && CommandStatus::of(pdu.command_status) == Some(status)
        }
        Err(_) => false,
    }
}

const COMMANDS: &[(&[u8], CommandId, u32, CommandStatus)] = &[
    (
        &vectors::BIND_RECEIVER,
        CommandId::BindReceiver,
        1,
        CommandStatus::ESME_ROK,
    ),
    (
        &vectors::BIND_TRANSMITTER,
        CommandId::BindTransmitter,
        2,
        CommandStatus::ESME_ROK,
    ),
    (
        &vectors::BIND_TRANSCEIVER,
        CommandId::BindTransceiver,
        3,
        CommandStatus::ESME_ROK,
    ),
    (
        &vectors::SUBMIT_SM,
        CommandId::SubmitSm,
        4,
        CommandStatus::ESME_ROK,
    ),
    (
        &vectors::DELIVER_SM,
        CommandId::DeliverSm,
        7,
        CommandStatus::ESME_ROK,
    ),
    (
        &vectors::QUERY_SM,
        CommandId::QuerySm,
        8,
        CommandStatus::ESME_ROK,
    ),
    (
        &vectors::CANCEL_SM,
        CommandId::CancelSm,
        9,
        CommandStatus::ESME_ROK,
    ),
    (
        &vectors::ENQUIRE_LINK,
        CommandId::EnquireLink,
        10,
        CommandStatus::ESME_ROK,
    ),
    (
        &vectors::UNBIND,
        CommandId::Unbind,
        11,
        CommandStatus::ESME_ROK,
    ),
    (
        &vectors::BIND_TRANSCEIVER_RESP,
        CommandId::BindTransceiverResp,
        3,
        CommandStatus::ESME_ROK,
    ),
    (
        &vectors::BIND_TRANSCEIVER_RESP_REFUSED,
        CommandId::BindTransceiverResp,
        3,
        CommandStatus::ESME_RINVPASWD,
    ),
    (
        &vectors::SUBMIT_SM_RESP,
        CommandId::SubmitSmResp,
        4,
        CommandStatus::ESME_ROK,
    ),
    (
        &vectors::DELIVER_SM_RESP,
        CommandId::DeliverSmResp,
        7,
        CommandStatus::ESME_ROK,
    ),
    (
        &vectors::QUERY_SM_RESP,
        CommandId::QuerySmResp,
        8,
        CommandStatus::ESME_ROK,
    ),
    (
        &vectors::CANCEL_SM_RESP,
        CommandId::CancelSmResp,
        9,
        CommandStatus::ESME_RCANCELFAIL,
    ),
    (
        &vectors::ENQUIRE_LINK_RESP,
        CommandId::EnquireLinkResp,
        10,
        CommandStatus::ESME_ROK,
    ),
    (
        &vectors::UNBIND_RESP,
        CommandId::UnbindResp,
        11,
        CommandStatus::ESME_ROK,
    ),
    (
        &vectors::GENERIC_NACK,
        CommandId::GenericNack,
        12,
        CommandStatus::ESME_RINVCMDID,
    ),
    (&ENQUIRE, CommandId::EnquireLink, 1, CommandStatus::ESME_ROK),
];

fn has_bad_length(octets: &[u8]) -> bool {
    match Pdu::read(octets) {
        Err(fault) => fault == PduFault::BadLength && fault.code() == "Q2",
        Ok(_) => false,
    }
}

// Whether the header is that of the enquire_link with a length of 15.
fn is_short_header(header: Option<Header>) -> bool {
    match header {
        Some(header) => {
            header.command_length == 15
                && CommandId::of(header.command_id) == Some(CommandId::EnquireLink)
                && header.sequence_number == 2
        }
        None => false,
    }
}

// What a PDU is.
#[derive(Clone, Copy)]
enum Which {
    /// A bind of app1 with the password secret, by version 3.4, of this type and range.
    Bind(&'static [u8], &'static [u8]),
    /// `hello`, whose end is to be told.
    Hello,
    /// `hello`, kept for a day.
    HelloForADay,
    /// A part behind a header.
    Part,
    /// A payload with a reference number.
    Payload,
    Receipt,
    /// An answer, or a question after the message 0000000001, as was written.
    AsWritten,
}

fn is_bind(bind: &Bind<'_>, system_type: &[u8], address_range: &[u8]) -> bool {
    is(&bind.system_id, b"app1")
        && is(&bind.password, b"secret")
        && is(&bind.system_type, system_type)
        && bind.interface_version == 0x34
        && is(&bind.address_range, address_range)
}

// Whether a parameter is there with these octets.
fn has(parameter: &Option<OctetView<'_>>, octets: &[u8]) -> bool {
    match parameter {
        Some(value) => is(value, octets),
        None => false,
    }
}

fn is_message(message: &Message<'_>, which: Which) -> bool {
    match which {
        Which::Hello => {
            message.destination.ton == 1
                && message.destination.npi == 1
                && is(&message.destination.addr, b"447700900456")
                && message.registered_delivery == 1
                && is(&message.short_message, b"hello")
        }
        Which::HelloForADay => {
            is(&message.source.addr, b"447700900001")
                && is(&message.validity_period, b"000001000000000R")
                && is(&message.short_message, b"hello")
        }
        Which::Part => {
            is(&message.service_type, b"CMT")
                && message.source.ton == 5
                && message.esm_class == 0x40
                && message.priority_flag == 1
                && is(&message.schedule_delivery_time, b"240301005958004+")
                && message.data_coding == 8
                && message.short_message.as_slice().len() == 13
        }
        Which::Payload => {
            has(&message.tlvs.message_payload, b"aaaaaaaaaaaaaaaaaaaa")
                && has(&message.tlvs.sar_msg_ref_num, &[0x12, 0x34])
        }
        Which::Receipt => {
            message.esm_class == 4
                && has(&message.tlvs.receipted_message_id, b"0000000001\0")
                && has(&message.tlvs.message_state, &[2])
        }
        Which::Bind(_, _) | Which::AsWritten => false,
    }
}

fn is_as_written(body: &Body<'_>) -> bool {
    match body {
        Body::BindTransceiverResp(Some(answer)) => is(&answer.system_id, b"smsc"),
        Body::SubmitSmResp(Some(answer)) => is(&answer.message_id, b"0000000001"),
        Body::DeliverSmResp(Some(answer)) => answer.message_id.as_slice().is_empty(),
        Body::QuerySmResp(Some(answer)) => {
            is(&answer.final_date, b"240229235958000+") && answer.message_state == 2
        }
        Body::QuerySm(query) => is(&query.message_id, b"0000000001"),
        Body::CancelSm(cancel) => is(&cancel.destination.addr, b"447700900456"),
        _ => false,
    }
}

fn is_body(body: &Body<'_>, which: Which) -> bool {
    match (which, body) {
        (
            Which::Bind(system_type, address_range),
            Body::BindReceiver(bind) | Body::BindTransceiver(bind),
        ) => is_bind(bind, system_type, address_range),
        (Which::AsWritten, _) => is_as_written(body),
        (_, Body::SubmitSm(message) | Body::DeliverSm(message)) => is_message(message, which),
        _ => false,
    }
}

fn is_pdu(octets: &[u8], which: Which) -> bool {
    match Pdu::read(octets) {
        Ok(pdu) => is_body(&pdu.body, which),
        Err(_) => false,
    }
}

const PDUS: &[(&[u8], Which, &str)] = &[
    (&BIND, Which::Bind(b"", b""), "a bind"),
    (
        &vectors::BIND_RECEIVER,
        Which::Bind(b"VMA", b"4477009"),
        "a bind of another",
    ),
    (&SUBMIT, Which::Hello, "a submit_sm"),
    (
        &vectors::SUBMIT_SM,
        Which::HelloForADay,
        "a submit_sm of another",
    ),
    (&vectors::SUBMIT_SM_UDHI, Which::Part, "a part"),
    (&vectors::SUBMIT_SM_PAYLOAD, Which::Payload, "a payload"),
    (&vectors::DELIVER_SM, Which::Receipt, "a receipt"),
    (
        &vectors::BIND_TRANSCEIVER_RESP,
        Which::AsWritten,
        "a bind_transceiver_resp",
    ),
    (
        &vectors::SUBMIT_SM_RESP,
        Which::AsWritten,
        "a submit_sm_resp",
    ),
    (
        &vectors::DELIVER_SM_RESP,
        Which::AsWritten,
        "a deliver_sm_resp",
    ),
    (&vectors::QUERY_SM_RESP, Which::AsWritten, "a query_sm_resp"),
    (&vectors::QUERY_SM, Which::AsWritten, "a query_sm"),
    (&vectors::CANCEL_SM, Which::AsWritten, "a cancel_sm"),
];

#[test]
fn pdus_are_read() -> Result<(), Fail> {
    for (octets, command, number, status) in COMMANDS {
        holds(is_command(octets, *command, *number, *status), "a command")?;
    }
    for (octets, which, name) in PDUS {
        holds(is_pdu(octets, *which), name)?;
    }
    holds(has_bad_length(&SHORT_LENGTH), "a length of 15")?;
    holds(is_short_header(Header::read(&SHORT_LENGTH)), "its header")?;
    holds(TlvTag::MessageState.number() == 0x0427, "a tag")
}

// An answer that is written.
#[derive(Clone, Copy)]
enum Answer {
    EnquireLink,
    Bind,
    Submit,
}

fn written(alloc: Global, answer: Answer) -> Result<Octets, AllocError> {
    match answer {
        Answer::EnquireLink => {
            let pdu = Pdu {
                command_status: CommandStatus::ESME_ROK.number(),
                sequence_number: 1,
                body: Body::EnquireLinkResp,
            };
            pdu.write(alloc)
        }
        Answer::Bind => {
            let pdu = Pdu {
                command_status: 0,
                sequence_number: 1,
                body: Body::BindTransceiverResp(Some(BindResp {
                    system_id: OctetView::of(b"smsc"),
                    tlvs: Tlvs::none(),
                })),
            };
            pdu.write(alloc)
        }
        Answer::Submit => {
            let pdu = Pdu {
                command_status: 0,
                sequence_number: 2,
                body: Body::SubmitSmResp(Some(MessageResp {
                    message_id: OctetView::of(b"0000000001"),
                })),
            };
            pdu.write(alloc)
        }
    }
}

const ANSWERS: &[(Answer, &[u8], &str)] = &[
    (Answer::EnquireLink, &ENQUIRE_ANSWER, "an enquire_link_resp"),
    (Answer::Bind, &BIND_ANSWER, "a bind_transceiver_resp"),
    (Answer::Submit, &SUBMIT_ANSWER, "a submit_sm_resp"),
];

#[test]
fn answers_are_written(rt: HostRuntime) -> Result<(), Fail> {
    for (answer, octets, name) in ANSWERS {
        holds(is_written(written(rt.alloc(), *answer), &[*octets]), name)?;
    }
    Ok(())
}
