ghost use Rattle.std.specs.Prelude.{◌≡◌, ◌≤◌, ◌+◌, ◌++◌, length, vec_capacity, vec_len};
ghost use Rattle.smpp_pdu.specs.BodyGrammar.{IsMessageValue, message_resp_octets};
ghost use Rattle.smpp_pdu.specs.Writing.{written_message};
ghost use Rattle.smpp_pdu.specs.PduReading.{or_none};
ghost use Rattle.smpp_pdu.specs.BodyReading.{message_at, message_resp_at};

use crate::address::SmeAddress;
use crate::fault::PduFault;
use crate::fields::{c_string, short_message, time};
use crate::tlv::{Tlvs, optional_parameters};
use crate::writing::{put_counted, put_octet, put_text};
use sms_base::{Cursor, OctetView};

/// A message that is submitted (SMPP v3.4 4.4.1) or delivered (4.6.1).
#[derive(Debug, Drop)]
pub struct Message<'a> {
    /// Up to 5 octets.
    pub service_type: OctetView<'a>,
    pub source: SmeAddress<'a>,
    pub destination: SmeAddress<'a>,
    pub esm_class: u8,
    pub protocol_id: u8,
    pub priority_flag: u8,
    /// None or 16 octets.
    pub schedule_delivery_time: OctetView<'a>,
    /// None or 16 octets.
    pub validity_period: OctetView<'a>,
    pub registered_delivery: u8,
    pub replace_if_present_flag: u8,
    pub data_coding: u8,
    pub sm_default_msg_id: u8,
    /// Up to 254 octets.
    pub short_message: OctetView<'a>,
    pub tlvs: Tlvs<'a>,
}

/// The answer to a message (SMPP v3.4 4.4.2, 4.6.2).
#[derive(Debug, Drop)]
pub struct MessageResp<'a> {
    /// The number that the centre gave the message, up to 64 octets, none of a message that was delivered.
    pub message_id: OctetView<'a>,
}

impl<'a> Message<'a> {
    // The body of a message.
    #[tactic(auto, unfolding(crate::specs::BodyReading::message_at))]
    pub(crate) fn read(octets: &'a [u8]) -> Result<Message<'a>, PduFault>
        ensures { result ≡ message_at octets.entry.now }
    {
        let mut cursor = Cursor::of(octets);
        let service_type = c_string(&mut cursor, 6)?;
        let source = SmeAddress::read(&mut cursor)?;
        let destination = SmeAddress::read(&mut cursor)?;
        let esm_class = cursor.octet(PduFault::Truncated)?;
        let protocol_id = cursor.octet(PduFault::Truncated)?;
        let priority_flag = cursor.octet(PduFault::Truncated)?;
        let schedule_delivery_time = time(&mut cursor)?;
        let validity_period = time(&mut cursor)?;
        let registered_delivery = cursor.octet(PduFault::Truncated)?;
        let replace_if_present_flag = cursor.octet(PduFault::Truncated)?;
        let data_coding = cursor.octet(PduFault::Truncated)?;
        let sm_default_msg_id = cursor.octet(PduFault::Truncated)?;
        let short_message = short_message(&mut cursor)?;
        let tlvs = optional_parameters(&mut cursor)?;
        Ok(Message {
            service_type,
            source,
            destination,
            esm_class,
            protocol_id,
            priority_flag,
            schedule_delivery_time,
            validity_period,
            registered_delivery,
            replace_if_present_flag,
            data_coding,
            sm_default_msg_id,
            short_message,
            tlvs,
        })
    }

    // How many octets are written.
    #[tactic(auto, using(crate::proofs::Lengths::message_length))]
    pub(crate) fn len(&self) -> usize
        requires { length (written_message self.now) ≤ 65520 }
        ensures { result ≡ length (written_message self.now) }
    {
        self.service_type.as_slice().len()
            + self.source.len()
            + self.destination.len()
            + self.schedule_delivery_time.as_slice().len()
            + self.validity_period.as_slice().len()
            + self.short_message.as_slice().len()
            + self.tlvs.len()
            + 11
    }

    // Writes the octets.
    #[tactic(auto, using(crate::proofs::Lengths::message_length, crate::proofs::Lengths::last_length, crate::proofs::Lengths::counted_length))]
    pub(crate) fn put(&self, out: &mut Vec<u8>)
        requires limits { IsMessageValue self.now }
        requires short { length (written_message self.now) ≤ 65520 }
        requires room { vec_len out.old + length (written_message self.now) ≤ vec_capacity out.old }
        ensures items { out.new.items ≡ out.old.items ++ written_message self.now }
        ensures len { vec_len out.new ≡ vec_len out.old + length (written_message self.now) }
        ensures capacity { vec_capacity out.old ≤ vec_capacity out.new }
    {
        put_text(out, &self.service_type);
        self.source.put(out);
        self.destination.put(out);
        put_octet(out, self.esm_class);
        put_octet(out, self.protocol_id);
        put_octet(out, self.priority_flag);
        put_text(out, &self.schedule_delivery_time);
        put_text(out, &self.validity_period);
        put_octet(out, self.registered_delivery);
        put_octet(out, self.replace_if_present_flag);
        put_octet(out, self.data_coding);
        put_octet(out, self.sm_default_msg_id);
        put_counted(out, &self.short_message);
        self.tlvs.put(out);
    }
}

impl<'a> MessageResp<'a> {
    // The body of an answer to a message.
    #[tactic(auto, unfolding(crate::specs::BodyReading::message_resp_at))]
    pub(crate) fn read(octets: &'a [u8]) -> Result<MessageResp<'a>, PduFault>
        ensures { result ≡ message_resp_at octets.entry.now }
    {
        let mut cursor = Cursor::of(octets);
        let message_id = c_string(&mut cursor, 65)?;
        cursor.end(PduFault::BadLength)?;
        Ok(MessageResp { message_id })
    }

    // The body of a response, if it has one.
    pub(crate) fn read_if_any(octets: &'a [u8]) -> Result<Option<MessageResp<'a>>, PduFault>
        ensures { result ≡ or_none message_resp_at octets.entry.now }
    {
        if octets.is_empty() {
            return Ok(None);
        }
        let body = MessageResp::read(octets)?;
        Ok(Some(body))
    }

    // How many octets are written.
    #[tactic(auto, using(crate::proofs::Lengths::message_resp_length))]
    pub(crate) fn len(&self) -> usize
        requires { length (message_resp_octets self.now) ≤ 65520 }
        ensures { result ≡ length (message_resp_octets self.now) }
    {
        self.message_id.as_slice().len() + 1
    }

    // Writes the octets.
    #[tactic(auto, using(crate::proofs::Lengths::message_resp_length, crate::proofs::Lengths::last_length, crate::proofs::Lengths::counted_length))]
    pub(crate) fn put(&self, out: &mut Vec<u8>)
        requires { vec_len out.old + length (message_resp_octets self.now) ≤ vec_capacity out.old }
        ensures items { out.new.items ≡ out.old.items ++ message_resp_octets self.now }
        ensures len { vec_len out.new ≡ vec_len out.old + length (message_resp_octets self.now) }
        ensures capacity { vec_capacity out.old ≤ vec_capacity out.new }
    {
        put_text(out, &self.message_id);
    }
}
