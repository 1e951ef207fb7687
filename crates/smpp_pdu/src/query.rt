ghost use Rattle.std.specs.Prelude.{◌≡◌, ◌≤◌, ◌+◌, ◌++◌, length, vec_capacity, vec_len};
ghost use Rattle.smpp_pdu.specs.BodyGrammar.{query_octets, query_resp_octets};
ghost use Rattle.smpp_pdu.specs.PduReading.{or_none};
ghost use Rattle.smpp_pdu.specs.BodyReading.{query_at, query_resp_at};

use crate::address::SmeAddress;
use crate::fault::PduFault;
use crate::fields::{c_string, time};
use crate::writing::{put_octet, put_text};
use sms_base::{Cursor, OctetView};

/// A question for a message's state (SMPP v3.4 4.8.1).
#[derive(Debug, Drop)]
pub struct QuerySm<'a> {
    /// Up to 64 octets.
    pub message_id: OctetView<'a>,
    pub source: SmeAddress<'a>,
}

/// A message's state (SMPP v3.4 4.8.2).
#[derive(Debug, Drop)]
pub struct QuerySmResp<'a> {
    /// Up to 64 octets.
    pub message_id: OctetView<'a>,
    /// When it became final, 16 octets, or none.
    pub final_date: OctetView<'a>,
    pub message_state: u8,
    pub error_code: u8,
}

impl<'a> QuerySm<'a> {
    // The body of a question.
    #[tactic(auto, unfolding(crate::specs::BodyReading::query_at))]
    pub(crate) fn read(octets: &'a [u8]) -> Result<QuerySm<'a>, PduFault>
        ensures { result ≡ query_at octets.entry.now }
    {
        let mut cursor = Cursor::of(octets);
        let message_id = c_string(&mut cursor, 65)?;
        let source = SmeAddress::read(&mut cursor)?;
        cursor.end(PduFault::BadLength)?;
        Ok(QuerySm { message_id, source })
    }

    // How many octets are written.
    #[tactic(auto, using(crate::proofs::Lengths::query_length))]
    pub(crate) fn len(&self) -> usize
        requires { length (query_octets self.now) ≤ 65520 }
        ensures { result ≡ length (query_octets self.now) }
    {
        self.message_id.as_slice().len() + self.source.len() + 1
    }

    // Writes the octets.
    #[tactic(auto, using(crate::proofs::Lengths::query_length, crate::proofs::Lengths::last_length, crate::proofs::Lengths::counted_length))]
    pub(crate) fn put(&self, out: &mut Vec<u8>)
        requires { vec_len out.old + length (query_octets self.now) ≤ vec_capacity out.old }
        ensures items { out.new.items ≡ out.old.items ++ query_octets self.now }
        ensures len { vec_len out.new ≡ vec_len out.old + length (query_octets self.now) }
        ensures capacity { vec_capacity out.old ≤ vec_capacity out.new }
    {
        put_text(out, &self.message_id);
        self.source.put(out);
    }
}

impl<'a> QuerySmResp<'a> {
    // The body of its answer.
    #[tactic(auto, unfolding(crate::specs::BodyReading::query_resp_at))]
    pub(crate) fn read(octets: &'a [u8]) -> Result<QuerySmResp<'a>, PduFault>
        ensures { result ≡ query_resp_at octets.entry.now }
    {
        let mut cursor = Cursor::of(octets);
        let message_id = c_string(&mut cursor, 65)?;
        let final_date = time(&mut cursor)?;
        let message_state = cursor.octet(PduFault::Truncated)?;
        let error_code = cursor.octet(PduFault::Truncated)?;
        cursor.end(PduFault::BadLength)?;
        Ok(QuerySmResp {
            message_id,
            final_date,
            message_state,
            error_code,
        })
    }

    // The body of a response, if it has one.
    pub(crate) fn read_if_any(octets: &'a [u8]) -> Result<Option<QuerySmResp<'a>>, PduFault>
        ensures { result ≡ or_none query_resp_at octets.entry.now }
    {
        if octets.is_empty() {
            return Ok(None);
        }
        let body = QuerySmResp::read(octets)?;
        Ok(Some(body))
    }

    // How many octets are written.
    #[tactic(auto, using(crate::proofs::Lengths::query_resp_length))]
    pub(crate) fn len(&self) -> usize
        requires { length (query_resp_octets self.now) ≤ 65520 }
        ensures { result ≡ length (query_resp_octets self.now) }
    {
        self.message_id.as_slice().len() + self.final_date.as_slice().len() + 4
    }

    // Writes the octets.
    #[tactic(auto, using(crate::proofs::Lengths::query_resp_length, crate::proofs::Lengths::last_length, crate::proofs::Lengths::counted_length))]
    pub(crate) fn put(&self, out: &mut Vec<u8>)
        requires { vec_len out.old + length (query_resp_octets self.now) ≤ vec_capacity out.old }
        ensures items { out.new.items ≡ out.old.items ++ query_resp_octets self.now }
        ensures len { vec_len out.new ≡ vec_len out.old + length (query_resp_octets self.now) }
        ensures capacity { vec_capacity out.old ≤ vec_capacity out.new }
    {
        put_text(out, &self.message_id);
        put_text(out, &self.final_date);
        put_octet(out, self.message_state);
        put_octet(out, self.error_code);
    }
}
