ghost use Rattle.std.specs.Prelude.{◌≡◌, ◌≤◌, ◌+◌, ◌++◌, length, vec_capacity, vec_len};
ghost use Rattle.smpp_pdu.specs.BodyGrammar.{bind_octets};
ghost use Rattle.smpp_pdu.specs.Writing.{written_bind_resp};
ghost use Rattle.smpp_pdu.specs.PduReading.{or_none};
ghost use Rattle.smpp_pdu.specs.BodyReading.{bind_at, bind_resp_at};

use crate::fault::PduFault;
use crate::fields::c_string;
use crate::tlv::{Tlvs, optional_parameters};
use crate::writing::{put_octet, put_text};
use sms_base::{Cursor, OctetView};
use std::fmt;

/// What an application binds with (SMPP v3.4 4.1.1, 4.1.3, 4.1.5), which has no optional parameters.
#[derive(Drop)]
pub struct Bind<'a> {
    /// Up to 15 octets.
    pub system_id: OctetView<'a>,
    /// Up to 8 octets.
    pub password: OctetView<'a>,
    /// Up to 12 octets.
    pub system_type: OctetView<'a>,
    pub interface_version: u8,
    pub addr_ton: u8,
    pub addr_npi: u8,
    /// Up to 40 octets.
    pub address_range: OctetView<'a>,
}

// The password is a secret, so it is not shown.
impl<'a> fmt::Debug for Bind<'a> {
    fn fmt<W: fmt::Write>(&self, f: &mut fmt::Formatter<W>) -> fmt::Result {
        f.debug_struct("Bind")
            .field("system_id", &self.system_id)
            .field("system_type", &self.system_type)
            .field("address_range", &self.address_range)
            .finish_non_exhaustive()
    }
}

/// The answer to a bind (SMPP v3.4 4.1.2, 4.1.4, 4.1.6).
#[derive(Debug, Drop)]
pub struct BindResp<'a> {
    /// The name of the centre, up to 15 octets.
    pub system_id: OctetView<'a>,
    pub tlvs: Tlvs<'a>,
}

impl<'a> Bind<'a> {
    // The body of a bind.
    #[tactic(auto, unfolding(crate::specs::BodyReading::bind_at))]
    pub(crate) fn read(octets: &'a [u8]) -> Result<Bind<'a>, PduFault>
        ensures { result ≡ bind_at octets.entry.now }
    {
        let mut cursor = Cursor::of(octets);
        let system_id = c_string(&mut cursor, 16)?;
        let password = c_string(&mut cursor, 9)?;
        let system_type = c_string(&mut cursor, 13)?;
        let interface_version = cursor.octet(PduFault::Truncated)?;
        let addr_ton = cursor.octet(PduFault::Truncated)?;
        let addr_npi = cursor.octet(PduFault::Truncated)?;
        let address_range = c_string(&mut cursor, 41)?;
        cursor.end(PduFault::BadLength)?;
        Ok(Bind {
            system_id,
            password,
            system_type,
            interface_version,
            addr_ton,
            addr_npi,
            address_range,
        })
    }

    // How many octets are written.
    #[tactic(auto, using(crate::proofs::Lengths::bind_length))]
    pub(crate) fn len(&self) -> usize
        requires { length (bind_octets self.now) ≤ 65520 }
        ensures { result ≡ length (bind_octets self.now) }
    {
        self.system_id.as_slice().len()
            + self.password.as_slice().len()
            + self.system_type.as_slice().len()
            + self.address_range.as_slice().len()
            + 7
    }

    // Writes the octets.
    #[tactic(auto, using(crate::proofs::Lengths::bind_length, crate::proofs::Lengths::last_length, crate::proofs::Lengths::counted_length))]
    pub(crate) fn put(&self, out: &mut Vec<u8>)
        requires { vec_len out.old + length (bind_octets self.now) ≤ vec_capacity out.old }
        ensures items { out.new.items ≡ out.old.items ++ bind_octets self.now }
        ensures len { vec_len out.new ≡ vec_len out.old + length (bind_octets self.now) }
        ensures capacity { vec_capacity out.old ≤ vec_capacity out.new }
    {
        put_text(out, &self.system_id);
        put_text(out, &self.password);
        put_text(out, &self.system_type);
        put_octet(out, self.interface_version);
        put_octet(out, self.addr_ton);
        put_octet(out, self.addr_npi);
        put_text(out, &self.address_range);
    }
}

impl<'a> BindResp<'a> {
    // The body of an answer to a bind.
    #[tactic(auto, unfolding(crate::specs::BodyReading::bind_resp_at))]
    pub(crate) fn read(octets: &'a [u8]) -> Result<BindResp<'a>, PduFault>
        ensures { result ≡ bind_resp_at octets.entry.now }
    {
        let mut cursor = Cursor::of(octets);
        let system_id = c_string(&mut cursor, 16)?;
        let tlvs = optional_parameters(&mut cursor)?;
        Ok(BindResp { system_id, tlvs })
    }

    // The body of a response, if it has one.
    pub(crate) fn read_if_any(octets: &'a [u8]) -> Result<Option<BindResp<'a>>, PduFault>
        ensures { result ≡ or_none bind_resp_at octets.entry.now }
    {
        if octets.is_empty() {
            return Ok(None);
        }
        let body = BindResp::read(octets)?;
        Ok(Some(body))
    }

    // How many octets are written.
    #[tactic(auto, using(crate::proofs::Lengths::bind_resp_length))]
    pub(crate) fn len(&self) -> usize
        requires { length (written_bind_resp self.now) ≤ 65520 }
        ensures { result ≡ length (written_bind_resp self.now) }
    {
        self.system_id.as_slice().len() + self.tlvs.len() + 1
    }

    // Writes the octets.
    #[tactic(auto, using(crate::proofs::Lengths::bind_resp_length, crate::proofs::Lengths::last_length, crate::proofs::Lengths::counted_length))]
    pub(crate) fn put(&self, out: &mut Vec<u8>)
        requires short { length (written_bind_resp self.now) ≤ 65520 }
        requires room { vec_len out.old + length (written_bind_resp self.now) ≤ vec_capacity out.old }
        ensures items { out.new.items ≡ out.old.items ++ written_bind_resp self.now }
        ensures len { vec_len out.new ≡ vec_len out.old + length (written_bind_resp self.now) }
        ensures capacity { vec_capacity out.old ≤ vec_capacity out.new }
    {
        put_text(out, &self.system_id);
        self.tlvs.put(out);
    }
}
