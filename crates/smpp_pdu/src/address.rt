ghost use Rattle.std.specs.Prelude.{◌≡◌, ◌≤◌, ◌+◌, ◌++◌, length, vec_capacity, vec_len};
ghost use Rattle.smpp_pdu.specs.BodyGrammar.{address_octets};
ghost use Rattle.sms_base.specs.Reading.{Takes};
ghost use Rattle.smpp_pdu.specs.BodyReading.{address_in};

use crate::fault::PduFault;
use crate::fields::c_string;
use crate::writing::{put_octet, put_text};
use sms_base::{Cursor, OctetView};

/// The address of a short message entity in a PDU, which may be none that the centre takes.
#[derive(Debug, Drop)]
pub struct SmeAddress<'a> {
    pub ton: u8,
    pub npi: u8,
    /// Up to 20 octets.
    pub addr: OctetView<'a>,
}

impl<'a> SmeAddress<'a> {
    // The address that is next.
    #[tactic(auto, unfolding(crate::specs::BodyReading::address_in))]
    pub(crate) fn read(cursor: &mut Cursor<'a>) -> Result<SmeAddress<'a>, PduFault>
        ensures { Takes (λ x. x) result cursor.new (address_in cursor.old) }
    {
        let ton = cursor.octet(PduFault::Truncated)?;
        let npi = cursor.octet(PduFault::Truncated)?;
        let addr = c_string(cursor, 21)?;
        Ok(SmeAddress { ton, npi, addr })
    }

    // How many octets are written.
    #[tactic(auto, using(crate::proofs::Lengths::address_length))]
    pub(crate) fn len(&self) -> usize
        requires { length (address_octets self.now) ≤ 65520 }
        ensures { result ≡ length (address_octets self.now) }
    {
        self.addr.as_slice().len() + 3
    }

    // Writes the octets.
    #[tactic(auto, using(crate::proofs::Lengths::address_length, crate::proofs::Lengths::last_length, crate::proofs::Lengths::counted_length))]
    pub(crate) fn put(&self, out: &mut Vec<u8>)
        requires { vec_len out.old + length (address_octets self.now) ≤ vec_capacity out.old }
        ensures items { out.new.items ≡ out.old.items ++ address_octets self.now }
        ensures len { vec_len out.new ≡ vec_len out.old + length (address_octets self.now) }
        ensures capacity { vec_capacity out.old ≤ vec_capacity out.new }
    {
        put_octet(out, self.ton);
        put_octet(out, self.npi);
        put_text(out, &self.addr);
    }
}
