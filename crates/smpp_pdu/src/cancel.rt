ghost use Rattle.std.specs.Prelude.{◌≡◌, ◌≤◌, ◌+◌, ◌++◌, length, vec_capacity, vec_len};
ghost use Rattle.smpp_pdu.specs.BodyGrammar.{cancel_octets};
ghost use Rattle.smpp_pdu.specs.BodyReading.{cancel_at};

use crate::address::SmeAddress;
use crate::fault::PduFault;
use crate::fields::c_string;
use crate::writing::put_text;
use sms_base::{Cursor, OctetView};

/// A wish that a message is not delivered (SMPP v3.4 4.9.1).
#[derive(Debug, Drop)]
pub struct CancelSm<'a> {
    /// Up to 5 octets.
    pub service_type: OctetView<'a>,
    /// Up to 64 octets.
    pub message_id: OctetView<'a>,
    pub source: SmeAddress<'a>,
    pub destination: SmeAddress<'a>,
}

impl<'a> CancelSm<'a> {
    // The body of a cancel_sm.
    #[tactic(auto, unfolding(crate::specs::BodyReading::cancel_at))]
    pub(crate) fn read(octets: &'a [u8]) -> Result<CancelSm<'a>, PduFault>
        ensures { result ≡ cancel_at octets.entry.now }
    {
        let mut cursor = Cursor::of(octets);
        let service_type = c_string(&mut cursor, 6)?;
        let message_id = c_string(&mut cursor, 65)?;
        let source = SmeAddress::read(&mut cursor)?;
        let destination = SmeAddress::read(&mut cursor)?;
        cursor.end(PduFault::BadLength)?;
        Ok(CancelSm {
            service_type,
            message_id,
            source,
            destination,
        })
    }

    // How many octets are written.
    #[tactic(auto, using(crate::proofs::Lengths::cancel_length))]
    pub(crate) fn len(&self) -> usize
        requires { length (cancel_octets self.now) ≤ 65520 }
        ensures { result ≡ length (cancel_octets self.now) }
    {
        self.service_type.as_slice().len()
            + self.message_id.as_slice().len()
            + self.source.len()
            + self.destination.len()
            + 2
    }

    // Writes the octets.
    #[tactic(auto, using(crate::proofs::Lengths::cancel_length, crate::proofs::Lengths::last_length, crate::proofs::Lengths::counted_length))]
    pub(crate) fn put(&self, out: &mut Vec<u8>)
        requires { vec_len out.old + length (cancel_octets self.now) ≤ vec_capacity out.old }
        ensures items { out.new.items ≡ out.old.items ++ cancel_octets self.now }
        ensures len { vec_len out.new ≡ vec_len out.old + length (cancel_octets self.now) }
        ensures capacity { vec_capacity out.old ≤ vec_capacity out.new }
    {
        put_text(out, &self.service_type);
        put_text(out, &self.message_id);
        self.source.put(out);
        self.destination.put(out);
    }
}
