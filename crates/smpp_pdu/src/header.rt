ghost use Rattle.std.specs.Prelude.{◌≡◌, ◌<◌, ◌++◌, List, ℕ, length, IfSome, IfNone};
ghost use Rattle.sms_base.specs.Reading.{Takes};
ghost use Rattle.smpp_pdu.specs.PduGrammar.{header_octets};
ghost use Rattle.smpp_pdu.specs.PduReading.{header_in};

use crate::fault::PduFault;
use crate::fields::four;
use sms_base::Cursor;

/// The sixteen octets that each PDU begins with (SMPP v3.4 3.2.1), whatever its numbers are.
#[derive(Clone, Copy, PartialEq, Eq)]
pub struct Header {
    /// The octets of the PDU, this header's among them: 16 to 65,536 where it is good.
    pub command_length: u32,
    /// The command's number; bit 31 is set for a response.
    pub command_id: u32,
    pub command_status: u32,
    pub sequence_number: u32,
}

impl Header {
    /// The header that the octets begin with, once its sixteen octets are there.
    pub fn read(octets: &[u8]) -> Option<Header>
        ensures found { IfSome result (λ h. (rest : List ℕ) × (octets.now ≡ header_octets h ++ rest)) }
        ensures none { IfNone result (length octets.now < 16) }
    {
        match Header::next(&mut Cursor::of(octets)) {
            Ok(header) => Some(header),
            Err(_) => None,
        }
    }

    // The header that is next.
    #[tactic(auto, unfolding(crate::specs::PduReading::header_in))]
    fn next(cursor: &mut Cursor<'_>) -> Result<Header, PduFault>
        ensures { Takes (λ x. x) result cursor.new (header_in cursor.old) }
    {
        let command_length = four(cursor)?;
        let command_id = four(cursor)?;
        let command_status = four(cursor)?;
        let sequence_number = four(cursor)?;
        Ok(Header {
            command_length,
            command_id,
            command_status,
            sequence_number,
        })
    }
}
