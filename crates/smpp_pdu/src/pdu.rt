ghost use Rattle.std.specs.Prelude.{◌≡◌, IfOk, Ok};
ghost use Rattle.sms_base.specs.Reading.{Takes};
ghost use Rattle.smpp_pdu.specs.PduGrammar.{IsPdu};
ghost use Rattle.smpp_pdu.specs.PduReading.{body_in, cut_short, pdu_at};
ghost use Rattle.smpp_pdu.specs.Writing.{IsWritable, written};
ghost use Rattle.smpp_pdu.specs.declared.pdu.Pdu.{Pdu as PduOf};

use crate::body::Body;
use crate::command::CommandId;
use crate::fault::PduFault;
use crate::fields::four;
use crate::writing::put_four;
use sms_base::{Cursor, Octets};
use std::alloc::{AllocError, Global};

/// A PDU over the octets that it was read from.
#[derive(Debug, Drop)]
pub struct Pdu<'a> {
    /// Zero in requests; of a response `CommandStatus` names the known ones.
    pub command_status: u32,
    /// By which a response is joined to its request.
    pub sequence_number: u32,
    pub body: Body<'a>,
}

impl<'a> Pdu<'a> {
    /// The PDU that the octets are, all of them, or the first fault from the left.
    ///
    /// The command_length is judged first, then the command_id, then the body. Missing octets are reported before
    /// octets that are left over, and those after every other fault.
    pub fn read(octets: &'a [u8]) -> Result<Pdu<'a>, PduFault>
        // What is read is in the grammar.
        ensures found { IfOk result (λ p. IsPdu octets.entry.now p) }
        // What is in the grammar is read.
        ensures only { (p : PduOf) → IsPdu octets.entry.now p → result ≡ Ok p }
        // Which fault it is.
        ensures exact { result ≡ pdu_at octets.entry.now }
    {
        Pdu::at(octets)
    }

    #[tactic(auto, unfolding(crate::specs::PduReading::pdu_at))]
    fn at(octets: &'a [u8]) -> Result<Pdu<'a>, PduFault>
        ensures { result ≡ pdu_at octets.entry.now }
    {
        let mut cursor = Cursor::of(octets);
        let command_length = four(&mut cursor)?;
        if !(16..=65_536).contains(&command_length) {
            return Err(PduFault::BadLength);
        }
        let command_id = four(&mut cursor)?;
        let Some(command) = CommandId::of(command_id) else {
            return Err(PduFault::UnknownCommand);
        };
        let command_status = four(&mut cursor)?;
        let sequence_number = four(&mut cursor)?;
        let body = body_of(command, command_length - 16, cursor.rest())?;
        Ok(Pdu {
            command_status,
            sequence_number,
            body,
        })
    }

    /// The octets of the PDU, in one growth.
    pub fn write(&self, alloc: Global) -> Result<Octets, AllocError>
        requires { IsWritable self.now }
        // The one list that is written.
        ensures ok { IfOk result (λ octets. octets ≡ written self.now) }
        // It is in the grammar.
        ensures pdu { IfOk result (λ octets. IsPdu octets self.now) }
        // It is read as the same value.
        ensures again { IfOk result (λ octets. pdu_at octets ≡ Ok self.now) }
    {
        self.octets(alloc)
    }

    fn octets(&self, alloc: Global) -> Result<Octets, AllocError>
        requires { IsWritable self.now }
        ensures { IfOk result (λ octets. octets ≡ written self.now) }
    {
        let len = 16 + self.body.len();
        let mut out = Vec::with_capacity(alloc, len)?;
        put_four(&mut out, len as u32);
        put_four(&mut out, self.body.command().number());
        put_four(&mut out, self.command_status);
        put_four(&mut out, self.sequence_number);
        self.body.put(&mut out);
        Ok(Octets::from_vec(out))
    }
}

// The body of so many octets.
#[tactic(auto, unfolding(crate::specs::PduReading::body_in))]
fn body_of<'a>(command: CommandId, len: u32, octets: &'a [u8]) -> Result<Body<'a>, PduFault>
    ensures { result ≡ body_in command len octets.entry.now }
{
    let len = len as usize;
    if octets.len() < len {
        return Err(missing(Body::read(command, octets)));
    }
    let body = Body::read(command, &octets[..len])?;
    if octets.len() != len {
        return Err(PduFault::BadLength);
    }
    Ok(body)
}

// The fault of octets that end before the PDU does.
fn missing(read: Result<Body<'_>, PduFault>) -> PduFault
    ensures { result ≡ cut_short read.entry }
{
    match read {
        Err(PduFault::FieldTooLong) => PduFault::FieldTooLong,
        Err(PduFault::ShortMessageTooLong) => PduFault::ShortMessageTooLong,
        _ => PduFault::Truncated,
    }
}
