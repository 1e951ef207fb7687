ghost use Rattle.std.specs.Prelude.{◌≡◌, ◌≤◌, ◌+◌, ◌++◌, length, vec_capacity, vec_len};
ghost use Rattle.sms_base.specs.Reading.{end_in};
ghost use Rattle.smpp_pdu.specs.declared.fault.PduFault.TheVariants.{BadLength};
ghost use Rattle.smpp_pdu.specs.PduGrammar.{command_of_body};
ghost use Rattle.smpp_pdu.specs.PduReading.{body_at};
ghost use Rattle.smpp_pdu.specs.Writing.{written_body, IsBodyValue};

use crate::bind::{Bind, BindResp};
use crate::cancel::CancelSm;
use crate::command::CommandId;
use crate::fault::PduFault;
use crate::message::{Message, MessageResp};
use crate::query::{QuerySm, QuerySmResp};
use sms_base::Cursor;

/// The body of a PDU by its command. A response may have none.
#[derive(Debug, Drop)]
pub enum Body<'a> {
    BindReceiver(Bind<'a>),
    BindTransmitter(Bind<'a>),
    BindTransceiver(Bind<'a>),
    SubmitSm(Message<'a>),
    DeliverSm(Message<'a>),
    QuerySm(QuerySm<'a>),
    CancelSm(CancelSm<'a>),
    Unbind,
    EnquireLink,
    GenericNack,
    BindReceiverResp(Option<BindResp<'a>>),
    BindTransmitterResp(Option<BindResp<'a>>),
    BindTransceiverResp(Option<BindResp<'a>>),
    SubmitSmResp(Option<MessageResp<'a>>),
    DeliverSmResp(Option<MessageResp<'a>>),
    QuerySmResp(Option<QuerySmResp<'a>>),
    CancelSmResp,
    UnbindResp,
    EnquireLinkResp,
}

impl<'a> Body<'a> {
    /// The command of the body.
    pub fn command(&self) -> CommandId
        ensures { result ≡ command_of_body self.now }
    {
        match self {
            Body::BindReceiver(_) => CommandId::BindReceiver,
            Body::BindTransmitter(_) => CommandId::BindTransmitter,
            Body::BindTransceiver(_) => CommandId::BindTransceiver,
            Body::SubmitSm(_) => CommandId::SubmitSm,
            Body::DeliverSm(_) => CommandId::DeliverSm,
            Body::QuerySm(_) => CommandId::QuerySm,
            Body::CancelSm(_) => CommandId::CancelSm,
            Body::Unbind => CommandId::Unbind,
            Body::EnquireLink => CommandId::EnquireLink,
            Body::GenericNack => CommandId::GenericNack,
            Body::BindReceiverResp(_) => CommandId::BindReceiverResp,
            Body::BindTransmitterResp(_) => CommandId::BindTransmitterResp,
            Body::BindTransceiverResp(_) => CommandId::BindTransceiverResp,
            Body::SubmitSmResp(_) => CommandId::SubmitSmResp,
            Body::DeliverSmResp(_) => CommandId::DeliverSmResp,
            Body::QuerySmResp(_) => CommandId::QuerySmResp,
            Body::CancelSmResp => CommandId::CancelSmResp,
            Body::UnbindResp => CommandId::UnbindResp,
            Body::EnquireLinkResp => CommandId::EnquireLinkResp,
        }
    }

    // The body of that command that the octets are.
    #[tactic(auto, unfolding(crate::specs::PduReading::body_at))]
    pub(crate) fn read(command: CommandId, octets: &'a [u8]) -> Result<Body<'a>, PduFault>
        ensures { result ≡ body_at command octets.entry.now }
    {
        match command {
            CommandId::BindReceiver => Ok(Body::BindReceiver(Bind::read(octets)?)),
            CommandId::BindTransmitter => Ok(Body::BindTransmitter(Bind::read(octets)?)),
            CommandId::BindTransceiver => Ok(Body::BindTransceiver(Bind::read(octets)?)),
            CommandId::SubmitSm => Ok(Body::SubmitSm(Message::read(octets)?)),
            CommandId::DeliverSm => Ok(Body::DeliverSm(Message::read(octets)?)),
            CommandId::QuerySm => Ok(Body::QuerySm(QuerySm::read(octets)?)),
            CommandId::CancelSm => Ok(Body::CancelSm(CancelSm::read(octets)?)),
            CommandId::Unbind => {
                nothing(octets)?;
                Ok(Body::Unbind)
            }
            CommandId::EnquireLink => {
                nothing(octets)?;
                Ok(Body::EnquireLink)
            }
            CommandId::GenericNack => {
                nothing(octets)?;
                Ok(Body::GenericNack)
            }
            CommandId::BindReceiverResp => Ok(Body::BindReceiverResp(BindResp::read_if_any(
                octets,
            )?)),
            CommandId::BindTransmitterResp => Ok(Body::BindTransmitterResp(BindResp::read_if_any(
                octets,
            )?)),
            CommandId::BindTransceiverResp => Ok(Body::BindTransceiverResp(BindResp::read_if_any(
                octets,
            )?)),
            CommandId::SubmitSmResp => Ok(Body::SubmitSmResp(MessageResp::read_if_any(octets)?)),
            CommandId::DeliverSmResp => Ok(Body::DeliverSmResp(MessageResp::read_if_any(octets)?)),
            CommandId::QuerySmResp => Ok(Body::QuerySmResp(QuerySmResp::read_if_any(octets)?)),
            CommandId::CancelSmResp => {
                nothing(octets)?;
                Ok(Body::CancelSmResp)
            }
            CommandId::UnbindResp => {
                nothing(octets)?;
                Ok(Body::UnbindResp)
            }
            CommandId::EnquireLinkResp => {
                nothing(octets)?;
                Ok(Body::EnquireLinkResp)
            }
        }
    }

    // How many octets are written.
    pub(crate) fn len(&self) -> usize
        requires { length (written_body self.now) ≤ 65520 }
        ensures { result ≡ length (written_body self.now) }
    {
        match self {
            Body::BindReceiver(body) | Body::BindTransmitter(body) | Body::BindTransceiver(body) =>
                body.len(),
            Body::SubmitSm(body) | Body::DeliverSm(body) => body.len(),
            Body::QuerySm(body) => body.len(),
            Body::CancelSm(body) => body.len(),
            Body::BindReceiverResp(Some(body))
            | Body::BindTransmitterResp(Some(body))
            | Body::BindTransceiverResp(Some(body)) => body.len(),
            Body::SubmitSmResp(Some(body)) | Body::DeliverSmResp(Some(body)) => body.len(),
            Body::QuerySmResp(Some(body)) => body.len(),
            _ => 0,
        }
    }

    // Writes the octets.
    pub(crate) fn put(&self, out: &mut Vec<u8>)
        requires fields { IsBodyValue self.now }
        requires short { length (written_body self.now) ≤ 65520 }
        requires room { vec_len out.old + length (written_body self.now) ≤ vec_capacity out.old }
        ensures items { out.new.items ≡ out.old.items ++ written_body self.now }
        ensures len { vec_len out.new ≡ vec_len out.old + length (written_body self.now) }
        ensures capacity { vec_capacity out.old ≤ vec_capacity out.new }
    {
        match self {
            Body::BindReceiver(body) | Body::BindTransmitter(body) | Body::BindTransceiver(body) =>
                body.put(out),
            Body::SubmitSm(body) | Body::DeliverSm(body) => body.put(out),
            Body::QuerySm(body) => body.put(out),
            Body::CancelSm(body) => body.put(out),
            Body::BindReceiverResp(Some(body))
            | Body::BindTransmitterResp(Some(body))
            | Body::BindTransceiverResp(Some(body)) => body.put(out),
            Body::SubmitSmResp(Some(body)) | Body::DeliverSmResp(Some(body)) => body.put(out),
            Body::QuerySmResp(Some(body)) => body.put(out),
            _ => {}
        }
    }
}

// A body without octets.
fn nothing(octets: &[u8]) -> Result<(), PduFault>
    ensures { result ≡ end_in BadLength octets.now }
{
    Cursor::of(octets).end(PduFault::BadLength)
}
