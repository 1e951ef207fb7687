//! The session table: what becomes of a command by the state (SMPP v3.4 2.2, 2.3).
ghost use Rattle.std.specs.Prelude.{◌≡◌};
ghost use Rattle.smpp_session.specs.SessionTable.{judged, judged_fault, refusal, bound_as};
ghost use Rattle.smpp_session.specs.SessionTable.{priority_of, takes_parameters, with_bind_resp, without_bind_resp};

use crate::action::BindKind;
use crate::conversation::SessionState;
use smpp_pdu::{Body, CommandId, CommandStatus, PduFault};

// The sequence number of the centre's own unbind, the last but one.
pub(crate) const UNBIND_NUMBER: u32 = 0x7FFF_FFFE;

// What becomes of a command, before its body is looked at or where the body can't be read.
#[derive(Clone, Copy)]
pub(crate) enum Judgement {
    // The body is looked at.
    Read,
    // The answer has this status and no body.
    Refused(CommandStatus),
    // Nothing.
    Ignored,
}

// Of a command, by the state alone.
pub(crate) fn judge(command: CommandId, state: SessionState) -> Judgement
    ensures { result ≡ judged command state }
{
    match command {
        CommandId::BindReceiver | CommandId::BindTransmitter | CommandId::BindTransceiver =>
            match state {
                SessionState::Opened => Judgement::Read,
                SessionState::Finishing => Judgement::Refused(CommandStatus::ESME_RINVBNDSTS),
                _ => Judgement::Refused(CommandStatus::ESME_RALYBND),
            },
        CommandId::SubmitSm | CommandId::QuerySm | CommandId::CancelSm => match state {
            SessionState::BoundTx | SessionState::BoundTrx => Judgement::Read,
            _ => Judgement::Refused(CommandStatus::ESME_RINVBNDSTS),
        },
        CommandId::Unbind => match state {
            SessionState::Opened | SessionState::Finishing => Judgement::Refused(
                CommandStatus::ESME_RINVBNDSTS,
            ),
            _ => Judgement::Read,
        },
        CommandId::EnquireLink => Judgement::Read,
        CommandId::DeliverSm => Judgement::Refused(CommandStatus::ESME_RINVCMDID),
        CommandId::DeliverSmResp | CommandId::GenericNack => match state {
            SessionState::BoundRx | SessionState::BoundTrx | SessionState::Unbinding => {
                Judgement::Read
            }
            _ => Judgement::Ignored,
        },
        CommandId::UnbindResp => match state {
            SessionState::Unbinding => Judgement::Read,
            _ => Judgement::Ignored,
        },
        _ => Judgement::Ignored,
    }
}

// Of a command whose body can't be read.
pub(crate) fn judge_fault(command: CommandId, fault: PduFault) -> Judgement
    ensures { result ≡ judged_fault command fault }
{
    match command {
        CommandId::DeliverSmResp | CommandId::GenericNack | CommandId::UnbindResp => {
            Judgement::Ignored
        }
        _ => match fault {
            PduFault::Truncated | PduFault::BadLength => Judgement::Refused(
                CommandStatus::ESME_RINVCMDLEN,
            ),
            PduFault::UnknownCommand => Judgement::Refused(CommandStatus::ESME_RINVCMDID),
            PduFault::NoTerminator | PduFault::FieldTooLong => Judgement::Refused(
                CommandStatus::ESME_RINVPARLEN,
            ),
            PduFault::BadTlv => Judgement::Refused(CommandStatus::ESME_RINVOPTPARSTREAM),
            PduFault::ShortMessageTooLong => Judgement::Refused(CommandStatus::ESME_RINVMSGLEN),
        },
    }
}

// The answer without a body to a command.
pub(crate) fn refusal_of(command: CommandId) -> Body<'static>
    ensures { result ≡ refusal command }
{
    match command {
        CommandId::BindReceiver => Body::BindReceiverResp(None),
        CommandId::BindTransmitter => Body::BindTransmitterResp(None),
        CommandId::BindTransceiver => Body::BindTransceiverResp(None),
        CommandId::SubmitSm => Body::SubmitSmResp(None),
        CommandId::QuerySm => Body::QuerySmResp(None),
        CommandId::CancelSm => Body::CancelSmResp,
        CommandId::Unbind => Body::UnbindResp,
        CommandId::EnquireLink => Body::EnquireLinkResp,
        _ => Body::GenericNack,
    }
}

// The priority of a submit_sm by its priority_flag.
pub(crate) fn priority_of(flag: u8) -> u8
    ensures { result ≡ priority_of flag }
{
    if flag < 3 { flag } else { 3 }
}

// The state of a session that is bound so.
pub(crate) fn state_of(kind: BindKind) -> SessionState
    ensures { result ≡ bound_as kind }
{
    match kind {
        BindKind::Transmitter => SessionState::BoundTx,
        BindKind::Receiver => SessionState::BoundRx,
        BindKind::Transceiver => SessionState::BoundTrx,
    }
}

// Whether an application of that version takes optional parameters (SMPP v3.4 5.2.4).
pub(crate) fn takes_parameters(version: u8) -> bool
    ensures { result ≡ takes_parameters version }
{
    0x34 <= version
}

// The answer to a bind without a body.
pub(crate) fn bind_refusal(kind: BindKind) -> Body<'static>
    ensures { result ≡ without_bind_resp kind }
{
    match kind {
        BindKind::Transmitter => Body::BindTransmitterResp(None),
        BindKind::Receiver => Body::BindReceiverResp(None),
        BindKind::Transceiver => Body::BindTransceiverResp(None),
    }
}
