//! The replies of seats.
use smpp_pdu::CommandStatus;
use sms_centre_spec::CentreAnswer;
use sms_centre_spec::jobs::Reply;
use sms_keeper::{Fate, Out, Outs, Step};

/// What a seat is told.
#[derive(Clone, Copy)]
pub(crate) enum ExpectedReply {
    /// ROK, with the number of the message.
    Accepted(u64),
    /// ESME_RSYSERR.
    Failed,
    /// The receipt of that message.
    Receipt(u64),
    /// A frame of these octets.
    Frame(&'static [u8]),
    /// Another seat has the link.
    Taken,
}

/// A seat, and what it is told.
#[derive(Clone, Copy)]
pub(crate) struct To(pub(crate) usize, pub(crate) ExpectedReply);

fn is_told(reply: &Reply, told: &ExpectedReply) -> bool {
    match (told, reply) {
        (ExpectedReply::Accepted(id), Reply::Answer(CentreAnswer::Submitted(number))) => {
            number.number() == *id
        }
        (ExpectedReply::Failed, Reply::Answer(CentreAnswer::Refused(status))) => {
            *status == CommandStatus::ESME_RSYSERR
        }
        (ExpectedReply::Receipt(id), Reply::Receipt(end)) => end.id.number() == *id,
        (ExpectedReply::Frame(frame), Reply::Frame(octets)) => octets.as_slice() == *frame,
        (ExpectedReply::Taken, Reply::Taken) => true,
        _ => false,
    }
}

fn is_out(out: Option<&Out<Reply>>, to: &To) -> bool {
    match out {
        Some(out) => out.seat == to.0 && is_told(&out.out, &to.1),
        None => false,
    }
}

fn are_outs(outs: &Outs<Reply>, told: &[To]) -> bool {
    for (at, to) in told.iter().enumerate() {
        if !is_out(outs.get(at), to) {
            return false;
        }
    }
    outs.len() == told.len()
}

/// Whether that befell the item once its group was committed or refused, and the seats are told that, in order, and nothing besides.
pub(crate) fn is_item(step: &Step<Reply>, is_committed: bool, fate: Fate, told: &[To]) -> bool {
    if is_committed {
        step.fate == fate && are_outs(&step.outs, told)
    } else {
        fate == Fate::Refused && are_outs(&step.if_refused, told)
    }
}
