//! An endpoint, what is done with it, and what it has to do.
use crate::rows::turn_holds;
use crate::service::centre::logins;
use smpp_pdu::CommandStatus;
use smpp_session::{BindKind, FullAccounts};
use sms_base::lending::lend;
use sms_base::{Address, FinalState, MessageId, Moment, Msisdn, Octets};
use sms_centre_spec::CentreAnswer;
use sms_centre_spec::jobs::{Job, Reply};
use sms_receipt::Final;
use smsc_endpoint::{Esme, LinkAccess, LinkEndpoint};
use smsc_loop::{Endpoint, Note};
use std::alloc::Global;
use std::sync::Arc;
use std::test::Fail;

/// What an endpoint is told.
#[derive(Clone, Copy)]
pub(crate) enum ExpectedReply {
    /// ROK, with this number of its message.
    Accepted(u64),
    /// ESME_RSYSERR.
    Failed,
    /// The receipt of message 1.
    Receipt,
    /// A frame to send.
    Frame(&'static [u8]),
    /// Another seat has the link of its handset.
    Taken,
}

/// What an endpoint asks.
#[derive(Clone, Copy)]
pub(crate) enum Request {
    /// The account at place 0 is bound, and takes receipts.
    Bound,
    Unbound,
    /// A submission of the account at place 0.
    Submission,
    /// The answer to a receipt, which was accepted or not.
    Answered(bool),
    /// The link is that of 447700900456.
    LinkUp,
    LinkDown,
    Frame(&'static [u8]),
    /// What asks nothing and has an answer.
    Mark,
}

/// What an operator is told of an endpoint.
#[derive(Clone, Copy)]
pub(crate) enum Noted {
    /// The account at place 0 is bound as transceiver.
    Bound,
    /// A bind was refused with this command_status.
    Refused(u32),
    /// The third wrong bind has ended the session.
    WrongBinds,
    /// The account is bound no longer.
    Unbound,
    /// A submit_sm was refused with this command_status.
    SubmitRefused(u32),
    /// Nothing more.
    Nothing,
    NoNumber,
    /// The secret is not that of the handset of these digits.
    WrongSecret(&'static [char]),
    NoFrames,
    /// The link is that of the handset.
    LinkUp,
    /// The handset has another link.
    Taken,
    /// The handset's other link did not end.
    NotReplaced,
}

/// What is done with an endpoint.
#[derive(Clone, Copy)]
pub(crate) enum Act {
    /// The account at place 0 is full, or not.
    IsToldFull(bool),
    /// The endpoint takes these octets.
    Comes(&'static [u8]),
    /// The endpoint is told this.
    Hears(ExpectedReply),
    /// So many of its octets are sent.
    Sent(usize),
    /// The endpoint's next job is handed back.
    HandsBack,
    /// The endpoint has not said who it is for too long.
    GivesUp,
    /// The clock shows this time, in milliseconds.
    IsAt(u64),
    /// The endpoint is asked to leave.
    IsToLeave,
}

/// What is to be seen of an endpoint.
#[derive(Clone, Copy)]
pub(crate) enum Refinement {
    /// The endpoint has these octets to send.
    Sends(&'static [u8]),
    /// The endpoint has so many octets to send.
    SendsSoMany(usize),
    /// The endpoint's next job is this.
    Asks(Request),
    /// The endpoint has no job to put.
    AsksNothing,
    /// The endpoint's next note is this.
    Notes(Noted),
    /// So many answers to its requests are to come.
    Awaits(usize),
    /// Whether it said who it is.
    IsKnown(bool),
    /// Whether no more of its octets are to be read.
    IsFull(bool),
    /// The oldest deliver_sm without an answer was sent then.
    Owes(u64),
    /// The endpoint has no next job now.
    AsksNoMore,
    /// The endpoint takes and gives nothing any more.
    IsOver,
    /// The endpoint still takes and gives.
    GoesOn,
    /// As its connection ends this is its last job.
    ClosesWith(Request),
    /// As its connection ends it has no last job.
    Closes,
}

/// A turn of a course.
#[derive(Clone, Copy)]
pub(crate) enum Turn {
    Does(Act),
    Shows(Refinement),
}

// ---- what is done

/// Message 1 was delivered.
pub(crate) fn end() -> Option<Final> {
    let moment = Moment::from_seconds(1_709_251_198).ok()?;
    Some(Final {
        id: MessageId::new(1)?,
        source: Address::new(1, 1, "447700900001").ok()?,
        handset: Msisdn::of(b"447700900456")?,
        message_reference: 0,
        submitted: moment,
        done: moment,
        state: FinalState::Delivered,
    })
}

fn reply(alloc: Global, told: &ExpectedReply) -> Option<Reply> {
    match told {
        ExpectedReply::Accepted(id) => {
            let id = MessageId::new(*id)?;
            Some(Reply::Answer(CentreAnswer::Submitted(id)))
        }
        ExpectedReply::Failed => Some(Reply::Answer(CentreAnswer::Refused(
            CommandStatus::ESME_RSYSERR,
        ))),
        ExpectedReply::Receipt => Some(Reply::Receipt(end()?)),
        ExpectedReply::Frame(octets) => {
            let octets = Octets::copy_of(alloc, octets).ok()?;
            Some(Reply::Frame(octets))
        }
        ExpectedReply::Taken => Some(Reply::Taken),
    }
}

// The accounts that are full: the one at place 0, or none.
fn full(is_full: bool) -> FullAccounts {
    let mut full = FullAccounts::none();
    if is_full {
        full.put(0);
    }
    full
}

// The octets come in pieces of so many.
fn comes<G: Endpoint>(endpoint: &mut G, size: usize, octets: &[u8]) -> bool {
    for piece in octets.chunks(size.max(1)) {
        if endpoint.take(piece).is_err() {
            return false;
        }
    }
    true
}

fn hears<G: Endpoint>(endpoint: &mut G, reply: Option<Reply>) -> bool {
    match reply {
        Some(reply) => endpoint.take_reply(reply).is_ok(),
        None => false,
    }
}

// No more is sent than waits.
fn sends<G: Endpoint>(endpoint: &mut G, count: usize) -> bool {
    if count > endpoint.octets().len() {
        return false;
    }
    endpoint.sent(count);
    true
}

fn hands_back<G: Endpoint>(endpoint: &mut G) -> bool {
    match endpoint.next_job() {
        Some(job) => endpoint.handed_back(job).is_ok(),
        None => false,
    }
}

fn is_told_full<G: Endpoint>(endpoint: &mut G, is_full: bool) -> bool {
    endpoint.take_full(full(is_full));
    true
}

fn does<G: Endpoint>(alloc: Global, endpoint: &mut G, size: usize, act: &Act) -> bool {
    match act {
        Act::IsToldFull(is_full) => is_told_full(endpoint, *is_full),
        Act::Comes(octets) => comes(endpoint, size, octets),
        Act::Hears(told) => hears(endpoint, reply(alloc, told)),
        Act::Sent(count) => sends(endpoint, *count),
        Act::HandsBack => hands_back(endpoint),
        Act::GivesUp => endpoint.give_up().is_ok(),
        Act::IsAt(now) => endpoint.at(*now).is_ok(),
        Act::IsToLeave => endpoint.ask_to_leave() == Ok(true),
    }
}

// ---- what is seen

fn is_asked(job: &Job, asked: &Request) -> bool {
    match (asked, job) {
        (Request::Bound, Job::Bound { account, receives }) => *account == 0 && *receives,
        (Request::Unbound, Job::Unbound) => true,
        (Request::Submission, Job::Submit { account, .. }) => *account == 0,
        (Request::Answered(accepted), Job::DeliverAnswered { is_accepted, .. }) => {
            *is_accepted == *accepted
        }
        (Request::LinkUp, Job::LinkUp { handset }) => handset.digits().len() == 12,
        (Request::LinkDown, Job::LinkDown) => true,
        (Request::Frame(frame), Job::Frame { octets }) => octets.as_slice() == *frame,
        (Request::Mark, Job::Query { pdu, .. }) => pdu.as_slice().is_empty(),
        _ => false,
    }
}

fn is_some_asked(job: &Option<Job>, asked: &Request) -> bool {
    match job {
        Some(job) => is_asked(job, asked),
        None => false,
    }
}

// The name in each bind.
const APP1: &[char] = &['a', 'p', 'p', '1'];

fn is_noted(note: &Option<Note>, noted: &Noted) -> bool {
    match (noted, note) {
        (Noted::Bound, Some(Note::Bound(0, BindKind::Transceiver))) => true,
        (Noted::Refused(wanted), Some(Note::BindRefused(status, name))) => {
            *status == *wanted && name.as_slice() == APP1
        }
        (Noted::NoNumber, Some(Note::NoNumber)) => true,
        (Noted::WrongSecret(wanted), Some(Note::WrongSecret(number))) => {
            number.is_spelled(*wanted)
        }
        (Noted::NoFrames, Some(Note::NoFrames)) => true,
        (Noted::WrongBinds, Some(Note::WrongBinds)) => true,
        (Noted::Unbound, Some(Note::Unbound)) => true,
        (Noted::SubmitRefused(wanted), Some(Note::SubmitRefused(status))) => *status == *wanted,
        (Noted::Nothing, None) => true,
        (Noted::LinkUp, Some(Note::LinkUp(_))) => true,
        (Noted::Taken, Some(Note::Taken(_))) => true,
        (Noted::NotReplaced, Some(Note::NotReplaced(_))) => true,
        _ => false,
    }
}

fn shows<G: Endpoint>(endpoint: &mut G, refinement: &Refinement) -> bool {
    match refinement {
        Refinement::Sends(octets) => endpoint.octets() == *octets,
        Refinement::SendsSoMany(count) => endpoint.octets().len() == *count,
        Refinement::Asks(asked) => is_some_asked(&endpoint.next_job(), asked),
        Refinement::AsksNothing => !endpoint.has_jobs(),
        Refinement::Notes(noted) => is_noted(&endpoint.note(), noted),
        Refinement::Awaits(count) => endpoint.unanswered() == *count,
        Refinement::IsKnown(known) => endpoint.is_known() == *known,
        Refinement::IsFull(full) => endpoint.is_full() == *full,
        Refinement::Owes(since) => endpoint.owed_since() == Some(*since),
        Refinement::AsksNoMore => endpoint.next_job().is_none(),
        Refinement::IsOver => endpoint.is_over(),
        Refinement::GoesOn => !endpoint.is_over(),
        Refinement::ClosesWith(asked) => is_some_asked(&endpoint.close(), asked),
        Refinement::Closes => endpoint.close().is_none(),
    }
}

// ---- courses

/// A course of a session: its name, how it begins, and its turns.
pub(crate) type Course = (&'static str, &'static [Turn], &'static [Turn]);

fn take_turn<G: Endpoint>(alloc: Global, endpoint: &mut G, size: usize, turn: &Turn) -> bool {
    match turn {
        Turn::Does(act) => does(alloc, endpoint, size, act),
        Turn::Shows(refinement) => shows(endpoint, refinement),
    }
}

fn go<G: Endpoint>(
    alloc: Global,
    endpoint: &mut G,
    size: usize,
    name: &str,
    turns: &[Turn],
) -> Result<(), Fail> {
    for (at, turn) in turns.iter().enumerate() {
        turn_holds(take_turn(alloc, endpoint, size, turn), name, at)?;
    }
    Ok(())
}

fn go_both(alloc: Global, endpoint: &mut Esme, course: &Course) -> Result<(), Fail> {
    let (name, begins, turns) = course;
    go(alloc, endpoint, 1024, name, begins)?;
    go(alloc, endpoint, 1024, name, turns)
}

/// Each turn of a course of a session is as told, those that it begins with first.
pub(crate) fn plays(alloc: Global, course: &Course) -> Result<(), Fail> {
    lend(
        Esme::new(alloc, logins(alloc)?),
        |endpoint| go_both(alloc, endpoint, course),
    )
}

/// Each turn of the course of a link is as told, where octets come in pieces of so many, and links are given by that access.
pub(crate) fn link_plays(
    alloc: Global,
    access: LinkAccess,
    size: usize,
    name: &str,
    turns: &[Turn],
) -> Result<(), Fail> {
    let access = Arc::new(alloc, access)?;
    lend(
        LinkEndpoint::new(alloc, access),
        |endpoint| go(alloc, endpoint, size, name, turns),
    )
}
