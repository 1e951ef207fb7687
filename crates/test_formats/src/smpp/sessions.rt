//! Sessions: whole exchanges, cut in many ways, and how they end.
ghost use Rattle.std.specs.Prelude.{IfOk};
ghost use Rattle.std.specs.List.{AllByRecursion};
ghost use Rattle.smpp_pdu.specs.BodyGrammar.{IsQueryRespValue};
ghost use Rattle.smpp_pdu.specs.Writing.{IsMessageRespValue};
ghost use Rattle.smpp_session.specs.Calls.{IsCall};

use crate::rows::{are, failed_at, holds};
use crate::smpp::deliveries::DELIVERIES;
use crate::smpp::ends::ENDS;
use crate::smpp::exchanges::{
    ALREADY_BOUND, BIND, BIND_ANSWER, ENQUIRE, ENQUIRE_ANSWER, LENGTH_REFUSED, LONG_LENGTH,
    LONG_LENGTH_REFUSED, NET_SMPP, QUERY_SM_RESP, SHORT_LENGTH, SUBMIT, SUBMIT_ANSWER,
    SUBMIT_CUT_SHORT, SUBMIT_HEADER, SUBMIT_NOT_BOUND,
};
use crate::smpp::limits::message;
use crate::smpp::passwords::{SALTED, salted};
use smpp_pdu::{CommandStatus, MessageResp, QuerySmResp};
use smpp_session::{
    Account, Accounts, Action, Actions, Answer, Call, DeliverFault, FullAccounts, Password,
    Request, Session, SessionState, run,
};
use sms_base::{OctetView, Octets};
use std::alloc::{AllocError, Global};
use std::sync::Arc;
use std::test::Fail;
use std::thread;

pub(crate) fn account(alloc: Global) -> Result<Account, AllocError> {
    let name = Octets::copy_of(alloc, b"app1")?;
    let password = Password::Plain(Octets::copy_of(alloc, b"secret")?);
    Ok(Account { name, password })
}

// One account, app1 with the password secret.
pub(crate) fn accounts(alloc: Global) -> Result<Arc<Accounts, Global>, AllocError> {
    let accounts = vec![in alloc; account(alloc)?]?;
    Ok(Arc::new(alloc, Accounts::from_vec(accounts))?)
}

pub(crate) fn session(alloc: Global) -> Result<Session, AllocError> {
    let accounts = accounts(alloc)?;
    Ok(Session::new(alloc, accounts))
}

/// What octets give.
#[derive(Clone, Copy)]
pub(crate) enum Given {
    Nothing,
    /// An answer of these octets, and nothing else.
    Answer(&'static [u8]),
    /// A bind that is answered so.
    Bind(&'static [u8]),
    /// The octets are passed up as they came, with that priority.
    Request(u8),
    /// The deliver_sm of that number was accepted.
    Accepted(u32),
    /// A bind is refused by this answer, with that status and name.
    BindRefused(&'static [u8], CommandStatus, &'static [u8]),
    /// The account is bound no longer.
    Unbound,
    /// An answer of these octets, and the account is bound no longer.
    AnswerAndUnbound(&'static [u8]),
}

/// Whether the actions are that, for these octets.
pub(crate) fn is_given(actions: &Actions, octets: &[u8], given: &Given) -> bool {
    match (given, actions.as_slice()) {
        (Given::Nothing, []) => true,
        (Given::Answer(wanted), [Action::Send(sent)]) => are(sent.as_slice(), wanted),
        (Given::Bind(wanted), [Action::Send(sent), Action::Bound(0, _)]) => {
            are(sent.as_slice(), wanted)
        }
        (Given::Request(priority), [Action::Submit(request, other)]) => {
            are(request.as_slice(), octets) && *other == *priority
        }
        (Given::Accepted(number), [Action::DeliverAnswered(answered, true)]) => {
            *number == *answered
        }
        (Given::BindRefused(wanted, status, name), [Action::Send(sent), refusal]) => {
            are(sent.as_slice(), wanted) && is_refusal(refusal, *status, name)
        }
        (Given::Unbound, [Action::Unbound]) => true,
        (Given::AnswerAndUnbound(wanted), [Action::Send(sent), Action::Unbound]) => {
            are(sent.as_slice(), wanted)
        }
        _ => false,
    }
}

// Whether the owner learns so of a refused bind.
fn is_refusal(action: &Action, wanted: CommandStatus, name: &[u8]) -> bool {
    match action {
        Action::BindRefused(status, given) => *status == wanted && are(given.as_slice(), name),
        _ => false,
    }
}

/// Whether the octets give that.
pub(crate) fn feeds(session: &mut Session, octets: &[u8], given: &Given) -> bool {
    match session.feed(octets) {
        Ok(actual) => is_given(&actual.actions, octets, given),
        Err(_) => false,
    }
}

/// A bind of app1.
pub(crate) fn is_bound(session: &mut Session) -> bool {
    feeds(session, &BIND, &Given::Bind(&BIND_ANSWER))
}

/// What the centre answers.
#[derive(Clone, Copy)]
pub(crate) enum Reply {
    /// The submit_sm of number 2.
    Submitted,
    /// The query_sm of number 8.
    Queried,
    /// The submit_sm of number 7 is refused, since nothing is bound.
    NotBound,
    /// A cancel_sm of number 2.
    Cancelled,
}

/// A step of a course of a session.
#[derive(Clone, Copy)]
pub(crate) enum Step {
    /// The account at place 0 is full, or not.
    IsFull(bool),
    Feeds(&'static [u8], Given),
    /// An enquire_link that is cut behind so many octets gives nothing, and then its answer.
    FeedsCut(usize),
    /// The submit_sm with that priority_flag is passed up with that priority.
    Submits(u8, u8),
    /// The octets close the session, and whether a lost bind is told.
    ClosesBy(&'static [u8], bool),
    /// The session is closed, and whether that tells of a lost bind.
    Closes(bool),
    /// What Net::SMPP writes, in pieces of so many octets, gives actions of these letters.
    InPieces(usize, &'static [u8]),
    /// Whether it is bound.
    IsBound(bool),
    /// A deliver_sm goes out under that number.
    Delivers(u32),
    /// A deliver_sm is refused so.
    Refuses(DeliverFault),
    /// A deliver_sm with a parameter of three octets has so many.
    DeliversSoMany(usize),
    /// The answer is these octets, if any.
    Answers(Reply, Option<&'static [u8]>),
    /// The centre sends this unbind.
    Unbinds(&'static [u8]),
    /// The session is in that state.
    Is(SessionState),
}

// An enquire_link in two pieces is answered with the second.
fn feeds_cut(session: &mut Session, cut: usize) -> bool {
    let (front, rest) = ENQUIRE.split_at(cut.min(16));
    feeds(session, front, &Given::Nothing) && feeds(session, rest, &Given::Answer(&ENQUIRE_ANSWER))
}

// The priority_flag stands behind the header, an empty service_type, an empty source, a destination of 12 digits,
// esm_class and protocol_id.
fn submits(session: &mut Session, flag: u8, priority: u8) -> bool {
    let mut submit = SUBMIT;
    submit[37] = flag;
    feeds(session, &submit, &Given::Request(priority))
}

fn closes_by(session: &mut Session, octets: &[u8], bind_lost: bool) -> bool {
    match session.feed(octets) {
        Ok(given) => given.bind_lost == bind_lost && session.state() == SessionState::Closed,
        Err(_) => false,
    }
}

// A letter for the kind of an action.
fn letter(action: &Action) -> u8 {
    match action {
        Action::Send(_) => b's',
        Action::Bound(_, _) => b'B',
        Action::Submit(_, _) => b'S',
        Action::Query(_) => b'Q',
        Action::Cancel(_) => b'C',
        Action::DeliverAnswered(_, _) => b'D',
        Action::BindRefused(_, _) => b'R',
        Action::Unbound => b'U',
    }
}

// The letters behind those of what the piece gives, where it gives the first of them.
fn letters_left<'a>(session: &mut Session, piece: &[u8], letters: &'a [u8]) -> Option<&'a [u8]> {
    let Ok(given) = session.feed(piece) else {
        return None;
    };
    let mut rest = letters;
    for action in given.actions.as_slice() {
        match rest {
            [first, others @ ..] if *first == letter(action) => rest = others,
            _ => return None,
        }
    }
    Some(rest)
}

fn comes_in_pieces(session: &mut Session, piece: usize, letters: &[u8]) -> bool {
    let mut rest = letters;
    for front in NET_SMPP.chunks(piece.max(1)) {
        match letters_left(session, front, rest) {
            Some(left) => rest = left,
            None => return false,
        }
    }
    rest.is_empty()
}

fn delivers(session: &mut Session, number: u32) -> bool {
    match session.deliver(message(&[])) {
        Ok(sent) => sent.sequence_number == number,
        Err(_) => false,
    }
}

fn refuses(session: &mut Session, fault: DeliverFault) -> bool {
    match session.deliver(message(&[])) {
        Err(told) => told == fault,
        Ok(_) => false,
    }
}

fn delivers_so_many(session: &mut Session, count: usize) -> bool {
    match session.deliver(message(b"abc")) {
        Ok(sent) => sent.octets.as_slice().len() == count,
        Err(_) => false,
    }
}

fn message_id() -> MessageResp<'static>
    ensures { IsMessageRespValue result }
{
    MessageResp {
        message_id: OctetView::of(b"0000000001"),
    }
}

fn state_of_message() -> QuerySmResp<'static>
    ensures { IsQueryRespValue result }
{
    QuerySmResp {
        message_id: OctetView::of(b"0000000001"),
        final_date: OctetView::of(b"240229235958000+"),
        message_state: 2,
        error_code: 0,
    }
}

// Whether these octets go out, if any.
fn is(sent: Result<Option<Octets>, AllocError>, wanted: Option<&[u8]>) -> bool {
    match sent {
        Ok(Some(octets)) => match wanted {
            Some(wanted) => are(octets.as_slice(), wanted),
            None => false,
        },
        Ok(None) => wanted.is_none(),
        Err(_) => false,
    }
}

fn answers(session: &mut Session, reply: Reply, wanted: Option<&[u8]>) -> bool {
    match reply {
        Reply::Submitted => is(session.answer(2, Answer::Submitted(message_id())), wanted),
        Reply::Queried => is(
            session.answer(8, Answer::Queried(state_of_message())),
            wanted,
        ),
        Reply::NotBound => {
            let not_bound = Answer::Refused(Request::Submit, CommandStatus::ESME_RINVBNDSTS);
            is(session.answer(7, not_bound), wanted)
        }
        Reply::Cancelled => is(session.answer(2, Answer::Cancelled), wanted),
    }
}

fn is_told(session: &mut Session, is_full: bool) -> bool {
    let mut full = FullAccounts::none();
    if is_full {
        full.put(0);
    }
    session.set_full(full);
    full.contains(0) == is_full && !full.contains(1) && !full.contains(32)
}

fn goes(session: &mut Session, step: &Step) -> bool {
    match step {
        Step::IsFull(is_full) => is_told(session, *is_full),
        Step::Feeds(octets, given) => feeds(session, octets, given),
        Step::FeedsCut(cut) => feeds_cut(session, *cut),
        Step::Submits(flag, priority) => submits(session, *flag, *priority),
        Step::ClosesBy(octets, bind_lost) => closes_by(session, octets, *bind_lost),
        Step::Closes(bind_lost) => session.close() == *bind_lost,
        Step::InPieces(piece, letters) => comes_in_pieces(session, *piece, letters),
        Step::IsBound(is_so) => session.state().is_bound() == *is_so,
        Step::Delivers(number) => delivers(session, *number),
        Step::Refuses(fault) => refuses(session, *fault),
        Step::DeliversSoMany(count) => delivers_so_many(session, *count),
        Step::Answers(reply, wanted) => answers(session, *reply, *wanted),
        Step::Unbinds(wanted) => is(session.unbind(), Some(wanted)),
        Step::Is(state) => session.state() == *state,
    }
}

/// A course of a session: its name, and its steps.
pub(crate) type Course = (&'static str, &'static [Step]);

fn go(session: &mut Session, course: &Course) -> Result<(), Fail> {
    let (name, steps) = course;
    for (at, step) in steps.iter().enumerate() {
        if !goes(session, step) {
            return Err(failed_at(name, at));
        }
    }
    Ok(())
}

// Each step of the course goes so in the session, which is new.
fn plays(session: Result<Session, AllocError>, course: &Course) -> Result<(), Fail> {
    match session {
        Ok(mut session) => go(&mut session, course),
        Err(_) => Err(Fail::new("no session")),
    }
}

// A bind_transceiver without a body is cut short (2), and the session is still open.
const BIND_HEADER: [u8; 16] = [
    0x00, 0x00, 0x00, 0x10, 0x00, 0x00, 0x00, 0x09, 0x00, 0x00, 0x00, 0x00, 0x00, 0x00, 0x00, 0x01,
];

const BIND_CUT_SHORT: [u8; 16] = [
    0x00, 0x00, 0x00, 0x10, 0x80, 0x00, 0x00, 0x09, 0x00, 0x00, 0x00, 0x02, 0x00, 0x00, 0x00, 0x01,
];

// The submit_sm with sm_length 255 is answered ESME_RINVMSGLEN (1).
const MESSAGE_TOO_LONG: [u8; 16] = [
    0x00, 0x00, 0x00, 0x10, 0x80, 0x00, 0x00, 0x04, 0x00, 0x00, 0x00, 0x01, 0x00, 0x00, 0x00, 0x02,
];

// A data_sm, of which this centre knows nothing, is answered by a generic_nack with ESME_RINVCMDID (3).
const DATA_SM: [u8; 16] = [
    0x00, 0x00, 0x00, 0x10, 0x00, 0x00, 0x01, 0x03, 0x00, 0x00, 0x00, 0x00, 0x00, 0x00, 0x00, 0x05,
];

const UNKNOWN_COMMAND: [u8; 16] = [
    0x00, 0x00, 0x00, 0x10, 0x80, 0x00, 0x00, 0x00, 0x00, 0x00, 0x00, 0x03, 0x00, 0x00, 0x00, 0x05,
];

// The submit_sm, whose sm_length stands before the five octets of the message.
const SUBMIT_TOO_LONG: [u8; 50] = [
    0x00, 0x00, 0x00, 0x32, 0x00, 0x00, 0x00, 0x04, 0x00, 0x00, 0x00, 0x00, 0x00, 0x00, 0x00, 0x02,
    0x00, 0x00, 0x00, 0x00, 0x01, 0x01, 0x34, 0x34, 0x37, 0x37, 0x30, 0x30, 0x39, 0x30, 0x30, 0x34,
    0x35, 0x36, 0x00, 0x00, 0x00, 0x00, 0x00, 0x00, 0x01, 0x00, 0x00, 0x00, 0xFF, 0x68, 0x65, 0x6C,
    0x6C, 0x6F,
];

// The response of the command that is unknown.
const DATA_SM_RESP: [u8; 16] = [
    0x00, 0x00, 0x00, 0x10, 0x80, 0x00, 0x01, 0x03, 0x00, 0x00, 0x00, 0x00, 0x00, 0x00, 0x00, 0x05,
];

// The bind with the password Secret, the answer to it, and the answer to a bind of a full account (SMPP v3.4 5.1.3).
pub(crate) const WRONG_BIND: [u8; 33] = [
    0x00, 0x00, 0x00, 0x21, 0x00, 0x00, 0x00, 0x09, 0x00, 0x00, 0x00, 0x00, 0x00, 0x00, 0x00, 0x01,
    0x61, 0x70, 0x70, 0x31, 0x00, 0x53, 0x65, 0x63, 0x72, 0x65, 0x74, 0x00, 0x00, 0x34, 0x00, 0x00,
    0x00,
];

pub(crate) const WRONG_PASSWORD: [u8; 16] = [
    0x00, 0x00, 0x00, 0x10, 0x80, 0x00, 0x00, 0x09, 0x00, 0x00, 0x00, 0x0E, 0x00, 0x00, 0x00, 0x01,
];

const BIND_FAILED: [u8; 16] = [
    0x00, 0x00, 0x00, 0x10, 0x80, 0x00, 0x00, 0x09, 0x00, 0x00, 0x00, 0x0D, 0x00, 0x00, 0x00, 0x01,
];

// A bind and a bad length in one piece.
const BIND_AND_SHORT_LENGTH: [u8; 49] = [
    0x00, 0x00, 0x00, 0x21, 0x00, 0x00, 0x00, 0x09, 0x00, 0x00, 0x00, 0x00, 0x00, 0x00, 0x00, 0x01,
    0x61, 0x70, 0x70, 0x31, 0x00, 0x73, 0x65, 0x63, 0x72, 0x65, 0x74, 0x00, 0x00, 0x34, 0x00, 0x00,
    0x00, 0x00, 0x00, 0x00, 0x0F, 0x00, 0x00, 0x00, 0x15, 0x00, 0x00, 0x00, 0x00, 0x00, 0x00, 0x00,
    0x02,
];

const BINDS: Step = Step::Feeds(&BIND, Given::Bind(&BIND_ANSWER));

const EXCHANGES: &[Course] = &[
    // A length is refused, and an enquire_link behind it is not answered.
    (
        "a short length closes",
        &[
            Step::Feeds(&SHORT_LENGTH, Given::Answer(&LENGTH_REFUSED)),
            Step::Feeds(&ENQUIRE, Given::Nothing),
        ],
    ),
    (
        "a long length closes",
        &[
            Step::Feeds(&LONG_LENGTH, Given::Answer(&LONG_LENGTH_REFUSED)),
            Step::Feeds(&ENQUIRE, Given::Nothing),
        ],
    ),
    // The response of a command that is unknown is ignored.
    (
        "faults are answered",
        &[
            Step::Feeds(
                &BIND_HEADER,
                Given::BindRefused(&BIND_CUT_SHORT, CommandStatus::ESME_RINVCMDLEN, b""),
            ),
            Step::Feeds(&DATA_SM, Given::Answer(&UNKNOWN_COMMAND)),
            BINDS,
            Step::Feeds(&SUBMIT_TOO_LONG, Given::Answer(&MESSAGE_TOO_LONG)),
            Step::Feeds(&DATA_SM_RESP, Given::Nothing),
        ],
    ),
    (
        "a session binds once",
        &[
            Step::Feeds(&SUBMIT_HEADER, Given::Answer(&SUBMIT_NOT_BOUND)),
            BINDS,
            Step::IsBound(true),
            Step::Feeds(
                &BIND,
                Given::BindRefused(&ALREADY_BOUND, CommandStatus::ESME_RALYBND, b"app1"),
            ),
            Step::Feeds(&SUBMIT_HEADER, Given::Answer(&SUBMIT_CUT_SHORT)),
        ],
    ),
    (
        "a full account takes no bind, and keeps its sessions",
        &[
            Step::IsFull(true),
            Step::Feeds(
                &BIND,
                Given::BindRefused(&BIND_FAILED, CommandStatus::ESME_RBINDFAIL, b"app1"),
            ),
            Step::IsBound(false),
            Step::Feeds(
                &WRONG_BIND,
                Given::BindRefused(&WRONG_PASSWORD, CommandStatus::ESME_RINVPASWD, b"app1"),
            ),
            Step::IsFull(false),
            BINDS,
            Step::IsFull(true),
            Step::Feeds(&ENQUIRE, Given::Answer(&ENQUIRE_ANSWER)),
            Step::IsBound(true),
        ],
    ),
    (
        "an enquire_link is cut after each octet",
        &[
            Step::FeedsCut(0),
            Step::FeedsCut(1),
            Step::FeedsCut(2),
            Step::FeedsCut(3),
            Step::FeedsCut(4),
            Step::FeedsCut(5),
            Step::FeedsCut(6),
            Step::FeedsCut(7),
            Step::FeedsCut(8),
            Step::FeedsCut(9),
            Step::FeedsCut(10),
            Step::FeedsCut(11),
            Step::FeedsCut(12),
            Step::FeedsCut(13),
            Step::FeedsCut(14),
            Step::FeedsCut(15),
        ],
    ),
    (
        "priorities are passed up",
        &[
            BINDS,
            Step::Submits(0, 0),
            Step::Submits(1, 1),
            Step::Submits(2, 2),
            Step::Submits(3, 3),
            Step::Submits(4, 3),
            Step::Submits(255, 3),
        ],
    ),
    // No answer goes out of a closed session.
    (
        "requests are answered",
        &[
            Step::Answers(Reply::Submitted, Some(&SUBMIT_ANSWER)),
            Step::Answers(Reply::Queried, Some(&QUERY_SM_RESP)),
            Step::Answers(Reply::NotBound, Some(&SUBMIT_NOT_BOUND)),
            Step::Closes(false),
            Step::Answers(Reply::Cancelled, None),
        ],
    ),
];

const CLOSINGS: &[Course] = &[
    (
        "a short length where nothing is bound",
        &[Step::ClosesBy(&SHORT_LENGTH, false)],
    ),
    (
        "a short length behind a bind, in one piece",
        &[Step::ClosesBy(&BIND_AND_SHORT_LENGTH, true)],
    ),
    (
        "a long length behind a bind",
        &[BINDS, Step::ClosesBy(&LONG_LENGTH, true)],
    ),
    (
        "a lost bind is told once",
        &[
            Step::ClosesBy(&BIND_AND_SHORT_LENGTH, true),
            Step::ClosesBy(&SHORT_LENGTH, false),
        ],
    ),
    (
        "a closing tells once of a lost bind",
        &[BINDS, Step::Closes(true), Step::Closes(false)],
    ),
    (
        "a closing tells of no bind",
        &[
            Step::Feeds(&ENQUIRE, Given::Answer(&ENQUIRE_ANSWER)),
            Step::Closes(false),
            Step::Closes(false),
        ],
    ),
];

// A bind and its answer, a submit_sm, a query_sm, a cancel_sm, the answer to an enquire_link, and the end of the bind.
const LETTERS: &[u8] = b"sBSQCsU";

const PIECES: &[Course] = &[
    ("pieces of 1", &[Step::InPieces(1, LETTERS)]),
    ("pieces of 2", &[Step::InPieces(2, LETTERS)]),
    ("pieces of 3", &[Step::InPieces(3, LETTERS)]),
    ("pieces of 7", &[Step::InPieces(7, LETTERS)]),
    ("pieces of 16", &[Step::InPieces(16, LETTERS)]),
    ("pieces of 33", &[Step::InPieces(33, LETTERS)]),
    ("pieces of 34", &[Step::InPieces(34, LETTERS)]),
    ("pieces of 100", &[Step::InPieces(100, LETTERS)]),
    ("pieces of 243", &[Step::InPieces(243, LETTERS)]),
];

const COURSES: &[&[Course]] = &[EXCHANGES, CLOSINGS, PIECES, ENDS, DELIVERIES];

#[test]
fn sessions_go_their_courses(rt: HostRuntime) -> Result<(), Fail> {
    for courses in COURSES {
        for course in *courses {
            plays(session(rt.alloc()), course)?;
        }
    }
    plays(salted(rt.alloc()), &SALTED)?;
    holds(DeliverFault::NotBound.code() == Some("N2"), "a code")
}

// A bind, the end of the connection, and an enquire_link that comes too late.
fn calls(alloc: Global) -> Result<Vec<Call<'static>>, AllocError>
    ensures { IfOk result (λ calls. AllByRecursion IsCall calls.items) }
{
    let mut calls = Vec::new(alloc);
    calls.push(Call::Feed(OctetView::of(&BIND)))?;
    calls.push(Call::Close)?;
    calls.push(Call::Feed(OctetView::of(&ENQUIRE)))?;
    Ok(calls)
}

fn ran(alloc: Global) -> Result<Actions, AllocError> {
    run(alloc, accounts(alloc)?, calls(alloc)?)
}

// A bind, and no more.
fn runs(alloc: Global) -> bool {
    match ran(alloc) {
        Ok(actions) => is_given(&actions, &BIND, &Given::Bind(&BIND_ANSWER)),
        Err(_) => false,
    }
}

// Whether a session of these accounts binds.
fn binds(alloc: Global, accounts: Arc<Accounts, Global>) -> bool {
    let mut session = Session::new(alloc, accounts);
    is_bound(&mut session)
}

#[test]
fn sessions_on_threads_share_accounts(rt: HostRuntime) -> Result<(), Fail> {
    let alloc = rt.alloc();
    holds(runs(alloc), "calls are run")?;
    let here = accounts(alloc)?;
    let there = Arc::try_clone(&here)?;
    let Ok(thread) = thread::spawn(&rt, move || binds(alloc, there)) else {
        return Err(Fail::new("no thread"));
    };
    let bound_here = binds(alloc, here);
    let bound_there = thread.join(&rt);
    holds(bound_here && bound_there, "binds on two threads")
}
