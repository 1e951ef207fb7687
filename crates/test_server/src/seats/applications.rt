//! Sessions of applications: requests and answers, receipts, and how they end.
use crate::seats::turns::{Act, Course, ExpectedReply, Noted, Refinement, Request, Turn, plays};
use std::test::Fail;

// bind_transceiver of app1 with the password secret, sequence number 1, and its answer (SMPP v3.4 4.1.5).
const BIND: [u8; 33] = [
    0x00, 0x00, 0x00, 0x21, 0x00, 0x00, 0x00, 0x09, 0x00, 0x00, 0x00, 0x00, 0x00, 0x00, 0x00, 0x01,
    0x61, 0x70, 0x70, 0x31, 0x00, 0x73, 0x65, 0x63, 0x72, 0x65, 0x74, 0x00, 0x00, 0x34, 0x00, 0x00,
    0x00,
];

const BIND_ANSWER: [u8; 26] = [
    0x00, 0x00, 0x00, 0x1A, 0x80, 0x00, 0x00, 0x09, 0x00, 0x00, 0x00, 0x00, 0x00, 0x00, 0x00, 0x01,
    0x73, 0x6D, 0x73, 0x63, 0x00, 0x02, 0x10, 0x00, 0x01, 0x34,
];

// A bind of SMPP 3.3, whose application takes no optional parameters (SMPP v3.4 5.2.4), and its answer.
const BIND_3_3: [u8; 33] = [
    0x00, 0x00, 0x00, 0x21, 0x00, 0x00, 0x00, 0x09, 0x00, 0x00, 0x00, 0x00, 0x00, 0x00, 0x00, 0x01,
    0x61, 0x70, 0x70, 0x31, 0x00, 0x73, 0x65, 0x63, 0x72, 0x65, 0x74, 0x00, 0x00, 0x33, 0x00, 0x00,
    0x00,
];

const ANSWER_3_3: [u8; 21] = [
    0x00, 0x00, 0x00, 0x15, 0x80, 0x00, 0x00, 0x09, 0x00, 0x00, 0x00, 0x00, 0x00, 0x00, 0x00, 0x01,
    0x73, 0x6D, 0x73, 0x63, 0x00,
];

// submit_sm of `hello` to 447700900456, sequence number 2, its answer under the message_id 0000000001, and RTHROTTLED.
const SUBMIT: [u8; 50] = [
    0x00, 0x00, 0x00, 0x32, 0x00, 0x00, 0x00, 0x04, 0x00, 0x00, 0x00, 0x00, 0x00, 0x00, 0x00, 0x02,
    0x00, 0x00, 0x00, 0x00, 0x01, 0x01, 0x34, 0x34, 0x37, 0x37, 0x30, 0x30, 0x39, 0x30, 0x30, 0x34,
    0x35, 0x36, 0x00, 0x00, 0x00, 0x00, 0x00, 0x00, 0x00, 0x00, 0x00, 0x00, 0x05, 0x68, 0x65, 0x6C,
    0x6C, 0x6F,
];

const SUBMIT_ANSWER: [u8; 27] = [
    0x00, 0x00, 0x00, 0x1B, 0x80, 0x00, 0x00, 0x04, 0x00, 0x00, 0x00, 0x00, 0x00, 0x00, 0x00, 0x02,
    0x30, 0x30, 0x30, 0x30, 0x30, 0x30, 0x30, 0x30, 0x30, 0x31, 0x00,
];

const THROTTLED: [u8; 16] = [
    0x00, 0x00, 0x00, 0x10, 0x80, 0x00, 0x00, 0x04, 0x00, 0x00, 0x00, 0x58, 0x00, 0x00, 0x00, 0x02,
];

// submit_sm_resp of the first request with ESME_RSYSERR and no body, and RTHROTTLED for the second.
const FAILED_AND_THROTTLED: [u8; 32] = [
    0x00, 0x00, 0x00, 0x10, 0x80, 0x00, 0x00, 0x04, 0x00, 0x00, 0x00, 0x08, 0x00, 0x00, 0x00, 0x02,
    0x00, 0x00, 0x00, 0x10, 0x80, 0x00, 0x00, 0x04, 0x00, 0x00, 0x00, 0x58, 0x00, 0x00, 0x00, 0x02,
];

// The bind with the password Secret.
const WRONG_BIND: [u8; 33] = [
    0x00, 0x00, 0x00, 0x21, 0x00, 0x00, 0x00, 0x09, 0x00, 0x00, 0x00, 0x00, 0x00, 0x00, 0x00, 0x01,
    0x61, 0x70, 0x70, 0x31, 0x00, 0x53, 0x65, 0x63, 0x72, 0x65, 0x74, 0x00, 0x00, 0x34, 0x00, 0x00,
    0x00,
];

// bind_transceiver_resp with ESME_RBINDFAIL, which has no body (SMPP v3.4 4.1.6, 5.1.3).
const BIND_FAILED: [u8; 16] = [
    0x00, 0x00, 0x00, 0x10, 0x80, 0x00, 0x00, 0x09, 0x00, 0x00, 0x00, 0x0D, 0x00, 0x00, 0x00, 0x01,
];

// generic_nack with ESME_RBINDFAIL (SMPP v3.4 4.3, 5.1.3).
const NO_ROOM: [u8; 16] = [
    0x00, 0x00, 0x00, 0x10, 0x80, 0x00, 0x00, 0x00, 0x00, 0x00, 0x00, 0x0D, 0x00, 0x00, 0x00, 0x00,
];

// deliver_sm_resp of sequence number 1 (SMPP v3.4 4.6.2).
const DELIVERED: [u8; 17] = [
    0x00, 0x00, 0x00, 0x11, 0x80, 0x00, 0x00, 0x05, 0x00, 0x00, 0x00, 0x00, 0x00, 0x00, 0x00, 0x01,
    0x00,
];

const BINDS: &[Turn] = &[
    Turn::Does(Act::Comes(&BIND)),
    Turn::Shows(Refinement::Sends(&BIND_ANSWER)),
    Turn::Shows(Refinement::Asks(Request::Bound)),
    Turn::Shows(Refinement::Notes(Noted::Bound)),
    Turn::Does(Act::Sent(26)),
];

const IS_REFUSED: &[Turn] = &[
    Turn::Does(Act::Comes(&WRONG_BIND)),
    Turn::Shows(Refinement::Notes(Noted::Refused(0x0E))),
    Turn::Shows(Refinement::IsKnown(false)),
    Turn::Shows(Refinement::AsksNothing),
];

// Its answer, bind_transceiver_resp with ESME_RINVPASWD, which has no body.
const WRONG_ANSWER: [u8; 16] = [
    0x00, 0x00, 0x00, 0x10, 0x80, 0x00, 0x00, 0x09, 0x00, 0x00, 0x00, 0x0E, 0x00, 0x00, 0x00, 0x01,
];

// unbind of the centre's own, and unbind_resp to it (SMPP v3.4 4.2).
const UNBIND: [u8; 16] = [
    0x00, 0x00, 0x00, 0x10, 0x00, 0x00, 0x00, 0x06, 0x00, 0x00, 0x00, 0x00, 0x7F, 0xFF, 0xFF, 0xFE,
];

const LEFT: [u8; 16] = [
    0x00, 0x00, 0x00, 0x10, 0x80, 0x00, 0x00, 0x06, 0x00, 0x00, 0x00, 0x00, 0x7F, 0xFF, 0xFF, 0xFE,
];

// Each wrong bind is answered a second later, and is not read past meanwhile.
const IS_HELD: &[Turn] = &[
    Turn::Does(Act::IsAt(5000)),
    Turn::Does(Act::Comes(&WRONG_BIND)),
    Turn::Shows(Refinement::Sends(&[])),
    Turn::Shows(Refinement::IsFull(true)),
    Turn::Does(Act::IsAt(5999)),
    Turn::Shows(Refinement::Sends(&[])),
    Turn::Does(Act::IsAt(6000)),
    Turn::Shows(Refinement::Sends(&WRONG_ANSWER)),
    Turn::Shows(Refinement::IsFull(false)),
    Turn::Does(Act::Sent(16)),
    Turn::Shows(Refinement::GoesOn),
];

const IS_WRONG: &[Turn] = &[
    Turn::Does(Act::Comes(&WRONG_BIND)),
    Turn::Shows(Refinement::Notes(Noted::Refused(0x0E))),
    Turn::Does(Act::IsAt(1000)),
    Turn::Shows(Refinement::Sends(&WRONG_ANSWER)),
    Turn::Does(Act::Sent(16)),
    Turn::Does(Act::Comes(&WRONG_BIND)),
    Turn::Shows(Refinement::Notes(Noted::Refused(0x0E))),
    Turn::Does(Act::IsAt(2000)),
    Turn::Shows(Refinement::Sends(&WRONG_ANSWER)),
    Turn::Does(Act::Sent(16)),
    Turn::Shows(Refinement::GoesOn),
];

const IS_WRONG_AGAIN: &[Turn] = &[
    Turn::Does(Act::Comes(&WRONG_BIND)),
    Turn::Shows(Refinement::Notes(Noted::Refused(0x0E))),
    Turn::Shows(Refinement::Notes(Noted::WrongBinds)),
    Turn::Shows(Refinement::GoesOn),
    Turn::Does(Act::IsAt(3000)),
    Turn::Shows(Refinement::Sends(&WRONG_ANSWER)),
    Turn::Shows(Refinement::IsOver),
];

// A bind of a full account is refused a second later. One with a wrong password learns no more than otherwise.
const IS_BEYOND_ITS_LIMIT: &[Turn] = &[
    Turn::Does(Act::IsToldFull(true)),
    Turn::Does(Act::Comes(&BIND)),
    Turn::Shows(Refinement::Notes(Noted::Refused(0x0D))),
    Turn::Shows(Refinement::Notes(Noted::Nothing)),
    Turn::Shows(Refinement::IsKnown(false)),
    Turn::Shows(Refinement::AsksNothing),
    Turn::Does(Act::IsAt(1000)),
    Turn::Shows(Refinement::Sends(&BIND_FAILED)),
    Turn::Does(Act::Sent(16)),
    Turn::Does(Act::Comes(&WRONG_BIND)),
    Turn::Shows(Refinement::Notes(Noted::Refused(0x0E))),
    Turn::Does(Act::IsAt(2000)),
    Turn::Shows(Refinement::Sends(&WRONG_ANSWER)),
    Turn::Does(Act::Sent(16)),
    Turn::Does(Act::IsToldFull(false)),
    Turn::Does(Act::Comes(&BIND)),
    Turn::Shows(Refinement::Notes(Noted::Bound)),
    Turn::Shows(Refinement::Sends(&BIND_ANSWER)),
];

// What is bound stays so where its account is full.
const STAYS_BOUND: &[Turn] = &[
    Turn::Does(Act::IsToldFull(true)),
    Turn::Does(Act::Comes(&SUBMIT)),
    Turn::Shows(Refinement::Asks(Request::Submission)),
    Turn::Shows(Refinement::IsKnown(true)),
];

const SUBMITS: Turn = Turn::Does(Act::Comes(&SUBMIT));

// Eight requests are with the keeper, and the ninth goes to it once one is answered. Its octets are read while fewer than eight have no
// answer.
const HAS_EIGHT: &[Turn] = &[
    SUBMITS,
    SUBMITS,
    SUBMITS,
    SUBMITS,
    SUBMITS,
    SUBMITS,
    SUBMITS,
    Turn::Shows(Refinement::IsFull(false)),
    SUBMITS,
    Turn::Shows(Refinement::IsFull(true)),
    SUBMITS,
    Turn::Shows(Refinement::Asks(Request::Submission)),
    Turn::Shows(Refinement::Asks(Request::Submission)),
    Turn::Shows(Refinement::Asks(Request::Submission)),
    Turn::Shows(Refinement::Asks(Request::Submission)),
    Turn::Shows(Refinement::Asks(Request::Submission)),
    Turn::Shows(Refinement::Asks(Request::Submission)),
    Turn::Shows(Refinement::Asks(Request::Submission)),
    Turn::Shows(Refinement::Asks(Request::Submission)),
    Turn::Shows(Refinement::AsksNoMore),
    Turn::Shows(Refinement::Awaits(9)),
    Turn::Does(Act::Hears(ExpectedReply::Accepted(1))),
    Turn::Shows(Refinement::IsFull(true)),
    Turn::Shows(Refinement::Asks(Request::Submission)),
    Turn::Shows(Refinement::AsksNoMore),
    Turn::Does(Act::Hears(ExpectedReply::Accepted(2))),
    Turn::Shows(Refinement::IsFull(false)),
    Turn::Shows(Refinement::Awaits(7)),
];

const IS_OWED: &[Turn] = &[
    Turn::Does(Act::IsAt(7000)),
    Turn::Does(Act::Hears(ExpectedReply::Receipt)),
    Turn::Does(Act::IsAt(8000)),
    Turn::Shows(Refinement::Owes(7000)),
];

const LEAVES: &[Turn] = &[
    Turn::Does(Act::IsToLeave),
    Turn::Shows(Refinement::Sends(&UNBIND)),
    Turn::Does(Act::Sent(16)),
    Turn::Shows(Refinement::GoesOn),
    Turn::Does(Act::Comes(&LEFT)),
    Turn::Shows(Refinement::IsOver),
];

// unbind of the application, its answer, and the refusal of a submit_sm behind it with ESME_RINVBNDSTS (4).
const UNBINDS: [u8; 16] = [
    0x00, 0x00, 0x00, 0x10, 0x00, 0x00, 0x00, 0x06, 0x00, 0x00, 0x00, 0x00, 0x00, 0x00, 0x00, 0x09,
];

const UNBIND_ANSWER: [u8; 16] = [
    0x00, 0x00, 0x00, 0x10, 0x80, 0x00, 0x00, 0x06, 0x00, 0x00, 0x00, 0x00, 0x00, 0x00, 0x00, 0x09,
];

const NOT_TAKEN: [u8; 16] = [
    0x00, 0x00, 0x00, 0x10, 0x80, 0x00, 0x00, 0x04, 0x00, 0x00, 0x00, 0x04, 0x00, 0x00, 0x00, 0x02,
];

// The answer to the submit_sm and the unbind_resp behind it.
const ANSWER_AND_UNBIND_ANSWER: [u8; 43] = [
    0x00, 0x00, 0x00, 0x1B, 0x80, 0x00, 0x00, 0x04, 0x00, 0x00, 0x00, 0x00, 0x00, 0x00, 0x00, 0x02,
    0x30, 0x30, 0x30, 0x30, 0x30, 0x30, 0x30, 0x30, 0x30, 0x31, 0x00, 0x00, 0x00, 0x00, 0x10, 0x80,
    0x00, 0x00, 0x06, 0x00, 0x00, 0x00, 0x00, 0x00, 0x00, 0x00, 0x09,
];

// The submit_sm that was taken is answered before the unbind_resp, and one behind the unbind is not taken.
const UNBINDS_BEHIND_A_REQUEST: &[Turn] = &[
    Turn::Does(Act::Comes(&SUBMIT)),
    Turn::Does(Act::Comes(&UNBINDS)),
    Turn::Shows(Refinement::Notes(Noted::Unbound)),
    Turn::Shows(Refinement::Sends(&[])),
    Turn::Does(Act::Comes(&SUBMIT)),
    Turn::Shows(Refinement::Sends(&NOT_TAKEN)),
    Turn::Shows(Refinement::Notes(Noted::SubmitRefused(0x04))),
    Turn::Shows(Refinement::Notes(Noted::Nothing)),
    Turn::Does(Act::Sent(16)),
    Turn::Shows(Refinement::Asks(Request::Submission)),
    Turn::Shows(Refinement::Asks(Request::Unbound)),
    Turn::Shows(Refinement::AsksNothing),
    Turn::Shows(Refinement::IsKnown(true)),
    Turn::Shows(Refinement::GoesOn),
    Turn::Does(Act::Hears(ExpectedReply::Accepted(1))),
    Turn::Shows(Refinement::Sends(&ANSWER_AND_UNBIND_ANSWER)),
    Turn::Shows(Refinement::IsKnown(false)),
    Turn::Shows(Refinement::IsOver),
];

const UNBINDS_AT_ONCE: &[Turn] = &[
    Turn::Does(Act::Comes(&UNBINDS)),
    Turn::Shows(Refinement::Sends(&UNBIND_ANSWER)),
    Turn::Shows(Refinement::IsOver),
];

// enquire_link and the unbind_resp to the centre's own unbind in one piece.
const ENQUIRES_AND_LEFT: [u8; 32] = [
    0x00, 0x00, 0x00, 0x10, 0x00, 0x00, 0x00, 0x15, 0x00, 0x00, 0x00, 0x00, 0x00, 0x00, 0x00, 0x0A,
    0x00, 0x00, 0x00, 0x10, 0x80, 0x00, 0x00, 0x06, 0x00, 0x00, 0x00, 0x00, 0x7F, 0xFF, 0xFF, 0xFE,
];

const LEAVES_BEHIND_ANOTHER: &[Turn] = &[
    Turn::Does(Act::IsToLeave),
    Turn::Does(Act::Sent(16)),
    Turn::Does(Act::Comes(&ENQUIRES_AND_LEFT)),
    Turn::Shows(Refinement::IsOver),
];

// An unbind_resp that answers nothing ends nothing.
const GOES_ON: &[Turn] = &[
    Turn::Does(Act::Comes(&LEFT)),
    Turn::Shows(Refinement::GoesOn),
    Turn::Does(Act::Comes(&SUBMIT)),
    Turn::Shows(Refinement::Asks(Request::Submission)),
];

// The centre has sent unbind: the submit_sm before it is answered, and one behind it is not taken.
const LEAVES_BEHIND_A_REQUEST: &[Turn] = &[
    Turn::Does(Act::Comes(&SUBMIT)),
    Turn::Shows(Refinement::Asks(Request::Submission)),
    Turn::Does(Act::IsToLeave),
    Turn::Shows(Refinement::Sends(&UNBIND)),
    Turn::Does(Act::Sent(16)),
    Turn::Does(Act::Comes(&SUBMIT)),
    Turn::Shows(Refinement::Sends(&NOT_TAKEN)),
    Turn::Does(Act::Sent(16)),
    Turn::Does(Act::Comes(&LEFT)),
    Turn::Shows(Refinement::GoesOn),
    Turn::Does(Act::Hears(ExpectedReply::Accepted(1))),
    Turn::Shows(Refinement::Sends(&SUBMIT_ANSWER)),
    Turn::Shows(Refinement::IsOver),
];

// deliver_sm of a receipt without its two parameters: receipted_message_id, of 4 and 11 octets, and message_state, of 4 and 1.
const HAS_A_SHORT_RECEIPT: &[Turn] = &[
    Turn::Does(Act::Comes(&BIND_3_3)),
    Turn::Shows(Refinement::Sends(&ANSWER_3_3)),
    Turn::Does(Act::Sent(21)),
    Turn::Does(Act::Hears(ExpectedReply::Receipt)),
    Turn::Shows(Refinement::SendsSoMany(0xB3 - 20)),
];

const ASKS: &[Turn] = &[
    Turn::Does(Act::Comes(&SUBMIT)),
    Turn::Shows(Refinement::Asks(Request::Submission)),
    Turn::Shows(Refinement::Awaits(1)),
    Turn::Does(Act::Hears(ExpectedReply::Accepted(1))),
    Turn::Shows(Refinement::Sends(&SUBMIT_ANSWER)),
    Turn::Shows(Refinement::Notes(Noted::Nothing)),
    Turn::Shows(Refinement::Awaits(0)),
];

const IS_THROTTLED: &[Turn] = &[
    Turn::Does(Act::Comes(&SUBMIT)),
    Turn::Does(Act::HandsBack),
    Turn::Shows(Refinement::Sends(&THROTTLED)),
    Turn::Shows(Refinement::Notes(Noted::SubmitRefused(0x58))),
    Turn::Shows(Refinement::Notes(Noted::Nothing)),
    Turn::Shows(Refinement::Awaits(0)),
];

// The first request was put, the second handed back: its answer waits for the first one's.
const IS_THROTTLED_IN_TURN: &[Turn] = &[
    Turn::Does(Act::Comes(&SUBMIT)),
    Turn::Shows(Refinement::Asks(Request::Submission)),
    Turn::Does(Act::Comes(&SUBMIT)),
    Turn::Does(Act::HandsBack),
    Turn::Shows(Refinement::Sends(&[])),
    Turn::Does(Act::Hears(ExpectedReply::Failed)),
    Turn::Shows(Refinement::Sends(&FAILED_AND_THROTTLED)),
    Turn::Shows(Refinement::Notes(Noted::SubmitRefused(0x08))),
    Turn::Shows(Refinement::Notes(Noted::SubmitRefused(0x58))),
    Turn::Shows(Refinement::Notes(Noted::Nothing)),
];

// deliver_sm of a receipt has B3 hexadecimal octets.
const HAS_A_RECEIPT: &[Turn] = &[
    Turn::Does(Act::Hears(ExpectedReply::Receipt)),
    Turn::Shows(Refinement::SendsSoMany(0xB3)),
    Turn::Does(Act::Comes(&DELIVERED)),
    Turn::Shows(Refinement::Asks(Request::Answered(true))),
];

const HAS_NO_RECEIPT: &[Turn] = &[
    Turn::Does(Act::Hears(ExpectedReply::Receipt)),
    Turn::Shows(Refinement::Sends(&[])),
    Turn::Shows(Refinement::Asks(Request::Answered(false))),
];

const GOES: &[Turn] = &[
    Turn::Shows(Refinement::ClosesWith(Request::Unbound)),
    Turn::Shows(Refinement::Closes),
    Turn::Shows(Refinement::IsOver),
];

const IS_GIVEN_UP: &[Turn] = &[
    Turn::Does(Act::GivesUp),
    Turn::Shows(Refinement::Sends(&NO_ROOM)),
];

const COURSES: &[Course] = &[
    ("a bind is answered and told", &[], BINDS),
    ("a wrong password is noted", &[], IS_REFUSED),
    ("a request has its answer", BINDS, ASKS),
    (
        "a request that is handed back is throttled",
        BINDS,
        IS_THROTTLED,
    ),
    (
        "answers keep the order of requests",
        BINDS,
        IS_THROTTLED_IN_TURN,
    ),
    (
        "a receipt goes out and its answer comes",
        BINDS,
        HAS_A_RECEIPT,
    ),
    ("a receipt for nobody goes back", &[], HAS_NO_RECEIPT),
    ("a session that was bound is unbound once", BINDS, GOES),
    (
        "who never binds is told that there is no room",
        &[],
        IS_GIVEN_UP,
    ),
    ("a wrong bind is answered a second later", &[], IS_HELD),
    (
        "the third wrong bind ends a session",
        IS_WRONG,
        IS_WRONG_AGAIN,
    ),
    (
        "a bind beyond the limit of its account is refused",
        &[],
        IS_BEYOND_ITS_LIMIT,
    ),
    ("a full account keeps its sessions", BINDS, STAYS_BOUND),
    ("eight requests are with the keeper", BINDS, HAS_EIGHT),
    ("a receipt without an answer is owed", BINDS, IS_OWED),
    ("a session that is to leave is sent unbind", BINDS, LEAVES),
    (
        "an unbind is answered behind the requests",
        BINDS,
        UNBINDS_BEHIND_A_REQUEST,
    ),
    (
        "an unbind is answered at once where none is owed",
        BINDS,
        UNBINDS_AT_ONCE,
    ),
    (
        "an unbind_resp behind an enquire_link ends a session",
        BINDS,
        LEAVES_BEHIND_ANOTHER,
    ),
    (
        "an unbind_resp ends a session behind its answers",
        BINDS,
        LEAVES_BEHIND_A_REQUEST,
    ),
    ("an unbind_resp to no unbind ends nothing", BINDS, GOES_ON),
    (
        "a receipt of SMPP 3.3 has no parameters",
        &[],
        HAS_A_SHORT_RECEIPT,
    ),
];

#[test]
fn courses_of_sessions_are_as_told(rt: HostRuntime) -> Result<(), Fail> {
    for course in COURSES {
        plays(rt.alloc(), course)?;
    }
    Ok(())
}
