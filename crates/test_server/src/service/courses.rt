//! Sessions and links at the seats of a hub.
use crate::service::asks::Request;
use crate::service::store::MANY;
use crate::service::telling::{ExpectedReply, To};
use crate::service::turns::{Asked, Course, Turn, plays};
use sms_keeper::Fate;
use std::test::Fail;

// CP-ACK of the handset for the centre's first transaction (3GPP TS 24.011 7.2.2), and of the centre for the handset's answer in it.
const CP_ACK: &[u8] = &[0x89, 0x04];

const CP_ACK_DOWN: &[u8] = &[0x09, 0x04];

// CP-DATA of the handset with RP-ACK for reference 0 (3GPP TS 24.011 7.2.1, 7.3.3).
const RP_ACK: &[u8] = &[0x89, 0x01, 0x02, 0x02, 0x00];

// CP-DATA of the centre with RP-DATA, reference 0, from the centre 447700900999: a DELIVER of `hello` from 447700900001, sent on 29
// February 2024 at 23:59:58, no more messages to send, its sender wants to know its end (3GPP TS 24.011 7.3.1, 3GPP TS 23.040 9.2.2.1).
const DELIVER: &[u8] = &[
    0x09, 0x01, 0x24, 0x01, 0x00, 0x07, 0x91, 0x44, 0x77, 0x00, 0x09, 0x90, 0x99, 0x00, 0x18, 0x24,
    0x0C, 0x91, 0x44, 0x77, 0x00, 0x09, 0x00, 0x10, 0x00, 0x00, 0x42, 0x20, 0x92, 0x32, 0x95, 0x85,
    0x00, 0x05, 0xE8, 0x32, 0x9B, 0xFD, 0x06,
];

// The same from 447700900002, the number of app2.
const SECOND_DELIVER: &[u8] = &[
    0x09, 0x01, 0x24, 0x01, 0x00, 0x07, 0x91, 0x44, 0x77, 0x00, 0x09, 0x90, 0x99, 0x00, 0x18, 0x24,
    0x0C, 0x91, 0x44, 0x77, 0x00, 0x09, 0x00, 0x20, 0x00, 0x00, 0x42, 0x20, 0x92, 0x32, 0x95, 0x85,
    0x00, 0x05, 0xE8, 0x32, 0x9B, 0xFD, 0x06,
];

const DONE: Fate = Fate::Done;

// A session submits; the handset accepts; the receipt goes to the session.
const RECEIPT: &[Turn] = &[
    Turn::Job(3, Request::Bound, DONE, &[]),
    Turn::Job(5, Request::Rises, DONE, &[]),
    Turn::Job(
        3,
        Request::Submits,
        DONE,
        &[
            To(3, ExpectedReply::Accepted(1)),
            To(5, ExpectedReply::Frame(DELIVER)),
        ],
    ),
    Turn::Job(5, Request::Sends(CP_ACK), DONE, &[]),
    Turn::Job(
        5,
        Request::Sends(RP_ACK),
        DONE,
        &[
            To(5, ExpectedReply::Frame(CP_ACK_DOWN)),
            To(3, ExpectedReply::Receipt(1)),
        ],
    ),
    Turn::Job(3, Request::Takes, DONE, &[]),
];

// The session has gone when its message is delivered: the receipt waits until the account is bound again, at any seat.
const RECEIPT_WAITS: &[Turn] = &[
    Turn::Job(3, Request::Bound, DONE, &[]),
    Turn::Job(
        3,
        Request::Submits,
        DONE,
        &[To(3, ExpectedReply::Accepted(1))],
    ),
    Turn::Job(3, Request::Unbound, DONE, &[]),
    Turn::Job(
        31,
        Request::Rises,
        DONE,
        &[To(31, ExpectedReply::Frame(DELIVER))],
    ),
    Turn::Job(31, Request::Sends(CP_ACK), DONE, &[]),
    Turn::Job(
        31,
        Request::Sends(RP_ACK),
        DONE,
        &[To(31, ExpectedReply::Frame(CP_ACK_DOWN))],
    ),
    Turn::Job(0, Request::Bound, DONE, &[To(0, ExpectedReply::Receipt(1))]),
];

// A second link of one handset is turned away, until the first one has gone.
const ONE_LINK: &[Turn] = &[
    Turn::Job(5, Request::Rises, DONE, &[]),
    Turn::Job(6, Request::Rises, DONE, &[To(6, ExpectedReply::Taken)]),
    Turn::Job(6, Request::Sends(CP_ACK), DONE, &[]),
    Turn::Job(5, Request::Falls, DONE, &[]),
    Turn::Job(6, Request::Rises, DONE, &[]),
    Turn::Job(
        3,
        Request::Submits,
        DONE,
        &[
            To(3, ExpectedReply::Accepted(1)),
            To(6, ExpectedReply::Frame(DELIVER)),
        ],
    ),
];

// The commit of a submission is refused: its session is told so, and nothing is offered. The number is given to the next one; the link
// comes up again at the first tick.
const SUBMISSION_REFUSED: &[Turn] = &[
    Turn::Job(5, Request::Rises, DONE, &[]),
    Turn::Commits(0),
    Turn::Job(
        3,
        Request::Submits,
        Fate::Refused,
        &[To(3, ExpectedReply::Failed)],
    ),
    Turn::Commits(MANY),
    Turn::Reopens,
    Turn::Job(
        3,
        Request::Submits,
        DONE,
        &[To(3, ExpectedReply::Accepted(1))],
    ),
    Turn::Tick(1, DONE, &[To(5, ExpectedReply::Frame(DELIVER))]),
];

// The commit of an acknowledgement is refused: nothing is told. The part goes out again as it was, under its reference, and the receipt
// goes when that is acknowledged.
const ACKNOWLEDGEMENT_REFUSED: &[Turn] = &[
    Turn::Job(3, Request::Bound, DONE, &[]),
    Turn::Job(5, Request::Rises, DONE, &[]),
    Turn::Job(
        3,
        Request::Submits,
        DONE,
        &[
            To(3, ExpectedReply::Accepted(1)),
            To(5, ExpectedReply::Frame(DELIVER)),
        ],
    ),
    Turn::Job(5, Request::Sends(CP_ACK), DONE, &[]),
    Turn::Commits(0),
    Turn::Job(5, Request::Sends(RP_ACK), Fate::Refused, &[]),
    Turn::Commits(MANY),
    Turn::Reopens,
    Turn::Tick(1, DONE, &[To(5, ExpectedReply::Frame(DELIVER))]),
    Turn::Job(5, Request::Sends(CP_ACK), DONE, &[]),
    Turn::Job(
        5,
        Request::Sends(RP_ACK),
        DONE,
        &[
            To(5, ExpectedReply::Frame(CP_ACK_DOWN)),
            To(3, ExpectedReply::Receipt(1)),
        ],
    ),
];

// The body of the part can't be read as its handset comes up: nothing is told, and it goes out once it can.
const BODY_REFUSED: &[Turn] = &[
    Turn::Job(
        3,
        Request::Submits,
        DONE,
        &[To(3, ExpectedReply::Accepted(1))],
    ),
    Turn::Bodies(0),
    Turn::Job(5, Request::Rises, Fate::Refused, &[]),
    Turn::Bodies(MANY),
    Turn::Reopens,
    Turn::Tick(1, DONE, &[To(5, ExpectedReply::Frame(DELIVER))]),
];

// It is too late: the store takes no commit, and is asked for none. A submission fails, the handset's acknowledgement and the end of its link
// are as lost on their way, and a second link is turned away all the same.
const TOO_LATE: &[Turn] = &[
    Turn::Job(3, Request::Bound, DONE, &[]),
    Turn::Job(5, Request::Rises, DONE, &[]),
    Turn::Job(
        3,
        Request::Submits,
        DONE,
        &[
            To(3, ExpectedReply::Accepted(1)),
            To(5, ExpectedReply::Frame(DELIVER)),
        ],
    ),
    Turn::Job(5, Request::Sends(CP_ACK), DONE, &[]),
    Turn::IsTooLate,
    Turn::Commits(0),
    Turn::Job(
        3,
        Request::Submits,
        Fate::NoMemory,
        &[To(3, ExpectedReply::Failed)],
    ),
    Turn::Job(5, Request::Sends(RP_ACK), Fate::NoMemory, &[]),
    Turn::Job(5, Request::Falls, Fate::NoMemory, &[]),
    Turn::Job(6, Request::Rises, DONE, &[To(6, ExpectedReply::Taken)]),
    Turn::Job(3, Request::Unbound, Fate::NoMemory, &[]),
    Turn::Tick(1, Fate::NoMemory, &[]),
];

// A session is bound, submits, and the handset comes up, all in one group: the store takes one commit. The part that is offered is read as
// the group put it, before it is committed.
const ONE_COMMIT: &[Turn] = &[
    Turn::Commits(1),
    Turn::Group(&[
        Asked(3, Request::Bound, DONE, &[]),
        Asked(
            3,
            Request::Submits,
            DONE,
            &[To(3, ExpectedReply::Accepted(1))],
        ),
        Asked(
            5,
            Request::Rises,
            DONE,
            &[To(5, ExpectedReply::Frame(DELIVER))],
        ),
    ]),
    Turn::Commits(0),
    Turn::Job(
        3,
        Request::Submits,
        Fate::Refused,
        &[To(3, ExpectedReply::Failed)],
    ),
];

// The commit of such a group is refused: each item of it is, the number is given to the next submission, and who sits where is as the
// jobs left it.
const GROUP_REFUSED: &[Turn] = &[
    Turn::Job(6, Request::Rises, DONE, &[]),
    Turn::Commits(0),
    Turn::Group(&[
        Asked(3, Request::Bound, Fate::Refused, &[]),
        Asked(
            3,
            Request::Submits,
            Fate::Refused,
            &[To(3, ExpectedReply::Failed)],
        ),
        Asked(
            5,
            Request::Rises,
            Fate::Refused,
            &[To(5, ExpectedReply::Taken)],
        ),
        Asked(6, Request::Falls, Fate::Refused, &[]),
        Asked(5, Request::Rises, Fate::Refused, &[]),
    ]),
    Turn::Commits(MANY),
    Turn::Reopens,
    Turn::Job(
        4,
        Request::Submits,
        DONE,
        &[To(4, ExpectedReply::Accepted(1))],
    ),
    Turn::Tick(1, DONE, &[To(5, ExpectedReply::Frame(DELIVER))]),
];

// app2 comes: only from then on it submits, from its number, and its receipt goes to its own session, not to that of app1.
const ACCOUNT_COMES: &[Turn] = &[
    Turn::Job(3, Request::Bound, DONE, &[]),
    Turn::Job(5, Request::Rises, DONE, &[]),
    Turn::Job(4, Request::BoundSecond, DONE, &[]),
    Turn::Job(
        4,
        Request::SubmitsSecond,
        DONE,
        &[To(4, ExpectedReply::Failed)],
    ),
    Turn::Comes(&[]),
    Turn::Job(4, Request::BoundSecond, DONE, &[]),
    Turn::Job(
        4,
        Request::SubmitsSecond,
        DONE,
        &[
            To(4, ExpectedReply::Accepted(1)),
            To(5, ExpectedReply::Frame(SECOND_DELIVER)),
        ],
    ),
    Turn::Job(5, Request::Sends(CP_ACK), DONE, &[]),
    Turn::Job(
        5,
        Request::Sends(RP_ACK),
        DONE,
        &[
            To(5, ExpectedReply::Frame(CP_ACK_DOWN)),
            To(4, ExpectedReply::Receipt(1)),
        ],
    ),
];

// The commit of the group in which app2 came is refused: app2 goes with it. It comes again, and stays then, though a later commit is refused.
const ACCOUNT_REFUSED: &[Turn] = &[
    Turn::Commits(0),
    Turn::Comes(&[
        Asked(
            3,
            Request::Submits,
            Fate::Refused,
            &[To(3, ExpectedReply::Failed)],
        ),
        Asked(
            4,
            Request::SubmitsSecond,
            Fate::Refused,
            &[To(4, ExpectedReply::Failed)],
        ),
    ]),
    Turn::Commits(MANY),
    Turn::Reopens,
    Turn::Job(
        4,
        Request::SubmitsSecond,
        DONE,
        &[To(4, ExpectedReply::Failed)],
    ),
    Turn::Comes(&[]),
    Turn::Commits(0),
    Turn::Job(
        4,
        Request::SubmitsSecond,
        Fate::Refused,
        &[To(4, ExpectedReply::Failed)],
    ),
    Turn::Commits(MANY),
    Turn::Reopens,
    Turn::Job(
        4,
        Request::SubmitsSecond,
        DONE,
        &[To(4, ExpectedReply::Accepted(1))],
    ),
];

const COURSES: &[Course] = &[
    ("a submission has its answer and its receipt", RECEIPT),
    ("a receipt waits for its account", RECEIPT_WAITS),
    ("a handset has one link", ONE_LINK),
    (
        "a submission whose commit is refused fails",
        SUBMISSION_REFUSED,
    ),
    (
        "an acknowledgement whose commit is refused is asked for again",
        ACKNOWLEDGEMENT_REFUSED,
    ),
    ("a part whose body is refused goes out later", BODY_REFUSED),
    ("a group is one commit", ONE_COMMIT),
    (
        "each item of a group that is refused is refused",
        GROUP_REFUSED,
    ),
    ("where it is too late nothing is begun", TOO_LATE),
    ("an account that comes has its own messages", ACCOUNT_COMES),
    ("an account goes with its group", ACCOUNT_REFUSED),
];

#[test]
fn courses_of_a_service_are_as_told(rt: HostRuntime) -> Result<(), Fail> {
    for course in COURSES {
        plays(rt.alloc(), course)?;
    }
    Ok(())
}
