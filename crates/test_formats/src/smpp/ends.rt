//! How sessions end: each request that was taken is answered first, and no other is taken in.
use crate::smpp::exchanges::{
    ANSWER_3_3, BIND, BIND_3_3, BIND_ANSWER, BIND_REFUSED, ENQUIRE, LEFT, LEFT_OTHERWISE,
    LENGTH_REFUSED, OWN_UNBIND, SHORT_LENGTH, SUBMIT, SUBMIT_AND_UNBIND_ANSWERS, SUBMIT_ANSWER,
    SUBMIT_REFUSED, UNBIND, UNBIND_ANSWER, UNBIND_REFUSED,
};
use crate::smpp::sessions::{Course, Given, Reply, Step};
use smpp_pdu::CommandStatus;
use smpp_session::SessionState;

const BINDS: Step = Step::Feeds(&BIND, Given::Bind(&BIND_ANSWER));

const SUBMITS: Step = Step::Feeds(&SUBMIT, Given::Request(0));

pub(crate) const ENDS: &[Course] = &[
    (
        "an unbind is answered at once where nothing is owed",
        &[
            BINDS,
            Step::Feeds(&UNBIND, Given::AnswerAndUnbound(&UNBIND_ANSWER)),
            Step::Is(SessionState::Closed),
            Step::Feeds(&ENQUIRE, Given::Nothing),
        ],
    ),
    // What is read behind the unbind is refused.
    (
        "an unbind is answered behind the requests",
        &[
            BINDS,
            SUBMITS,
            Step::Feeds(&UNBIND, Given::Unbound),
            Step::Is(SessionState::Finishing),
            Step::Feeds(&SUBMIT, Given::Answer(&SUBMIT_REFUSED)),
            Step::Feeds(
                &BIND,
                Given::BindRefused(&BIND_REFUSED, CommandStatus::ESME_RINVBNDSTS, b"app1"),
            ),
            Step::Feeds(&UNBIND, Given::Answer(&UNBIND_REFUSED)),
            Step::Feeds(&LEFT, Given::Nothing),
            Step::Answers(Reply::Submitted, Some(&SUBMIT_AND_UNBIND_ANSWERS)),
            Step::Is(SessionState::Closed),
        ],
    ),
    (
        "two requests of one number are owed two answers",
        &[
            BINDS,
            SUBMITS,
            SUBMITS,
            Step::Feeds(&UNBIND, Given::Unbound),
            Step::Answers(Reply::Submitted, Some(&SUBMIT_ANSWER)),
            Step::Is(SessionState::Finishing),
            Step::Answers(Reply::Submitted, Some(&SUBMIT_AND_UNBIND_ANSWERS)),
            Step::Is(SessionState::Closed),
        ],
    ),
    (
        "the centre's own unbind ends a session with its answer, and with no other",
        &[
            BINDS,
            Step::Feeds(&LEFT, Given::Nothing),
            Step::Unbinds(&OWN_UNBIND),
            Step::Is(SessionState::Unbinding),
            Step::Feeds(&SUBMIT, Given::Answer(&SUBMIT_REFUSED)),
            Step::Feeds(&LEFT_OTHERWISE, Given::Nothing),
            Step::Feeds(&LEFT, Given::Unbound),
            Step::Is(SessionState::Closed),
        ],
    ),
    (
        "the centre's own unbind ends a session behind the requests",
        &[
            BINDS,
            SUBMITS,
            Step::Unbinds(&OWN_UNBIND),
            Step::Feeds(&LEFT, Given::Unbound),
            Step::Is(SessionState::Finishing),
            Step::Answers(Reply::Submitted, Some(&SUBMIT_ANSWER)),
            Step::Is(SessionState::Closed),
        ],
    ),
    (
        "both sides send unbind",
        &[
            BINDS,
            SUBMITS,
            Step::Unbinds(&OWN_UNBIND),
            Step::Feeds(&UNBIND, Given::Unbound),
            Step::Answers(Reply::Submitted, Some(&SUBMIT_AND_UNBIND_ANSWERS)),
            Step::Is(SessionState::Closed),
        ],
    ),
    (
        "octets that are no PDUs end a session behind the requests",
        &[
            BINDS,
            SUBMITS,
            Step::Feeds(&SHORT_LENGTH, Given::Answer(&LENGTH_REFUSED)),
            Step::Is(SessionState::Broken),
            Step::Feeds(&ENQUIRE, Given::Nothing),
            Step::Answers(Reply::Submitted, Some(&SUBMIT_ANSWER)),
            Step::Is(SessionState::Closed),
        ],
    ),
    // Fields of 17 octets, and message_payload: three octets behind a tag and a length.
    (
        "an application of SMPP 3.4 gets parameters",
        &[BINDS, Step::DeliversSoMany(40)],
    ),
    (
        "an application of SMPP 3.3 gets none",
        &[
            Step::Feeds(&BIND_3_3, Given::Bind(&ANSWER_3_3)),
            Step::DeliversSoMany(33),
        ],
    ),
];
