//! Each deliver_sm that is sent, and its answer.
use crate::smpp::exchanges::{
    BIND, BIND_ANSWER, BIND_RECEIVER, BIND_TRANSMITTER, DELIVERED_4, RECEIVER_ANSWER,
    SUBMIT_HEADER, SUBMIT_NOT_BOUND, TRANSMITTER_ANSWER,
};
use crate::smpp::sessions::{Course, Given, Step};
use smpp_session::DeliverFault;

pub(crate) const DELIVERIES: &[Course] = &[
    // The deliver_sm of number 4 is accepted, and there is room for one more.
    (
        "ten are delivered",
        &[
            Step::Feeds(&BIND, Given::Bind(&BIND_ANSWER)),
            Step::Delivers(1),
            Step::Delivers(2),
            Step::Delivers(3),
            Step::Delivers(4),
            Step::Delivers(5),
            Step::Delivers(6),
            Step::Delivers(7),
            Step::Delivers(8),
            Step::Delivers(9),
            Step::Delivers(10),
            Step::Refuses(DeliverFault::WindowFull),
            Step::Feeds(&DELIVERED_4, Given::Accepted(4)),
            Step::Delivers(11),
        ],
    ),
    // The state is looked at before the body, which is missing here.
    (
        "a receiver submits nothing",
        &[
            Step::Feeds(&BIND_RECEIVER, Given::Bind(&RECEIVER_ANSWER)),
            Step::Feeds(&SUBMIT_HEADER, Given::Answer(&SUBMIT_NOT_BOUND)),
        ],
    ),
    (
        "nothing is delivered to a transmitter",
        &[
            Step::Refuses(DeliverFault::NotBound),
            Step::Feeds(&BIND_TRANSMITTER, Given::Bind(&TRANSMITTER_ANSWER)),
            Step::Refuses(DeliverFault::NotBound),
        ],
    ),
];
