//! What happens to a service.
use sms_base::{MessageId, Moment, Msisdn, Octets};
use sms_centre_spec::jobs::Job;
use sms_keeper::Stimulus;
use std::alloc::Global;

/// What a seat asks.
#[derive(Clone, Copy)]
pub(crate) enum Request {
    /// The session is bound, and takes receipts.
    Bound,
    /// So it is as the account app2, which has the second place.
    BoundSecond,
    Unbound,
    /// The session submits `hello` to the handset.
    Submits,
    /// So it does as app2.
    SubmitsSecond,
    /// The session has taken the receipt of message 1.
    Takes,
    /// The link is the handset's.
    Rises,
    Falls,
    /// A frame comes on the link.
    Sends(&'static [u8]),
}

/// 2024-02-29 23:59:58.
pub(crate) const START: u64 = 1_709_251_198;

// submit_sm of `hello` to 447700900456 with a receipt wanted, sequence number 2 (SMPP v3.4 4.4.1).
const SUBMIT: [u8; 50] = [
    0x00, 0x00, 0x00, 0x32, 0x00, 0x00, 0x00, 0x04, 0x00, 0x00, 0x00, 0x00, 0x00, 0x00, 0x00, 0x02,
    0x00, 0x00, 0x00, 0x00, 0x01, 0x01, 0x34, 0x34, 0x37, 0x37, 0x30, 0x30, 0x39, 0x30, 0x30, 0x34,
    0x35, 0x36, 0x00, 0x00, 0x00, 0x00, 0x00, 0x00, 0x01, 0x00, 0x00, 0x00, 0x05, 0x68, 0x65, 0x6C,
    0x6C, 0x6F,
];

/// The job by which a seat asks that.
pub(crate) fn job(alloc: Global, asked: &Request) -> Option<Job> {
    match asked {
        Request::Bound => Some(Job::Bound {
            account: 0,
            receives: true,
        }),
        Request::BoundSecond => Some(Job::Bound {
            account: 1,
            receives: true,
        }),
        Request::Unbound => Some(Job::Unbound),
        Request::Submits => Some(Job::Submit {
            account: 0,
            pdu: Octets::copy_of(alloc, &SUBMIT).ok()?,
        }),
        Request::SubmitsSecond => Some(Job::Submit {
            account: 1,
            pdu: Octets::copy_of(alloc, &SUBMIT).ok()?,
        }),
        Request::Takes => Some(Job::DeliverAnswered {
            id: MessageId::new(1)?,
            is_accepted: true,
        }),
        Request::Rises => Some(Job::LinkUp {
            handset: Msisdn::of(b"447700900456")?,
        }),
        Request::Falls => Some(Job::LinkDown),
        Request::Sends(octets) => Some(Job::Frame {
            octets: Octets::copy_of(alloc, octets).ok()?,
        }),
    }
}

/// The clock shows so many seconds after the start.
pub(crate) fn ticks(seconds: u32) -> Option<Stimulus<Job>> {
    let now = Moment::from_seconds(START + u64::from(seconds)).ok()?;
    Some(Stimulus::Tick(now))
}
