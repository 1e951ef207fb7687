//! Requests of applications, as a run has them.
use crate::sessions::can_be_written;
use smpp_pdu::Body;
use sms_script::requests::{cancel_of, query_of, submit_of};
use sms_script::{Act, Submission};
use std::alloc::{AllocError, Global};

/// A request of an application.
#[derive(Clone, Copy)]
pub(crate) struct Request<'a> {
    /// The name of its account.
    pub name: &'a [u8],
    /// The name of its command (SMPP v3.4 4).
    pub command: &'static str,
}

/// The request that the act is, if it is one.
pub(crate) fn request_of<'a, 'b>(act: &'b Act<'a>) -> Option<Request<'b>> {
    match act {
        Act::Submit(submission) => Some(Request {
            name: submission.name.as_slice(),
            command: "submit_sm",
        }),
        Act::Query { name, .. } => Some(Request {
            name: name.as_slice(),
            command: "query_sm",
        }),
        Act::Cancel { name, .. } => Some(Request {
            name: name.as_slice(),
            command: "cancel_sm",
        }),
        _ => None,
    }
}

fn submit_has_pdu(alloc: Global, submission: &Submission<'_>) -> Result<bool, AllocError> {
    let octets = submission.message.octets(alloc)?;
    let message = submit_of(
        submission,
        submission.to.as_slice(),
        submission.validity.as_slice(),
        octets.as_slice(),
    );
    Ok(can_be_written(&Body::SubmitSm(message)))
}

/// Whether there is a PDU that asks for it: texts of a script can be too long for their fields.
pub(crate) fn has_pdu(alloc: Global, act: &Act<'_>) -> Result<bool, AllocError> {
    match act {
        Act::Submit(submission) => submit_has_pdu(alloc, submission),
        Act::Query { id, .. } => Ok(can_be_written(&Body::QuerySm(query_of(id.as_slice())))),
        Act::Cancel { id, .. } => Ok(can_be_written(&Body::CancelSm(cancel_of(id.as_slice())))),
        _ => Ok(false),
    }
}
