//! The observer of a run.
use crate::seated::Seated;
use sms_base::{FinalState, MessageId, Msisdn};
use sms_centre_spec::Changes;
use sms_rows::keep::KeepError;
use smsc_arrivals::PeerKind;
use smsc_loop::{Activity, LeaveReason, Note};
use std::net::SocketAddr;

/// What happens in a run.
#[derive(Clone, Copy, PartialEq, Eq)]
pub enum Event {
    /// What the note says happened to the endpoint at the seat of the number. The endpoint's other side has the address.
    Endpoint(usize, SocketAddr, Note),
    /// A connection from this address ended without having said who it is.
    Unknown(PeerKind, SocketAddr, LeaveReason),
    /// A submit_sm of the account at this place was refused with this command_status; of none where nobody was bound.
    SubmitRefused(Option<u8>, u32),
    /// A connection waits at a port, and these have the seats of its side. It is told once a second at most.
    SeatsFull(Seated),
    /// A connection waits at a port, and the system gave no file for it. It is told once a second at most.
    NotAccepted,
    /// The store refused a group, and the centre started again with its rows.
    Reopened,
    /// The store refused a group, and could not be read again. Each request is refused until the run has ended.
    Failed,
    /// The store has a new message of this number, to that handset.
    Accepted(MessageId, Msisdn),
    /// The store has the end of the message of this number.
    Final(MessageId, FinalState),
}

/// The observer of a run.
pub trait Observer {
    /// Takes what happened. It may be called by several threads at once.
    fn observe(&self, event: &Event);

    /// Takes how much the endpoint at the seat of this number did so far.
    fn watch(&self, _seat: usize, _activity: &Activity) {}

    /// The keeper gave the outs of a group of so many items, at most 64.
    fn end_group(&self, _count: usize) {}

    /// A commit of the group is about to be made.
    fn begin_commit(&self) {}

    /// The commit ended. Where it was refused, it says why.
    fn end_commit(&self, _refused: Option<KeepError>) {}

    /// Takes what the commit changed, once it was made.
    fn committed(&self, _changes: &Changes) {}
}
