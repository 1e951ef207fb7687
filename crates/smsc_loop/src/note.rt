//! What an endpoint did, and what happened to it.
ghost use Rattle.std.specs.Prelude.{◌≡◌};

use smpp_session::BindKind;
use sms_base::{Digits, Msisdn};

/// How much an endpoint did.
#[derive(Clone, Copy, PartialEq, Eq)]
pub struct Counts {
    /// Requests of a session, or frames of a link, that were passed up.
    pub requests: u64,
    /// Requests submit_sm among them.
    pub submits: u64,
    /// Receipts that were sent.
    pub receipts: u64,
    /// Octets that were received.
    pub received: u64,
    /// Octets that were sent.
    pub sent: u64,
}

/// Why an endpoint left.
#[derive(Clone, Copy, PartialEq, Eq)]
pub enum LeaveReason {
    /// The other side ended the connection, or it failed.
    Closed,
    /// The session or link was over: what it was last sent says why.
    Over,
    /// The endpoint did not say who it is in time.
    Silent,
    /// The endpoint took no octets in time.
    Stalled,
    /// The endpoint answered no deliver_sm in time.
    Unanswered,
    /// The endpoint did not answer enquire_link in time.
    Inactive,
    /// The operator ended it.
    Ordered,
    /// The handset of the link has a newer one.
    Replaced,
    /// There was no memory, or an answer came that no request waits for. The keeper gives no such answer.
    NoMemory,
}

/// What an operator may want to know of an endpoint. It has no password and no text.
#[derive(Clone, Copy, PartialEq, Eq)]
pub enum Note {
    /// The account at this place is bound.
    Bound(u8, BindKind),
    /// A bind was refused with this command_status. It gave this system_id, which has no characters where it is not
    /// known. A question mark is in place of each octet that is a quotation mark, an equals sign or no visible ASCII character.
    BindRefused(u32, Digits),
    /// The third wrong bind has ended the session.
    WrongBinds,
    /// The account is bound no longer.
    Unbound,
    /// A submit_sm was refused with this command_status.
    SubmitRefused(u32),
    /// The link is that of this handset.
    LinkUp(Msisdn),
    /// The first frame names no handset.
    NoNumber,
    /// The first frame names this handset, and has another secret than it, or none.
    WrongSecret(Msisdn),
    /// The handset has a link at another seat, which is to end for this one.
    Taken(Msisdn),
    /// The handset's other link did not end in time.
    NotReplaced(Msisdn),
    /// The octets are no stream of frames.
    NoFrames,
    /// The endpoint has left.
    Ended(LeaveReason, Counts),
}

impl Counts {
    /// Nothing.
    pub fn none() -> Counts
        ensures { result ≡ record { requests = 0; submits = 0; receipts = 0; received = 0; sent = 0 } }
    {
        Counts {
            requests: 0,
            submits: 0,
            receipts: 0,
            received: 0,
            sent: 0,
        }
    }
}
