//! What is submitted.
use crate::allowed_source::AllowedSource;
use sms_base::{Address, Listed, Moment, Msisdn, Octets, Originator, Priority, Wish};
use sms_concat::{ConcatKey, Content};

/// An application's account.
#[derive(Drop)]
pub struct CentreAccount {
    /// The account's name, the system_id of its sessions.
    pub name: Octets,
    /// The source of messages that name none.
    pub address: Address,
    /// The sources that its messages may name beside that; any where there are none.
    pub sources: Listed<AllowedSource>,
}

/// What one part carries.
#[derive(Drop)]
pub struct SinglePart {
    /// TP-UDHI.
    pub header_indicator: bool,
    /// TP-DCS.
    pub data_coding_scheme: u8,
    /// TP-UDL.
    pub length: u8,
    /// TP-UD.
    pub octets: Octets,
    /// The key of its header, if it has one.
    pub key: Option<ConcatKey>,
}

/// What a message is to say.
#[derive(Drop)]
pub enum Text {
    /// A content, in one part without a header, or split by the centre where it doesn't fit.
    Whole(Content),
    /// A text that is one part.
    Single(SinglePart),
}

/// A message that passed all checks that need no rows.
#[derive(Drop)]
pub struct Submission {
    pub originator: Originator,
    /// TP-OA of its parts.
    pub source: Address,
    /// The number of its handset.
    pub handset: Msisdn,
    /// TP-PID.
    pub protocol_identifier: u8,
    /// TP-RP.
    pub reply_path: bool,
    pub wish: Wish,
    /// TP-RD: it is refused where a message is pending already under its TP-MR.
    pub rejects_duplicates: bool,
    /// From when on it is not delivered any more.
    pub limit: Moment,
    /// From when on it is offered.
    pub due: Moment,
    pub priority: Priority,
    pub text: Text,
}
