//! What the sides have in the end. A handset is named by the digits of its number.
use sms_base::{Carried, Digits, Holder, Moment, Octets};

/// A TPDU that a handset accepted under a reference, as received.
#[derive(Drop)]
pub struct AcceptedRow {
    pub handset: Digits,
    pub reference: u8,
    pub tpdu: Octets,
}

/// How the units of a joined content are coded: compressed text counts as octets.
#[derive(Clone, Copy, PartialEq, Eq)]
pub enum JoinedCoding {
    Septets,
    Octets,
    Ucs2,
}

/// A long message that a handset joined.
#[derive(Drop)]
pub struct JoinedRow {
    pub handset: Digits,
    /// The digits or the name of its source.
    pub from: Digits,
    pub coding: JoinedCoding,
    /// Septets, one an octet; octets; or the octets of UCS2.
    pub units: Octets,
}

/// How far an entry of an outbox is.
#[derive(Clone, Copy, PartialEq, Eq)]
pub enum EntryState {
    Queued,
    Sending,
    Sent,
    Failed,
    Unsure,
}

/// An entry of an outbox.
#[derive(Drop)]
pub struct OutboxRow {
    pub handset: Digits,
    pub entry: u32,
    pub state: EntryState,
}

/// The way to the centre, or to a handset.
#[derive(Clone, Copy, PartialEq, Eq)]
pub enum Direction {
    Up,
    Down,
}

/// A reference that was given: by the centre for what it sends, by the handset for what it sends.
#[derive(Drop)]
pub struct GivenRow {
    pub handset: Digits,
    pub direction: Direction,
    pub reference: u8,
    pub holder: Holder,
    pub moment: Moment,
}

/// A frame that was sent.
#[derive(Drop)]
pub struct FrameRow {
    /// The frame's number, from 1.
    pub number: u64,
    pub direction: Direction,
    pub handset: Digits,
    /// What it carries, unless it is a CP-ACK or a CP-ERROR.
    pub carried: Option<Carried>,
    pub octets: Octets,
}
