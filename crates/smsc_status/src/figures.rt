//! The figures of a run, at one moment.
ghost use Rattle.std.specs.Prelude.{◌≡◌};
ghost use Rattle.smsc_status.specs.Kinds.{kind_word};

use crate::commits::CommitFigures;
use crate::groups::GroupFigures;
use sms_base::{MessageId, Moment};

/// How a session is bound.
#[derive(Clone, Copy)]
pub enum SessionKind {
    Transmitter,
    Receiver,
    Transceiver,
}

impl SessionKind {
    /// The word of the kind on the page.
    pub fn word(self) -> &'static str
        ensures { result.now ≡ kind_word self }
    {
        match self {
            SessionKind::Transmitter => "transmitter",
            SessionKind::Receiver => "receiver",
            SessionKind::Transceiver => "transceiver",
        }
    }
}

/// A session that is bound.
#[derive(Drop)]
pub struct SessionLine {
    pub seat: usize,
    /// The system_id of its account.
    pub account: String,
    pub kind: SessionKind,
    /// When it was bound.
    pub since: Moment,
    /// How many submit_sm it sent.
    pub submits: u64,
    /// How many receipts it was sent.
    pub receipts: u64,
    /// How many of its requests have no answer yet.
    pub window: u64,
}

/// The link of a handset.
#[derive(Drop)]
pub struct LinkLine {
    pub seat: usize,
    /// The number of the handset.
    pub handset: String,
    /// When it began.
    pub since: Moment,
    /// How many parts and status reports wait for the handset.
    pub waiting: u64,
    /// The handset said that it has no memory.
    pub is_full: bool,
    /// Something to the handset is under way.
    pub is_under_way: bool,
}

/// What all sessions of an account did since the run began.
#[derive(Drop)]
pub struct AccountLine {
    /// The system_id of the account.
    pub account: String,
    /// How many submit_sm they sent.
    pub submits: u64,
    /// How many receipts they were sent.
    pub receipts: u64,
}

/// Requests submit_sm of an account that were refused alike.
#[derive(Drop)]
pub struct RefusedSubmits {
    /// The system_id of the account.
    pub account: String,
    /// The command_status of their answers (SMPP v3.4 5.1.3).
    pub status: u32,
    pub count: u64,
}

/// Binds that were refused alike.
#[derive(Clone, Copy)]
pub struct RefusedBinds {
    pub reason: &'static str,
    pub count: u64,
}

/// What handsets refused alike of what was delivered to them.
#[derive(Clone, Copy)]
pub struct RefusedDeliveries {
    /// The cause of their RP-ERROR (3GPP TS 24.011 8.2.5.4), and its name.
    pub cause: u8,
    pub reason: &'static str,
    pub count: u64,
}

/// A cause by which a handset refused something (3GPP TS 24.011 8.2.5.4), and its name.
#[derive(Clone, Copy)]
pub struct LastCause {
    pub cause: u8,
    pub reason: &'static str,
}

/// A handset for which short messages wait.
#[derive(Drop)]
pub struct StuckLine {
    /// The number of the handset.
    pub handset: String,
    /// How many short messages wait for it.
    pub waiting: u64,
    /// When the oldest of their messages was submitted.
    pub since: Moment,
    /// How often the short message was tried in vain that was tried in vain most often.
    pub failed: u64,
    /// The handset has a link.
    pub is_linked: bool,
    /// What it said last over its link as it refused something.
    pub cause: Option<LastCause>,
    /// When the next of them is offered; none where they wait for a link, or for memory of the handset.
    pub due: Option<Moment>,
}

/// A message that is pending.
#[derive(Clone, Copy)]
pub struct PendingMessage<'a> {
    pub id: MessageId,
    /// The number of its handset.
    pub handset: &'a str,
    pub submitted: Moment,
}

/// How many messages there are in each state.
#[derive(Clone, Copy, PartialEq, Eq)]
pub struct MessageFigures {
    pub enroute: u64,
    pub delivered: u64,
    pub expired: u64,
    pub deleted: u64,
    pub undeliverable: u64,
}

/// How many messages were accepted since a moment, and how many ended in each way.
#[derive(Clone, Copy)]
pub struct MessageCounts {
    pub accepted: u64,
    pub delivered: u64,
    pub expired: u64,
    pub deleted: u64,
    pub undeliverable: u64,
}

/// What happened within one second.
#[derive(Clone, Copy)]
pub struct Sample {
    pub submissions: u64,
    pub deliveries: u64,
    pub commits: u64,
}

/// The octets of a store's files.
#[derive(Clone, Copy)]
pub struct StoreFigures {
    pub file: u64,
    pub log: u64,
}

/// All that a status page says.
#[derive(Clone, Copy)]
pub struct StatusView<'a> {
    /// The number of the centre.
    pub centre: &'a str,
    /// What proves the program's sources, and which builds are proved.
    pub version: &'a str,
    /// When the run began.
    pub start: Moment,
    pub now: Moment,
    /// The messages of the store.
    pub messages: MessageFigures,
    /// The messages of this run, counted.
    pub counts: MessageCounts,
    pub sessions: &'a [SessionLine],
    pub links: &'a [LinkLine],
    /// The handsets for which most short messages wait, linked or not, that of most first.
    pub stuck: &'a [StuckLine],
    /// The oldest message that is pending.
    pub oldest: Option<PendingMessage<'a>>,
    /// The accounts of which a session did something in this run.
    pub accounts: &'a [AccountLine],
    /// The requests of this run that were refused.
    pub refused_submits: &'a [RefusedSubmits],
    pub refused_binds: &'a [RefusedBinds],
    pub refused_deliveries: &'a [RefusedDeliveries],
    /// The last ten minutes, a second each, the oldest first.
    pub samples: &'a [Sample],
    /// The last events, the oldest first.
    pub events: &'a [String],
    /// How many events found no room.
    pub lost_events: u64,
    /// How many lines of the log found no room or could not be written.
    pub lost_lines: u64,
    pub store: StoreFigures,
    pub commits: CommitFigures,
    pub groups: GroupFigures,
}

impl MessageFigures {
    /// How many messages there are once so many more were accepted and ended.
    pub fn with(&self, counts: &MessageCounts) -> MessageFigures {
        let ended = counts
            .delivered
            .saturating_add(counts.expired)
            .saturating_add(counts.deleted)
            .saturating_add(counts.undeliverable);
        MessageFigures {
            enroute: self
                .enroute
                .saturating_add(counts.accepted)
                .saturating_sub(ended),
            delivered: self.delivered.saturating_add(counts.delivered),
            expired: self.expired.saturating_add(counts.expired),
            deleted: self.deleted.saturating_add(counts.deleted),
            undeliverable: self.undeliverable.saturating_add(counts.undeliverable),
        }
    }
}
