//! What a store holds as a run starts.
use crate::store_files::{StorePaths, octets_at};
use sms_base::Moment;
use sms_centre_recovery::starting::moment_among;
use sms_centre_rows::messages::MessageRow;
use sms_centre_spec::Rows;
use smsc_observer::message_figures;
use smsc_status::MessageFigures;

/// What the rows of a store say.
#[derive(Clone, Copy)]
pub struct Summary {
    /// How many messages are pending.
    pub open: usize,
    /// How many messages there are.
    pub all: usize,
    /// The greatest number of a message, or 0.
    pub greatest: u64,
    /// The newest moment, or that of the start.
    pub newest: Moment,
    /// How many messages are in each state.
    pub messages: MessageFigures,
}

fn open_among(messages: &[MessageRow]) -> usize {
    messages
        .iter()
        .filter(|message| message.state.is_none())
        .count()
}

fn greatest_of(messages: &[MessageRow]) -> u64 {
    match messages.last() {
        Some(message) => message.id.number(),
        None => 0,
    }
}

/// What these rows say; where they have no moment, that of the start is the newest.
pub fn summary_of(rows: &Rows, start: Moment) -> Summary {
    let messages = rows.messages.as_slice();
    let references = rows.references.as_slice();
    let reports = rows.reports.as_slice();
    Summary {
        open: open_among(messages),
        all: messages.len(),
        greatest: greatest_of(messages),
        newest: moment_among(start, messages, references, reports),
        messages: message_figures(messages),
    }
}

/// How many messages are left in each state once these are gone.
pub fn without(all: &MessageFigures, gone: &MessageFigures) -> MessageFigures {
    MessageFigures {
        enroute: all.enroute.saturating_sub(gone.enroute),
        delivered: all.delivered.saturating_sub(gone.delivered),
        expired: all.expired.saturating_sub(gone.expired),
        deleted: all.deleted.saturating_sub(gone.deleted),
        undeliverable: all.undeliverable.saturating_sub(gone.undeliverable),
    }
}

/// What a store's files are before it is opened.
#[derive(Clone, Copy)]
pub struct Files {
    /// There is a file.
    pub is_there: bool,
    /// How many octets the log beside the file has.
    pub log_octets: u64,
}

/// The files of the store at the paths.
pub(crate) fn files_at(rt: &HostRuntime, paths: &StorePaths) -> Files {
    Files {
        is_there: octets_at(rt, paths.file.as_str()) > 0,
        log_octets: octets_at(rt, paths.log.as_str()),
    }
}
