//! Acts of an owner.
use crate::TextView;
use sms_base::OctetView;

/// What the owner of a handset asks of it.
#[derive(Drop)]
pub enum OwnersAct<'a> {
    /// A text to a number, as it was written; `report` asks for a status report.
    Write {
        to: OctetView<'a>,
        report: bool,
        text: TextView<'a>,
    },
    /// An entry of the inbox or the outbox is deleted, by its number.
    Delete {
        entry: u64,
    },
    /// An open group is discarded, by the number of its first stored part.
    Discard {
        entry: u64,
    },
}
