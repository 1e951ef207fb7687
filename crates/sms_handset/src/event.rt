//! What a handset meets.
use crate::text_view::TextView;
use sms_base::{Holder, Moment, OctetView};

/// What a handset meets.
#[derive(Drop)]
pub enum HandsetEvent<'a> {
    /// A frame arrived. The tag is the holder for which it was made, where that is known: a frame from a socket has
    /// none.
    Frame {
        octets: OctetView<'a>,
        tag: Option<Holder>,
    },
    /// Time has passed.
    Tick {
        now: Moment,
    },
    /// The owner writes a text to a number; `report` asks for a status report.
    Write {
        text: TextView<'a>,
        to: TextView<'a>,
        report: bool,
    },
    /// The owner deletes an entry of the inbox or the outbox, by its number.
    Delete {
        entry: u32,
    },
    /// The owner discards an open group, by the number of its first stored part.
    Discard {
        entry: u32,
    },
}
