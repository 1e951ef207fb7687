//! A centre's messages, listed one by one.
ghost use Rattle.std.specs.Prelude.{◌≡◌, List, length, slice_get};
ghost use Rattle.std.specs.Option.{option_map};
ghost use Rattle.sms_centre_messages.specs.message_index.MessageIndex.{Represents};
ghost use Rattle.sms_centre_messages.specs.message_index.Summaries.{summary_of};
ghost use Rattle.sms_centre_rows.specs.declared.messages.message.MessageRow.{MessageRow as MessageRowOf};
ghost use Rattle.sms_centre_rows.specs.declared.messages.part.PartRow.{PartRow as PartRowOf};

use crate::message_index::index::MessageIndex;
use sms_base::{Address, FinalState, MessageId, Msisdn};

/// The source and the destination of a message, and how it ended.
#[derive(Clone, Copy, PartialEq, Eq)]
pub struct MessageSummary {
    pub id: MessageId,
    /// TP-OA of its parts.
    pub source: Address,
    /// The number of its destination.
    pub handset: Msisdn,
    /// How it ended; a message without an end is pending.
    pub state: Option<FinalState>,
}

impl MessageIndex {
    /// How many messages there are.
    pub fn len(&self) -> usize
        ensures { (ms : List MessageRowOf) (ps : List PartRowOf) → Represents self.now ms ps → result ≡ length ms }
    {
        self.messages.len()
    }

    /// The message at that place, in the order of numbers, from place 0 on.
    pub fn summary(&self, place: usize) -> Option<MessageSummary>
        ensures { (ms : List MessageRowOf) (ps : List PartRowOf) → Represents self.now ms ps → result ≡ option_map summary_of (slice_get ms place) }
    {
        match self.messages.get(place) {
            Some(entry) => self.names.summary(entry),
            None => None,
        }
    }
}
