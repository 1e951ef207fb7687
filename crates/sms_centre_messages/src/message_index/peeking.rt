//! A message, looked at without memory of its own.
ghost use Rattle.std.specs.Prelude.{◌≡◌, List};
ghost use Rattle.std.specs.Option.{option_map};
ghost use Rattle.sms_centre_messages.specs.message_index.MessageIndex.{Represents};
ghost use Rattle.sms_centre_messages.specs.message_index.Summaries.{is_of, summary_of};
ghost use Rattle.sms_centre_rows.specs.messages.Messages.{message_at};
ghost use Rattle.sms_centre_rows.specs.declared.messages.message.MessageRow.{MessageRow as MessageRowOf};
ghost use Rattle.sms_centre_rows.specs.declared.messages.part.PartRow.{PartRow as PartRowOf};

use crate::message_index::index::MessageIndex;
use crate::message_index::summary::MessageSummary;
use sms_base::MessageId;
use sms_rows::table::Key;

impl MessageIndex {
    /// The source and the destination of the message of that number, and how it ended. It takes no memory.
    pub fn peek(&self, id: MessageId) -> Option<MessageSummary>
        ensures { (ms : List MessageRowOf) (ps : List PartRowOf) → Represents self.now ms ps → result ≡ option_map summary_of (message_at id ms) }
    {
        match self.messages.find(Key::of(id.number())) {
            Some(entry) => self.names.summary(entry),
            None => None,
        }
    }

    /// Whether the message of that number was submitted by an application of the account with that name. It takes no memory.
    pub fn is_of(&self, id: MessageId, account: &[u8]) -> bool
        ensures { (ms : List MessageRowOf) (ps : List PartRowOf) → Represents self.now ms ps → result ≡ is_of account.now (message_at id ms) }
    {
        match self.messages.find(Key::of(id.number())) {
            Some(entry) => self.names.is_account(&entry.originator, account),
            None => false,
        }
    }
}
