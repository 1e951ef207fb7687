//! The newest of the changes of a message.
ghost use Rattle.std.specs.Prelude.{◌≡◌, option_copied};
ghost use Rattle.sms_centre_rows.specs.messages.Messages.{message_key};
ghost use Rattle.sms_rows.specs.table.Table.{newest_of};

use crate::messages::message::MessageRow;
use sms_rows::table::{Change, Key};

/// The newest change of the message of that key.
pub fn newest_change(changes: &[Change<MessageRow>], key: Key) -> Option<&Change<MessageRow>>
    ensures { option_copied result ≡ newest_of message_key key changes.now }
{
    for i in 0..changes.len() {
        let change = &changes[changes.len() - 1 - i];
        if change.key().number() == key.number() {
            return Some(change);
        }
    }
    None
}
