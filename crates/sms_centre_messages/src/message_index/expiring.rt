//! Which messages expire.
ghost use Rattle.std.specs.Prelude.{◌≡◌, ◌++◌, List, None, IfOk, OnOk};
ghost use Rattle.sms_centre_messages.specs.message_index.Expiring.{confirmed, confirmed_one};
ghost use Rattle.sms_centre_messages.specs.message_index.MessageIndex.{Represents, past_ids};
ghost use Rattle.sms_centre_rows.specs.declared.messages.message.MessageRow.{MessageRow as MessageRowOf};
ghost use Rattle.sms_centre_rows.specs.declared.messages.part.PartRow.{PartRow as PartRowOf};

use crate::message_index::index::MessageIndex;
use sms_base::{MessageId, Moment};
use std::alloc::{AllocError, Global};

impl MessageIndex {
    /// The numbers of the messages that are pending and whose time has ended, in order, each once. It costs a logarithm
    /// for each. It also costs one for each that ended before its time and whose deadline is still there.
    pub fn expired(&self, alloc: Global, now: Moment) -> Result<Vec<MessageId>, AllocError>
        ensures { (ms : List MessageRowOf) (ps : List PartRowOf) → Represents self.now ms ps → IfOk result (λ ids. ids.items ≡ past_ids now ms) }
    {
        let numbers = self.past(alloc, now)?;
        let mut ids = Vec::new(alloc);
        match self.confirm_each(numbers.as_slice(), now, &mut ids) {
            Ok(()) => Ok(ids),
            Err(error) => {
                drop(ids);
                Err(error)
            }
        }
    }

    // The numbers are added to the others, each once, of which the message is pending and past its time.
    fn confirm_each(
        &self,
        numbers: &[u64],
        now: Moment,
        ids: &mut Vec<MessageId>,
    ) -> Result<(), AllocError>
        ensures { (ms : List MessageRowOf) (ps : List PartRowOf) → Represents self.now ms ps
            → OnOk result (ids.new.items ≡ ids.old.items ++ confirmed now ms None numbers.now) }
    {
        let mut last = None;
        for number in numbers {
            self.confirm(*number, last, now, ids)?;
            last = Some(*number);
        }
        Ok(())
    }

    // The number is added to the others, if it isn't the one before and its message is pending and past its time.
    fn confirm(
        &self,
        number: u64,
        last: Option<u64>,
        now: Moment,
        ids: &mut Vec<MessageId>,
    ) -> Result<(), AllocError>
        ensures { (ms : List MessageRowOf) (ps : List PartRowOf) → Represents self.now ms ps
            → OnOk result (ids.new.items ≡ ids.old.items ++ confirmed_one now ms last number) }
    {
        let is_repeated = match last {
            Some(before) => before == number,
            None => false,
        };
        if is_repeated {
            return Ok(());
        }
        if let Some(id) = self.past_id(number, now) {
            ids.push(id)?;
        }
        Ok(())
    }
}
