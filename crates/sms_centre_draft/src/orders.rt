//! An operator's retry: all of a message that waits for its handset becomes due.
ghost use Rattle.std.specs.Prelude.{◌≡◌, Some, IfOk, OnOk};
ghost use Rattle.sms_centre_rows.specs.messages.Messages.{message_at};
ghost use Rattle.sms_centre_spec.specs.Draft.{Draft, in_store, messages_in, waiting_in};
ghost use Rattle.sms_centre_spec.specs.Orders.{is_part_of as is_part_of_it, message_due as message_due_of, parts_among as parts_among_of};
ghost use Rattle.sms_centre_draft.specs.CentreDraft.{Represents};

use crate::centre_draft::CentreDraft;
use sms_base::MessageId;
use sms_centre_rows::messages::MessageRow;
use sms_centre_rows::waiting::QueuedPart;
use std::alloc::AllocError;

fn is_part_of(id: MessageId, queued: &QueuedPart) -> bool
    ensures { result ≡ is_part_of_it id queued.now }
{
    queued.id == id && queued.number != 0
}

// The parts of the message among what waits.
fn parts_among(id: MessageId, all_queued: Vec<QueuedPart>) -> Vec<QueuedPart>
    ensures { result.items ≡ parts_among_of id all_queued.items }
{
    let mut all_queued = all_queued;
    all_queued.retain(|queued| is_part_of(id, queued));
    all_queued
}

impl<'a> CentreDraft<'a> {
    // The parts of the message that wait for its handset, in memory of its own.
    fn waiting_parts(&self, message: &MessageRow) -> Result<Vec<QueuedPart>, AllocError>
        ensures { (d : Draft) → Represents d self.now → message_at message.now.id (messages_in d.store) ≡ Some message.now
            → IfOk result (λ parts. parts.items ≡ parts_among_of message.now.id (waiting_in message.now.handset d.store)) }
    {
        let all_queued = self.waiting(message.handset)?;
        Ok(parts_among(message.id, all_queued))
    }

    /// All of the message that waits for its handset is due now.
    pub fn message_due(&mut self, message: &MessageRow) -> Result<(), AllocError>
        ensures { (d : Draft) → Represents d self.old → message_at message.now.id (messages_in d.store) ≡ Some message.now
            → OnOk result (Represents (in_store (message_due_of message.now d.store) d) self.new) }
    {
        let parts = self.waiting_parts(message)?;
        self.all_due(parts.as_slice())
    }
}
