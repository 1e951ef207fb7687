//! A tick.
ghost use Rattle.std.specs.Prelude.{◌≡◌, OnOk};
ghost use Rattle.sms_centre_messages.specs.message_index.MessageIndex.{Represents as MessagesRepresent};
ghost use Rattle.sms_centre_spec.specs.CentreEvent.{aged, at_moment, fired, raised};
ghost use Rattle.sms_centre_spec.specs.Draft.{Draft, messages_in, parts_in};
ghost use Rattle.sms_centre_draft.specs.CentreDraft.{Represents as DraftRepresents};

use crate::aging::{drop_old, expire};
use crate::walks::{fire, raise};
use sms_base::Moment;
use sms_centre_draft::CentreDraft;
use sms_centre_messages::message_index::MessageIndex;
use std::alloc::AllocError;

// Messages expire, and status reports are dropped.
fn age(draft: &mut CentreDraft<'_>, message_index: &MessageIndex) -> Result<(), AllocError>
    ensures { (d : Draft) → DraftRepresents d draft.old → MessagesRepresent message_index.now (messages_in d.store) (parts_in d.store)
        → OnOk result (DraftRepresents (aged d) draft.new) }
{
    expire(draft, message_index)?;
    drop_old(draft)
}

/// Sets the moment, if it isn't past, and does all that a tick does but receipts and offers. What is kept of messages
/// is what is there.
pub fn tick(
    draft: &mut CentreDraft<'_>,
    message_index: &MessageIndex,
    now: Moment,
) -> Result<(), AllocError>
    ensures { (d : Draft) → DraftRepresents d draft.old → MessagesRepresent message_index.now (messages_in d.store) (parts_in d.store)
        → OnOk result (DraftRepresents (raised (fired (aged (at_moment now d)))) draft.new) }
{
    draft.at_moment(now);
    age(draft, message_index)?;
    fire(draft)?;
    raise(draft)
}
