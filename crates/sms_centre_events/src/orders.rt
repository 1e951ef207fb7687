//! What an operator orders of a message.
ghost use Rattle.std.specs.Prelude.{◌≡◌, Some, OnOk};
ghost use Rattle.sms_centre_rows.specs.messages.Messages.{message_at};
ghost use Rattle.sms_centre_spec.specs.declared.order.Order.TheVariants.{Delete, Retry};
ghost use Rattle.sms_centre_spec.specs.Draft.{Draft, messages_in};
ghost use Rattle.sms_centre_spec.specs.Orders.{ordered, retried as retried_of};
ghost use Rattle.sms_centre_events.specs.Found.{IsStored};
ghost use Rattle.sms_centre_draft.specs.CentreDraft.{Represents};

use crate::questions::{cancel_found, refuse};
use smpp_pdu::CommandStatus;
use sms_base::MessageId;
use sms_centre_draft::CentreDraft;
use sms_centre_rows::messages::MessageRow;
use sms_centre_spec::{CentreAnswer, Order};
use std::alloc::AllocError;

// What waits of the message is due now, and its state is answered.
fn retried(draft: &mut CentreDraft<'_>, message: &MessageRow) -> Result<(), AllocError>
    ensures { (d : Draft) → Represents d draft.old → message_at message.now.id (messages_in d.store) ≡ Some message.now
        → OnOk result (Represents (retried_of (Some message.now) d) draft.new) }
{
    draft.message_due(message)?;
    draft.answer(CentreAnswer::Queried {
        id: message.id,
        state: message.state,
        done: message.done,
    });
    Ok(())
}

fn retry_found(draft: &mut CentreDraft<'_>, found: Option<MessageRow>) -> Result<(), AllocError>
    ensures { (d : Draft) → Represents d draft.old → IsStored found d.store → OnOk result (Represents (retried_of found d) draft.new) }
{
    match found {
        Some(message) => retried(draft, &message),
        None => {
            refuse(draft, CommandStatus::ESME_RINVMSGID);
            Ok(())
        }
    }
}

fn retry(draft: &mut CentreDraft<'_>, id: MessageId) -> Result<(), AllocError>
    ensures { (d : Draft) → Represents d draft.old → OnOk result (Represents (ordered Retry id d) draft.new) }
{
    let found = draft.find(id)?;
    retry_found(draft, found)
}

fn delete(draft: &mut CentreDraft<'_>, id: MessageId) -> Result<(), AllocError>
    ensures { (d : Draft) → Represents d draft.old → OnOk result (Represents (ordered Delete id d) draft.new) }
{
    let found = draft.find(id)?;
    cancel_found(draft, found)
}

/// Does what an operator orders of the message of that number, whoever sent it. A retry makes what waits of it due, and
/// answers its state. An order to delete ends it and makes its report; it is refused of one that has ended
/// (ESME_RCANCELFAIL). Refused is either where there is no such message (ESME_RINVMSGID).
pub fn order(draft: &mut CentreDraft<'_>, order: Order, id: MessageId) -> Result<(), AllocError>
    ensures { (d : Draft) → Represents d draft.old → OnOk result (Represents (ordered order id d) draft.new) }
{
    match order {
        Order::Retry => retry(draft, id),
        Order::Delete => delete(draft, id),
    }
}
