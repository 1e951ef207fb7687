//! The ends of messages.
ghost use Rattle.std.specs.Prelude.{◌≡◌, IfOk, option_copied};
ghost use Rattle.sms_centre_spec.specs.Draft.{Core};
ghost use Rattle.sms_centre_rows.specs.messages.Messages.{message_at, message_key};
ghost use Rattle.sms_centre.specs.state.CentreState.{Represents};
ghost use Rattle.sms_rows.specs.table.Table.{all_applied, change_row, newest_of};
ghost use Rattle.smsc_service.specs.Replies.{end_in, end_of as end_of_row};

use sms_base::MessageId;
use sms_centre::{Centre, Plan};
use sms_centre_rows::messages::{MessageRow, newest_change};
use sms_centre_spec::final_of;
use sms_receipt::Final;
use sms_rows::table::{Change, Key};
use std::alloc::AllocError;

// What is reported of the message, if it ended.
fn end_of(message: &MessageRow) -> Option<Final>
    ensures { result ≡ end_in message.now message.now.state }
{
    let state = message.state?;
    let done = message.done?;
    Some(final_of(state, done, message))
}

// What is reported of the message that the change left.
fn end_left(change: &Change<MessageRow>) -> Option<Final>
    ensures { result ≡ end_of_row (change_row change.now) }
{
    match change.row() {
        Some(message) => end_of(message),
        None => None,
    }
}

// The newest change of the message's row that is planned.
fn newest_in(planned: &Plan, id: MessageId) -> Option<&Change<MessageRow>>
    ensures { option_copied result ≡ newest_of message_key id planned.entry.now.plan.changes.messages }
{
    newest_change(planned.changes().messages.as_slice(), Key::of(id.number()))
}

// What is reported of the message as the centre has it.
fn end_at(centre: &Centre, id: MessageId) -> Result<Option<Final>, AllocError>
    ensures { (c : Core) → Represents c centre.now → IfOk result (λ end. end ≡ end_of_row (message_at id c.rows.messages)) }
{
    match centre.message(id)? {
        Some(row) => Ok(end_of(&row)),
        None => Ok(None),
    }
}

/// What a report says of the message once the plan is adopted, if it has ended then.
pub(crate) fn end_after(
    centre: &Centre,
    planned: &Plan,
    id: MessageId,
) -> Result<Option<Final>, AllocError>
    ensures { (c : Core) → Represents c centre.now → IfOk result
        (λ end. end ≡ end_of_row (message_at id (all_applied message_key planned.now.plan.changes.messages c.rows.messages))) }
{
    match newest_in(planned, id) {
        Some(change) => Ok(end_left(change)),
        None => end_at(centre, id),
    }
}
