//! Rows that change.
ghost use Rattle.std.specs.Prelude.{◌≡◌, IfOk};
ghost use Rattle.sms_centre_rows.specs.messages.Messages.{ended as ended_of};

use sms_base::{FinalState, Moment};
use sms_centre_messages::message_index::copy_of_originator;
use sms_centre_rows::messages::MessageRow;
use std::alloc::{AllocError, Global};

/// The row of the message once it ended so at that moment, in memory of its own.
pub(crate) fn ended(
    alloc: Global,
    state: FinalState,
    now: Moment,
    message: &MessageRow,
) -> Result<MessageRow, AllocError>
    ensures { IfOk result (λ row. row ≡ ended_of state now message.now) }
{
    let originator = copy_of_originator(alloc, &message.originator)?;
    Ok(MessageRow {
        id: message.id,
        originator,
        source: message.source,
        handset: message.handset,
        data_coding_scheme: message.data_coding_scheme,
        protocol_identifier: message.protocol_identifier,
        wish: message.wish,
        submitted: message.submitted,
        limit: message.limit,
        split_reference: message.split_reference,
        state: Some(state),
        done: Some(now),
    })
}
