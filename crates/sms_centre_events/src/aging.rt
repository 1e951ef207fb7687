//! Messages that expire, and status reports that are dropped.
ghost use Rattle.std.specs.Prelude.{◌≡◌, ◌≤◌, IfSome, OnOk};
ghost use Rattle.sms_centre_reports.specs.open_reports.Entries.{status_key, status_until};
ghost use Rattle.sms_rows.specs.index.First.{first_such, is_past_from};
ghost use Rattle.sms_centre_messages.specs.message_index.MessageIndex.{Represents as MessagesRepresent};
ghost use Rattle.sms_centre_draft.specs.walks.Expiring.{expire_at as expire_at_of, expire_numbers};
ghost use Rattle.sms_centre_spec.specs.CentreEvent.{dropped, expired};
ghost use Rattle.sms_centre_spec.specs.Draft.{Draft, in_store, messages_in, parts_in};
ghost use Rattle.sms_centre_draft.specs.CentreDraft.{Represents as DraftRepresents};

use sms_base::MessageId;
use sms_centre_draft::CentreDraft;
use sms_centre_draft::walks::laws::{
    messages_expire_by_numbers, old_reports_are_dropped_where_found,
};
use sms_centre_messages::message_index::MessageIndex;
use sms_centre_reports::open_reports::StatusEntry;
use std::alloc::AllocError;

// The message of that number expires, if it is pending and its time is over.
fn expire_at(draft: &mut CentreDraft<'_>, id: MessageId) -> Result<(), AllocError>
    ensures { (d : Draft) → DraftRepresents d draft.old → OnOk result (DraftRepresents (in_store (expire_at_of id d.store) d) draft.new) }
{
    let found = draft.find(id)?;
    match found {
        Some(message) => draft.expire(&message),
        None => Ok(()),
    }
}

// So do those of these numbers, one after the other.
fn expire_each(draft: &mut CentreDraft<'_>, ids: &[MessageId]) -> Result<(), AllocError>
    ensures { (d : Draft) → DraftRepresents d draft.old → OnOk result (DraftRepresents (in_store (expire_numbers ids.now d.store) d) draft.new) }
{
    for id in ids {
        expire_at(draft, *id)?;
    }
    Ok(())
}

/// All messages expire that are pending and whose time is over, by number. The index of messages is that of the rows.
pub(crate) fn expire(
    draft: &mut CentreDraft<'_>,
    message_index: &MessageIndex,
) -> Result<(), AllocError>
    ensures { (d : Draft) → DraftRepresents d draft.old → MessagesRepresent message_index.now (messages_in d.store) (parts_in d.store)
        → OnOk result (DraftRepresents (in_store (expired d.store) d) draft.new) }
{
    messages_expire_by_numbers();
    let now = draft.now();
    let ids = message_index.expired(draft.alloc(), now)?;
    expire_each(draft, ids.as_slice())
}

// The first open status report from that place on that is dropped by now.
fn next_old(draft: &CentreDraft<'_>, first: u64) -> Option<StatusEntry>
    ensures next { result ≡ first_such (is_past_from status_key status_until first draft.now.moment) draft.now.reports.current.statuses }
    ensures behind { IfSome result (λ e. first ≤ e.place) }
{
    draft.first_old(first)
}

/// All open status reports are dropped that were made too long ago, in the order in which they were made.
pub(crate) fn drop_old(draft: &mut CentreDraft<'_>) -> Result<(), AllocError>
    ensures { (d : Draft) → DraftRepresents d draft.old → OnOk result (DraftRepresents (in_store (dropped d.store) d) draft.new) }
{
    old_reports_are_dropped_where_found();
    let mut first: u64 = 0;
    'dropping: loop {
        let Some(entry) = next_old(draft, first) else {
            return Ok(());
        };
        draft.drop_status(entry.id)?;
        first = entry.place_behind()?;
    }
}
