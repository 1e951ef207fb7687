//! Deleting and discarding.
ghost use Rattle.std.specs.Prelude.{◌≡◌};
ghost use Rattle.sms_rows.specs.table.Table.{row_at};
ghost use Rattle.sms_handset_draft.specs.Draft.{no_changes};
ghost use Rattle.sms_handset_rows.specs.outbox.Keys.{out_key};
ghost use Rattle.sms_handset.specs.HandsetEvent.{acted};
ghost use Rattle.sms_handset.specs.OwnersActs.{delete as delete_of, delete_out as delete_out_of, discard as discard_of};
ghost use Rattle.sms_handset.specs.Planning.{Acts};

use crate::refusal::{PlanError, Refusal};
use sms_handset_draft::Draft;
use sms_handset_rows::inbox::DiscardedGroup;

fn delete_out(draft: &mut Draft<'_>, number: u32) -> Result<(), PlanError>
    requires untouched { draft.old.changes ≡ no_changes }
    ensures { Acts result draft.new (delete_out_of number (row_at out_key number draft.old.rows.outbox) draft.old) }
{
    let Some(entry) = draft.out_entry(number) else {
        return Err(PlanError::Refused(Refusal::NoEntry));
    };
    if entry.state.is_unfinished() {
        return Err(PlanError::Refused(Refusal::StillOpen));
    }
    draft.remove_out(number)?;
    Ok(())
}

fn delete(draft: &mut Draft<'_>, number: u32) -> Result<(), PlanError>
    requires untouched { draft.old.changes ≡ no_changes }
    ensures { Acts result draft.new (delete_of number draft.old) }
{
    let Some(entry) = draft.entry(number) else {
        return delete_out(draft, number);
    };
    if entry.message.is_open_part() {
        return Err(PlanError::Refused(Refusal::StillOpen));
    }
    draft.remove_entry(number)?;
    draft.free_slot();
    Ok(())
}

fn discard(draft: &mut Draft<'_>, number: u32) -> Result<(), PlanError>
    requires untouched { draft.old.changes ≡ no_changes }
    ensures { Acts result draft.new (discard_of number draft.old) }
{
    let Some(open) = draft.open_at(number) else {
        return Err(PlanError::Refused(Refusal::NoEntry));
    };
    if draft.marks().len() >= 64 {
        return Err(PlanError::Refused(Refusal::TooManyDiscarded));
    }
    let members = draft.members_in(open);
    let seen = members.numbers(draft.alloc())?;
    draft.drop_members(&members)?;
    draft.put_mark(DiscardedGroup {
        number,
        group: open.group,
        seen,
    })?;
    draft.free_slot();
    Ok(())
}

/// The owner deletes an entry, and what follows every event.
pub(crate) fn delete_and_follow(draft: &mut Draft<'_>, number: u32) -> Result<(), PlanError>
    requires untouched { draft.old.changes ≡ no_changes }
    ensures { Acts result draft.new (acted (delete_of number draft.old)) }
{
    delete(draft, number)?;
    draft.follow()?;
    Ok(())
}

/// The owner discards an open group, and what follows every event.
pub(crate) fn discard_and_follow(draft: &mut Draft<'_>, number: u32) -> Result<(), PlanError>
    requires untouched { draft.old.changes ≡ no_changes }
    ensures { Acts result draft.new (acted (discard_of number draft.old)) }
{
    discard(draft, number)?;
    draft.follow()?;
    Ok(())
}
