//! Frames that arrive.
ghost use Rattle.std.specs.Prelude.{◌≡◌, IfOk, OnOk};
ghost use Rattle.sms_link.specs.LinkTurn.{taken};
ghost use Rattle.sms_handset_draft.specs.Draft.{link_of, no_changes};
ghost use Rattle.sms_handset_draft.specs.GroupChanges.{frame_groups, up_groups};
ghost use Rattle.sms_handset_draft.specs.FramesAndTicks.{frame_heard, went_up as went_up_of};

use crate::receiving::unit_received;
use sms_base::Holder;
use sms_handset_draft::{Draft, NoMemory};
use sms_handset_rows::inbox::Regrouping;
use sms_link::Upward;

// What goes up from the link.
fn went_up(draft: &mut Draft<'_>, tag: Holder, up: &Option<Upward>) -> Result<Regrouping, NoMemory>
    requires untouched { draft.old.changes ≡ no_changes }
    ensures moves { OnOk result (draft.new ≡ went_up_of tag up.now draft.old) }
    ensures groups { IfOk result (λ change. change ≡ up_groups up.now draft.old) }
{
    match up {
        Some(Upward::Opened(unit)) => return unit_received(draft, tag, unit.as_slice()),
        Some(Upward::Ended { transfer, ending }) => draft.transfer_ended(transfer, ending)?,
        None => (),
    }
    Ok(Regrouping::Unchanged)
}

/// A frame arrived: what becomes of the open groups.
pub fn frame_received(
    draft: &mut Draft<'_>,
    octets: &[u8],
    tag: Holder,
) -> Result<Regrouping, NoMemory>
    requires untouched { draft.old.changes ≡ no_changes }
    ensures moves { OnOk result (draft.new ≡ frame_heard tag (taken octets.now (link_of draft.old)) draft.old) }
    ensures groups { IfOk result (λ change. change ≡ frame_groups (taken octets.now (link_of draft.old)) draft.old) }
{
    let up = draft.take(octets)?;
    went_up(draft, tag, &up)
}
