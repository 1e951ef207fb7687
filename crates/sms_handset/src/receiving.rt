//! Frames and ticks, and what follows every event.
ghost use Rattle.std.specs.Prelude.{◌≡◌, IfOk, OnOk};
ghost use Rattle.sms_handset_draft.specs.Draft.{link_of, no_changes};
ghost use Rattle.sms_handset_draft.specs.FramesAndTicks.{at_moment, frame_heard, timers_fired};
ghost use Rattle.sms_handset_draft.specs.GroupChanges.{frame_groups};
ghost use Rattle.sms_handset_draft.specs.Outbox.{follow};
ghost use Rattle.sms_link.specs.LinkTurn.{fired, taken};

use sms_base::{Holder, Moment};
use sms_handset_draft::{Draft, NoMemory};
use sms_handset_receiving::frame_received;
use sms_handset_rows::inbox::Regrouping;

/// Takes a frame.
pub(crate) fn frame_and_follow(
    draft: &mut Draft<'_>,
    octets: &[u8],
    tag: Holder,
) -> Result<Regrouping, NoMemory>
    requires untouched { draft.old.changes ≡ no_changes }
    ensures moves { OnOk result (draft.new ≡ follow (frame_heard tag (taken octets.now (link_of draft.old)) draft.old)) }
    ensures groups { IfOk result (λ change. change ≡ frame_groups (taken octets.now (link_of draft.old)) draft.old) }
{
    let regrouping = frame_received(draft, octets, tag)?;
    draft.follow()?;
    Ok(regrouping)
}

/// Lets it be that moment.
pub(crate) fn tick_and_follow(draft: &mut Draft<'_>, now: Moment) -> Result<(), NoMemory>
    ensures { OnOk result (draft.new ≡ follow (timers_fired (fired (at_moment now draft.old).moment (link_of (at_moment now draft.old)))
        (at_moment now draft.old))) }
{
    draft.tick(now)?;
    draft.follow()
}
