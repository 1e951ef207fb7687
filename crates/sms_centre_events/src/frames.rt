//! A frame that a handset sends up.
ghost use Rattle.std.specs.Prelude.{OnOk};
ghost use Rattle.sms_centre_rows.specs.waiting.Links.{link_of};
ghost use Rattle.sms_centre_spec.specs.CentreEvent.{frame_taken as frame_taken_of, went_up as went_up_of};
ghost use Rattle.sms_centre_spec.specs.Draft.{Draft};
ghost use Rattle.sms_centre_events.specs.Knowing.{Knows};
ghost use Rattle.sms_centre_draft.specs.CentreDraft.{Represents};

use crate::units::unit_received;
use sms_base::{Holder, Msisdn};
use sms_centre_draft::CentreDraft;
use sms_centre_messages::message_index::MessageIndex;
use sms_centre_messages::references::ReferenceIndex;
use sms_centre_transfers::conclude;
use sms_link::Upward;
use std::alloc::AllocError;

// What the handset's link passed up.
fn went_up(
    draft: &mut CentreDraft<'_>,
    message_index: &MessageIndex,
    reference_index: &ReferenceIndex,
    handset: Msisdn,
    tag: Holder,
    up: Option<Upward>,
) -> Result<(), AllocError>
    ensures { (d : Draft) → Represents d draft.old → Knows message_index.now reference_index.now d.store
        → OnOk result (Represents (went_up_of handset tag up d) draft.new) }
{
    match up {
        Some(Upward::Opened(unit)) => unit_received(
            draft,
            message_index,
            reference_index,
            handset,
            tag,
            unit.as_slice(),
        ),
        Some(Upward::Ended { transfer, ending }) => conclude(draft, handset, &transfer, &ending),
        None => Ok(()),
    }
}

/// Takes a frame of the handset with that tag, whatever its octets.
pub fn frame_taken(
    draft: &mut CentreDraft<'_>,
    message_index: &MessageIndex,
    reference_index: &ReferenceIndex,
    handset: Msisdn,
    octets: &[u8],
    tag: Holder,
) -> Result<(), AllocError>
    ensures { (d : Draft) → Represents d draft.old → Knows message_index.now reference_index.now d.store
        → OnOk result (Represents (frame_taken_of octets.now tag (link_of handset d.links.all) d) draft.new) }
{
    let up = draft.take(handset, octets)?;
    went_up(draft, message_index, reference_index, handset, tag, up)
}
