//! Transfers that end by the loss of the link, or by a timer.
ghost use Rattle.std.specs.Prelude.{OnOk};
ghost use Rattle.sms_centre_rows.specs.waiting.Links.{link_of};
ghost use Rattle.sms_centre_spec.specs.CentreEvent.{fire_link as fire_link_of, lost as lost_of, lower as lower_of, timed_out as timed_out_of};
ghost use Rattle.sms_centre_spec.specs.Draft.{Draft};
ghost use Rattle.sms_centre_draft.specs.CentreDraft.{Represents};

use sms_base::{Carried, Msisdn};
use sms_centre_draft::CentreDraft;
use sms_centre_transfers::conclude;
use sms_link::{Ending, Upward};
use std::alloc::AllocError;

// What was under way to the handset has failed.
fn lost(
    draft: &mut CentreDraft<'_>,
    handset: Msisdn,
    transfer: Option<Carried>,
) -> Result<(), AllocError>
    ensures { (d : Draft) → Represents d draft.old → OnOk result (Represents (lost_of handset transfer d) draft.new) }
{
    match transfer {
        Some(transfer) => conclude(draft, handset, &transfer, &Ending::Lost),
        None => Ok(()),
    }
}

/// The handset can't be reached: what was under way has failed, and the next connection is a new one.
pub fn lower(draft: &mut CentreDraft<'_>, handset: Msisdn) -> Result<(), AllocError>
    ensures { (d : Draft) → Represents d draft.old → OnOk result (Represents (lower_of handset d) draft.new) }
{
    let transfer = draft.under_way(handset);
    draft.lower_link(handset)?;
    lost(draft, handset, transfer)
}

// A transfer to the handset that a timer ended has failed.
fn timed_out(
    draft: &mut CentreDraft<'_>,
    handset: Msisdn,
    up: Option<Upward>,
) -> Result<(), AllocError>
    ensures { (d : Draft) → Represents d draft.old → OnOk result (Represents (timed_out_of handset up d) draft.new) }
{
    match up {
        Some(Upward::Ended { transfer, ending }) => conclude(draft, handset, &transfer, &ending),
        Some(Upward::Opened(_)) | None => Ok(()),
    }
}

/// The timers of the handset's link fire that are due; a transfer that one of them ends has failed.
pub fn fire(draft: &mut CentreDraft<'_>, handset: Msisdn) -> Result<(), AllocError>
    ensures { (d : Draft) → Represents d draft.old → OnOk result (Represents (fire_link_of (link_of handset d.links.all) d) draft.new) }
{
    let up = draft.fire_timers(handset)?;
    timed_out(draft, handset, up)
}
