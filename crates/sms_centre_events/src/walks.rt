//! Walks over the handsets that a tick concerns.
ghost use Rattle.std.specs.Prelude.{◌≡◌, OnOk};
ghost use Rattle.sms_centre_queue.specs.queues.Walks.{walk};
ghost use Rattle.sms_centre_draft.specs.walks.Stepping.{fire_on};
ghost use Rattle.sms_centre_spec.specs.CentreEvent.{fired, raise as raise_of, raised};
ghost use Rattle.sms_centre_spec.specs.Draft.{Draft};
ghost use Rattle.sms_centre_draft.specs.CentreDraft.{Represents};

use crate::links;
use sms_centre_draft::CentreDraft;
use sms_centre_draft::walks::laws::{links_rise_where_found, timers_fire_at_those_found};
use sms_centre_queue::queues::{Concern, ConcernedHandset};
use std::alloc::AllocError;

// The timers of the links to these handsets fire that are due, one after the other.
fn fire_each(draft: &mut CentreDraft<'_>, stops: &[ConcernedHandset]) -> Result<(), AllocError>
    ensures { (d : Draft) → Represents d draft.old → OnOk result (Represents (walk fire_on stops.now d) draft.new) }
{
    for stop in stops {
        links::fire(draft, stop.number)?;
    }
    Ok(())
}

/// The timers of all links fire that are due: first at the handsets that had been given a reference.
pub(crate) fn fire(draft: &mut CentreDraft<'_>) -> Result<(), AllocError>
    ensures { (d : Draft) → Represents d draft.old → OnOk result (Represents (fired d) draft.new) }
{
    timers_fire_at_those_found();
    let now = draft.now();
    let mentioned = draft.stops(&Concern::Fire(now))?;
    let others = draft.stops(&Concern::FireUnmentioned(now))?;
    fire_each(draft, mentioned.as_slice())?;
    fire_each(draft, others.as_slice())
}

// The links to these handsets are raised, one after the other.
fn raise_each(draft: &mut CentreDraft<'_>, stops: &[ConcernedHandset]) -> Result<(), AllocError>
    ensures { (d : Draft) → Represents d draft.old → OnOk result (Represents (walk raise_of stops.now d) draft.new) }
{
    for stop in stops {
        draft.raise(stop.number)?;
    }
    Ok(())
}

/// Brings all links up that were up before a recovery.
pub(crate) fn raise(draft: &mut CentreDraft<'_>) -> Result<(), AllocError>
    ensures { (d : Draft) → Represents d draft.old → OnOk result (Represents (raised d) draft.new) }
{
    links_rise_where_found();
    let awaited = draft.stops(&Concern::Awaited)?;
    raise_each(draft, awaited.as_slice())
}
