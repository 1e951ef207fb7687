//! The queues of a centre that starts.
ghost use Rattle.std.specs.Prelude.{ℕ, List, [], false, IfOk, OnOk};
ghost use Rattle.sms_centre_queue.specs.queues.Plan.{FitsTheQueues, IsAdopted, IsSettled};
ghost use Rattle.sms_centre_queue.specs.queues.Queues.{DeliveryQueuesOf};
ghost use Rattle.sms_centre_queue.specs.queues.Representing.{DraftRepresents, Represents};
ghost use Rattle.sms_centre_recovery.specs.soundness.RowsOf.{rows_of};
ghost use Rattle.sms_centre_recovery.specs.starting.Starting.{links_of};
ghost use Rattle.sms_centre_rows.specs.waiting.References.{Allocations};
ghost use Rattle.sms_centre_rows.specs.declared.waiting.handset.HandsetRow.{HandsetRow};
ghost use Rattle.sms_centre_rows.specs.declared.waiting.handset_link.HandsetLink.{HandsetLink};
ghost use Rattle.sms_centre_rows.specs.declared.waiting.queued_part.QueuedPart.{QueuedPart};
ghost use Rattle.sms_centre_rows.specs.declared.waiting.reference.ReferenceRow.{ReferenceRow};
ghost use Rattle.sms_centre_spec.specs.SoundCore.{AreDifferent};
ghost use Rattle.sms_centre_spec.specs.SoundRows.{IsSound, all_for};

use sms_base::{Moment, Msisdn};
use sms_centre_queue::queues::laws::an_adopted_plan_represents_its_rows;
use sms_centre_queue::queues::{DeliveryQueues, DeliveryQueuesDraft, DeliveryQueuesPlan};
use sms_centre_recovery::soundness::RowTables;
use sms_centre_recovery::starting::{connect_all, put_parts, put_reports};
use std::alloc::{AllocError, Global};

// Links to these handsets, and what waits for them, on empty queues.
fn fill(
    tables: &RowTables,
    handsets: &[Msisdn],
    are_up: bool,
    queues: &mut DeliveryQueuesDraft,
) -> Result<(), AllocError>
    requires apart { AreDifferent handsets.now }
    ensures { OnOk result ((g : Allocations) → DraftRepresents g (record { all = []; frames = []; read = [] }) (λ number. []) queues.old
        → DraftRepresents g (record { all = links_of are_up handsets.now; frames = []; read = [] })
        (λ number. all_for number (rows_of tables.now)) queues.new) }
{
    let parts = tables.parts.as_slice();
    let reports = tables.reports.as_slice();
    connect_all(handsets, are_up, queues)?;
    put_parts(tables, parts, queues)?;
    put_reports(tables, reports, queues)?;
    Ok(())
}

// In place of all links there are links to these handsets, down as yet.
fn link_anew(handsets: &[Msisdn], queues: &mut DeliveryQueuesDraft) -> Result<(), AllocError>
    requires apart { AreDifferent handsets.now }
    ensures { OnOk result ((g : Allocations) (links : List HandsetLink) (waiting : List ℕ → List QueuedPart)
        → DraftRepresents g (record { all = links; frames = []; read = [] }) waiting queues.old
        → DraftRepresents g (record { all = links_of false handsets.now; frames = []; read = [] }) waiting queues.new) }
{
    queues.forget_links()?;
    connect_all(handsets, false, queues)?;
    Ok(())
}

// These queues, ready made.
fn settled(pending: DeliveryQueuesDraft, now: Moment) -> Result<DeliveryQueuesPlan, AllocError>
    ensures fits { IfOk result FitsTheQueues }
    ensures queues { IfOk result (IsSettled pending) }
{
    let plan = pending.settle(now)?;
    Ok(plan.queues)
}

// What is put on the empty queues, ready made.
fn load(
    alloc: Global,
    tables: &RowTables,
    handsets: &[Msisdn],
    are_up: bool,
    now: Moment,
    queues: &DeliveryQueues,
) -> Result<DeliveryQueuesPlan, AllocError>
    requires apart { AreDifferent handsets.now }
    ensures fits { IfOk result FitsTheQueues }
    ensures consistent { IfOk result (λ settled. (new : DeliveryQueuesOf)
        → Represents tables.now.handsets.rows tables.now.references.rows [] (λ number. []) queues.now → IsAdopted settled new
        → Represents tables.now.handsets.rows tables.now.references.rows (links_of are_up handsets.now) (λ number. all_for number (rows_of tables.now)) new) }
{
    an_adopted_plan_represents_its_rows();
    let mut pending = DeliveryQueuesDraft::of(alloc, queues)?;
    match fill(tables, handsets, are_up, &mut pending) {
        Ok(()) => settled(pending, now),
        Err(error) => {
            drop(pending);
            Err(error)
        }
    }
}

/// The queues of a centre that starts again, ready made: links to these handsets alone, each expected to be up at its
/// first tick.
pub(crate) fn settled_anew(
    alloc: Global,
    handsets: &[Msisdn],
    now: Moment,
    queues: &DeliveryQueues,
) -> Result<DeliveryQueuesPlan, AllocError>
    requires apart { AreDifferent handsets.now }
    ensures fits { IfOk result FitsTheQueues }
    ensures consistent { IfOk result (λ settled. (rows : List HandsetRow) (references : List ReferenceRow) (links : List HandsetLink) (waiting : List ℕ
        → List QueuedPart) (new : DeliveryQueuesOf) → Represents rows references links waiting queues.now → IsAdopted settled new
        → Represents rows references (links_of false handsets.now) waiting new) }
{
    an_adopted_plan_represents_its_rows();
    let mut pending = DeliveryQueuesDraft::of(alloc, queues)?;
    match link_anew(handsets, &mut pending) {
        Ok(()) => settled(pending, now),
        Err(error) => {
            drop(pending);
            Err(error)
        }
    }
}

/// The queues of a centre that starts on these rows at that moment. It has links to these handsets: up at once, or
/// expected to be up at its first tick.
pub(crate) fn queues_of(
    alloc: Global,
    tables: &RowTables,
    handsets: &[Msisdn],
    are_up: bool,
    now: Moment,
) -> Result<DeliveryQueues, AllocError>
    requires sound { IsSound (rows_of tables.now) }
    requires apart { AreDifferent handsets.now }
    ensures { IfOk result (λ queues. Represents tables.now.handsets.rows tables.now.references.rows (links_of are_up handsets.now)
        (λ number. all_for number (rows_of tables.now)) queues) }
{
    let mut queues = DeliveryQueues::recover(
        alloc,
        tables.handsets.as_slice(),
        &tables.references,
    )?;
    let settled = load(alloc, tables, handsets, are_up, now, &queues)?;
    queues.adopt(settled);
    Ok(queues)
}
