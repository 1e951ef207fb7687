//! What follows an event, and the plan of it.
ghost use Rattle.std.specs.Prelude.{◌≡◌, [], Ok, IfOk};
ghost use Rattle.sms_centre_spec.specs.CentreEvent.{follow as follow_of};
ghost use Rattle.sms_centre_spec.specs.Draft.{Core, Draft, changes_in, draft_of};
ghost use Rattle.sms_centre_spec.specs.SoundRows.{IsSetup};
ghost use Rattle.sms_centre.specs.Acting.{acted};
ghost use Rattle.sms_centre.specs.Planning.{FitsTheCentre};
ghost use Rattle.sms_rows.specs.keep.StoreOutcome.{WasHonest};
ghost use Rattle.sms_centre_events.specs.offering.Refusing.{ReadingOutcome, UnlessMemory};
ghost use Rattle.sms_centre_events.specs.offering.Stored.{CanOffer};
ghost use Rattle.sms_centre.specs.plans.EventOutcome.{IsOutcome};
ghost use Rattle.sms_centre.specs.state.CentreState.{Represents as StateRepresents};
ghost use Rattle.sms_centre_draft.specs.CentreDraft.{Represents as DraftRepresents};

use crate::acting::act;
use crate::plan::Plan;
use crate::plans::{EventOutcome, settle};
use crate::state::CentreState;
use sms_base::Listed;
use sms_centre_draft::CentreDraft;
use sms_centre_events::offering::follow;
use sms_centre_reports::report_log::ReportLogReserve;
use sms_centre_rows::messages::BarRow;
use sms_centre_spec::{CentreEvent, PlanError};
use sms_rows::keep::BodyKeep;
use sms_rows::table::Change;
use std::alloc::{AllocError, Global};

// A plan, if there is memory for its reports.
fn with_log(
    plan: EventOutcome,
    log: Result<ReportLogReserve, AllocError>,
) -> Result<Plan, AllocError>
    ensures plan { IfOk result (λ p. p.plan ≡ plan) }
    ensures log { IfOk result (λ p. log ≡ Ok p.log) }
{
    match log {
        Ok(log) => Ok(Plan { plan, log }),
        Err(error) => {
            drop(plan);
            Err(error)
        }
    }
}

// The plan of the centre as it is, with the bars that are put.
pub(crate) fn planned(
    alloc: Global,
    centre_state: &CentreState,
    draft: CentreDraft<'_>,
    bars: Listed<Change<BarRow>>,
) -> Result<Plan, AllocError>
    ensures plan { (d : Draft) → DraftRepresents d draft.entry → bars ≡ (changes_in d.store).bars → IfOk result (λ p. IsOutcome d p.plan) }
    ensures fits { IfOk result (FitsTheCentre centre_state.now) }
{
    let plan = settle(
        draft,
        bars,
        &centre_state.messages,
        &centre_state.reference_index,
    )?;
    let log = centre_state
        .log
        .make_reserve(alloc, plan.changes.reports.len());
    with_log(plan, log)
}

fn unless_memory(made: Result<Plan, AllocError>) -> Result<Plan, PlanError>
    ensures plan { UnlessMemory (λ p. made ≡ Ok p) result }
{
    match made {
        Ok(planned) => Ok(planned),
        Err(_) => Err(PlanError::NoMemory),
    }
}

// An event puts no bars.
fn plan(
    alloc: Global,
    centre_state: &CentreState,
    draft: CentreDraft<'_>,
) -> Result<Plan, PlanError>
    ensures plan { (d : Draft) → DraftRepresents d draft.entry → d.store.bars.news ≡ [] → UnlessMemory (λ p. IsOutcome d p.plan) result }
    ensures fits { IfOk result (FitsTheCentre centre_state.now) }
{
    let bars = Listed::new(alloc);
    unless_memory(planned(alloc, centre_state, draft, bars))
}

// ---- what the event leads to

// The event acts, and receipts and offers follow.
fn run<B: BodyKeep>(
    draft: &mut CentreDraft<'_>,
    centre_state: &CentreState,
    event: &CentreEvent<'_>,
    bodies: &mut B,
    centre: &[u8],
) -> Result<(), PlanError>
    requires setup { IsSetup draft.old.setup }
    ensures outcome { (c : Core) (rows : B.Rows) → DraftRepresents (draft_of c) draft.old → StateRepresents c centre_state.now
        → CanOffer B.body_of rows centre.now (acted event.now c).store
        → ReadingOutcome (λ _. DraftRepresents (follow_of (acted event.now c)) draft.new) (follow_of (acted event.now c)).links.read rows
        (B.state bodies.old) (B.state bodies.new) result }
    ensures before { WasHonest (B.state bodies.old) (B.state bodies.new) }
{
    match act(draft, centre_state, event) {
        Ok(()) => follow(draft, bodies, centre),
        Err(_) => Err(PlanError::NoMemory),
    }
}

fn plan_begun<B: BodyKeep>(
    alloc: Global,
    centre_state: &CentreState,
    mut draft: CentreDraft<'_>,
    event: &CentreEvent<'_>,
    bodies: &mut B,
    centre: &[u8],
) -> Result<Plan, PlanError>
    requires setup { IsSetup draft.setup }
    ensures outcome { (c : Core) (rows : B.Rows) → DraftRepresents (draft_of c) draft.entry → StateRepresents c centre_state.now
        → CanOffer B.body_of rows centre.now (acted event.now c).store
        → ReadingOutcome (λ p. IsOutcome (follow_of (acted event.now c)) p.plan) (follow_of (acted event.now c)).links.read rows
        (B.state bodies.old) (B.state bodies.new) result }
    ensures fits { IfOk result (FitsTheCentre centre_state.now) }
    ensures before { WasHonest (B.state bodies.old) (B.state bodies.new) }
{
    match run(&mut draft, centre_state, event, bodies, centre) {
        Ok(()) => plan(alloc, centre_state, draft),
        Err(error) => {
            drop(draft);
            Err(error)
        }
    }
}

/// The plan of the event. `centre` is the centre's address as RP units carry it.
pub(crate) fn plan_of<B: BodyKeep>(
    alloc: Global,
    centre_state: &CentreState,
    event: &CentreEvent<'_>,
    bodies: &mut B,
    centre: &[u8],
) -> Result<Plan, PlanError>
    requires setup { IsSetup centre_state.now.setup }
    ensures outcome { (c : Core) (rows : B.Rows) → StateRepresents c centre_state.now
        → CanOffer B.body_of rows centre.now (acted event.now c).store
        → ReadingOutcome (λ p. IsOutcome (follow_of (acted event.now c)) p.plan) (follow_of (acted event.now c)).links.read rows
        (B.state bodies.old) (B.state bodies.new) result }
    ensures fits { IfOk result (FitsTheCentre centre_state.now) }
    ensures before { WasHonest (B.state bodies.old) (B.state bodies.new) }
{
    match centre_state.begin(alloc) {
        Ok(draft) => plan_begun(alloc, centre_state, draft, event, bodies, centre),
        Err(_) => Err(PlanError::NoMemory),
    }
}
