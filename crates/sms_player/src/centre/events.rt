//! What a centre on rows in memory does with an event.
ghost use Rattle.std.specs.Prelude.{◌≡◌, ◌++◌, IfOk, OnErr, OnOk};
ghost use Rattle.sms_centre.specs.plans.EventOutcome.{IsOutcome, AreOutputs};
ghost use Rattle.sms_centre.specs.state.CentreState.{Represents as StateRepresents};
ghost use Rattle.sms_centre.specs.Planning.{FitsTheCentre};
ghost use Rattle.sms_store_memory.specs.centre.RowsInKeep.{rows_in};
ghost use Rattle.sms_centre_spec.specs.CentreEvent.{happened};
ghost use Rattle.sms_centre_spec.specs.Draft.{Core, core_of, rows_after};
ghost use Rattle.sms_centre_spec.specs.SoundCore.{IsEvent};
ghost use Rattle.sms_centre_spec.specs.declared.event.CentreEvent.{CentreEvent as CentreEventOf};
ghost use Rattle.sms_play.specs.CentreSide.{parts_given, reports_given, given_by};
ghost use Rattle.sms_player.specs.centre.PlayedCentre.{Represents as PlayedRepresents, IsSomeCentre};

use crate::centre::allocations::{note_parts, note_reports};
use sms_base::{Listed, Moment};
use sms_centre::laws::a_state_meets_what_events_require;
use sms_centre::{Centre, CentreEvent, Changes, Outputs, Plan};
use sms_centre_spec::bodies::laws::sound_rows_have_their_octets;
use sms_centre_spec::laws::what_is_adopted_is_what_happened;
use sms_rows::keep::Keep;
use sms_script::report::GivenRow;
use sms_store_memory::centre::MemoryKeep;
use std::alloc::AllocError;

// What the event leads to. A store in memory refuses a read only for want of memory.
fn plan(centre: &Centre, keep: &mut MemoryKeep, event: &CentreEvent<'_>) -> Result<Plan, AllocError>
    ensures plan { (c : Core) → PlayedRepresents c centre.now (rows_in keep.old) → IfOk result (λ p. IsOutcome (happened event.now c) p.plan) }
    ensures same { (c : Core) → PlayedRepresents c centre.now (rows_in keep.old) → rows_in keep.new ≡ c.rows }
    ensures fits { IfOk result (FitsTheCentre centre.now) }
    ensures event { IsEvent event.now }
{
    a_state_meets_what_events_require();
    sound_rows_have_their_octets();
    match centre.plan(event, keep) {
        Ok(planned) => Ok(planned),
        Err(_) => Err(AllocError),
    }
}

fn commit(keep: &mut MemoryKeep, changes: &Changes) -> Result<(), AllocError>
    ensures ok { OnOk result (rows_in keep.new ≡ rows_after changes.now (rows_in keep.old)) }
    ensures err { OnErr result (rows_in keep.new ≡ rows_in keep.old) }
{
    match keep.commit(changes) {
        Ok(()) => Ok(()),
        Err(_) => Err(AllocError),
    }
}

// The references that the changes give, told on the messages as they stand after them.
fn note_changes(
    moment: Moment,
    keep: &MemoryKeep,
    changes: &Changes,
    given: &mut Listed<GivenRow>,
) -> Result<(), AllocError>
    ensures { OnOk result (given.new ≡ (given.old ++ parts_given moment (rows_in keep.now).messages changes.now.parts) ++ reports_given moment
        (rows_in keep.now).messages changes.now.reports) }
{
    note_parts(moment, keep.messages(), changes.parts.as_slice(), given)?;
    note_reports(moment, keep.messages(), changes.reports.as_slice(), given)?;
    Ok(())
}

fn note(keep: &MemoryKeep, planned: &Plan, given: &mut Listed<GivenRow>) -> Result<(), AllocError>
    ensures { OnOk result (given.new ≡ (given.old ++ parts_given planned.now.plan.next_state.moment (rows_in keep.now).messages planned.now.plan.changes.parts)
        ++ reports_given planned.now.plan.next_state.moment (rows_in keep.now).messages planned.now.plan.changes.reports) }
{
    note_changes(planned.moment(), keep, planned.changes(), given)?;
    Ok(())
}

// A plan that was committed is put in. The references that it gives are told before.
fn put_in(
    centre: &mut Centre,
    keep: &MemoryKeep,
    planned: Plan,
    given: &mut Listed<GivenRow>,
) -> Result<Outputs, AllocError>
    requires { FitsTheCentre centre.old planned }
    ensures outputs { IfOk result (λ outputs. outputs ≡ planned.plan.outputs) }
    ensures centre_state { (event : CentreEventOf) (c : Core) → StateRepresents c centre.old → IsEvent event → IsOutcome (happened event c) planned.plan
        → StateRepresents (core_of (happened event c)) centre.new }
    ensures given { OnOk result (given.new ≡ (given.old ++ parts_given planned.plan.next_state.moment (rows_in keep.now).messages planned.plan.changes.parts)
        ++ reports_given planned.plan.next_state.moment (rows_in keep.now).messages planned.plan.changes.reports) }
{
    let noted = note(keep, &planned, given);
    let outputs = centre.adopt(planned);
    match noted {
        Ok(()) => Ok(outputs),
        Err(error) => Err(error),
    }
}

// A plan is carried out: where it can't be committed, nothing is changed.
fn carry_out(
    centre: &mut Centre,
    keep: &mut MemoryKeep,
    planned: Plan,
    given: &mut Listed<GivenRow>,
) -> Result<Outputs, AllocError>
    requires { FitsTheCentre centre.old planned }
    ensures outputs { IfOk result (λ outputs. outputs ≡ planned.plan.outputs) }
    ensures done { (event : CentreEventOf) (c : Core) → PlayedRepresents c centre.old (rows_in keep.old) → IsEvent event
        → IsOutcome (happened event c) planned.plan → OnOk result (PlayedRepresents (core_of (happened event c)) centre.new (rows_in keep.new)) }
    ensures consistent { (event : CentreEventOf) (c : Core) → PlayedRepresents c centre.old (rows_in keep.old) → IsEvent event
        → IsOutcome (happened event c) planned.plan → IsSomeCentre centre.new (rows_in keep.new) }
    ensures given { (event : CentreEventOf) (c : Core) → PlayedRepresents c centre.old (rows_in keep.old) → IsOutcome (happened event c) planned.plan
        → OnOk result (given.new ≡ given.old ++ given_by (happened event c)) }
{
    what_is_adopted_is_what_happened();
    match commit(keep, planned.changes()) {
        Ok(()) => put_in(centre, keep, planned, given),
        Err(error) => {
            drop(planned);
            Err(error)
        }
    }
}

/// Meets an event. What it changes is committed, the references that it gives are added to those before, and what
/// leaves is given.
pub(crate) fn meet(
    centre: &mut Centre,
    keep: &mut MemoryKeep,
    event: &CentreEvent<'_>,
    given: &mut Listed<GivenRow>,
) -> Result<Outputs, AllocError>
    requires consistent { IsSomeCentre centre.old (rows_in keep.old) }
    ensures outputs { (c : Core) → PlayedRepresents c centre.old (rows_in keep.old) → IfOk result (AreOutputs (happened event.now c)) }
    ensures played { (c : Core) → PlayedRepresents c centre.old (rows_in keep.old)
        → OnOk result (PlayedRepresents (core_of (happened event.now c)) centre.new (rows_in keep.new)) }
    ensures given { (c : Core) → PlayedRepresents c centre.old (rows_in keep.old) → OnOk result (given.new ≡ given.old ++ given_by (happened event.now c)) }
    ensures consistent { IsSomeCentre centre.new (rows_in keep.new) }
{
    match plan(centre, keep, event) {
        Ok(planned) => carry_out(centre, keep, planned, given),
        Err(error) => Err(error),
    }
}
