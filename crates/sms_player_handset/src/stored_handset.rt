//! A handset, and its rows in memory.
ghost use Rattle.std.specs.Prelude.{◌≡◌, IfOk, OnErr, OnOk};
ghost use Rattle.sms_handset_draft.specs.Draft.{recovered, rows_after};
ghost use Rattle.sms_handset_draft.specs.Outcome.{changes_in};
ghost use Rattle.sms_handset_draft.specs.FirstRows.{first_rows};
ghost use Rattle.sms_handset.specs.Planning.{FitsTheHandset, Plans, adopted};
ghost use Rattle.sms_handset.specs.SoundCore.{IsSoundCore};
ghost use Rattle.sms_handset.specs.SoundRows.{IsSetup, IsSound};
ghost use Rattle.sms_store_memory.specs.handset.RowsInKeep.{rows_in};
ghost use Rattle.sms_play.specs.HandsetSide.{happened};
ghost use Rattle.sms_player_handset.specs.Meeting.{moment_after as moment_after_of};

use sms_base::lending::put;
use sms_base::{Listed, Moment};
use sms_handset::laws::first_rows_are_sound;
use sms_handset::{Changes, Handset, HandsetEvent, Plan, PlanError, RecoverError, Rows, Setup};
use sms_handset_rows::outbox::OutEntry;
use sms_link::Outgoing;
use sms_rows::keep::Keep;
use sms_rows::table::Table;
use sms_store_memory::handset::MemoryKeep;
use std::alloc::{AllocError, Global};
use std::marker::Model;

/// A handset whose rows are kept in memory.
#[derive(Drop)]
pub(crate) struct StoredHandset {
    alloc: Global,
    handset: Handset,
    keep: MemoryKeep,
    // The greatest moment of its ticks.
    moment: Moment,
}

impl Model for StoredHandset {
    ghost use Rattle.std.specs.Prelude.{◌≡◌};
    ghost use Rattle.sms_handset_draft.specs.Draft.{HandsetOf};
    ghost use Rattle.sms_handset.specs.SoundCore.{IsSoundCore};
    ghost use Rattle.sms_store_memory.specs.handset.RowsInKeep.{rows_in};

    ghost Value = { HandsetOf };

    ghost view = { λ h. h.handset };

    ghost invariant = { λ h. (rows_in h.keep ≡ h.handset.core.rows) × (h.moment ≡ h.handset.core.moment) × IsSoundCore h.handset.core };
}

/// The greatest moment of a handset after the event.
fn moment_after(moment: Moment, event: &HandsetEvent<'_>) -> Moment
    ensures { result ≡ moment_after_of moment event.now }
{
    match event {
        HandsetEvent::Tick { now } => moment.max(*now),
        HandsetEvent::Frame { .. } => moment,
        HandsetEvent::Write { .. } => moment,
        HandsetEvent::Delete { .. } => moment,
        HandsetEvent::Discard { .. } => moment,
    }
}

fn commit(keep: &mut MemoryKeep, changes: &Changes) -> Result<(), AllocError>
    ensures ok { OnOk result (rows_in keep.new ≡ rows_after (changes_in changes.now) (rows_in keep.old)) }
    ensures err { OnErr result (rows_in keep.new ≡ rows_in keep.old) }
{
    match keep.commit(changes) {
        Ok(()) => Ok(()),
        Err(_) => Err(AllocError),
    }
}

// The handset that starts on sound rows.
fn recover(alloc: Global, rows: Rows) -> Result<Handset, AllocError>
    requires { IsSound rows }
    ensures state { IfOk result (λ handset. handset.core ≡ recovered rows) }
    ensures sound { IfOk result (λ handset. IsSoundCore handset.core) }
{
    match Handset::recover(alloc, rows) {
        Ok(handset) => Ok(handset),
        Err(RecoverError::NoMemory) => Err(AllocError),
        Err(RecoverError::BadRows) => unreachable!(),
    }
}

// The first rows of a new store.
fn first(alloc: Global, setup: Setup) -> Rows
    requires { IsSetup setup }
    ensures rows { result ≡ first_rows setup }
    ensures sound { IsSound result }
{
    first_rows_are_sound();
    Rows::first(alloc, setup)
}

// The handset that starts on the first rows of a new store.
fn begin(alloc: Global, setup: &Setup) -> Result<Handset, AllocError>
    requires { IsSetup setup.now }
    ensures state { IfOk result (λ handset. handset.core ≡ recovered (first_rows setup.now)) }
    ensures sound { IfOk result (λ handset. IsSoundCore handset.core) }
{
    let rows = first(alloc, *setup);
    recover(alloc, rows)
}

fn load(keep: &mut MemoryKeep) -> Result<Rows, AllocError>
    ensures rows { IfOk result (λ rows. rows ≡ rows_in keep.old) }
    ensures same { rows_in keep.new ≡ rows_in keep.old }
{
    match keep.load() {
        Ok(rows) => Ok(rows),
        Err(_) => Err(AllocError),
    }
}

impl StoredHandset {
    /// The handset that starts on a new store.
    pub(crate) fn new(alloc: Global, setup: &Setup) -> Result<StoredHandset, AllocError>
        requires { IsSetup setup.now }
        ensures { IfOk result (λ handset. handset.core ≡ recovered (first_rows setup.now)) }
    {
        let handset = begin(alloc, setup)?;
        let keep = MemoryKeep::new(alloc, *setup);
        let moment = setup.start;
        Ok(StoredHandset {
            alloc,
            handset,
            keep,
            moment,
        })
    }

    /// The entries of the outbox, by number.
    pub(crate) fn outbox(&self) -> &Table<OutEntry>
        ensures { result.now.rows ≡ self.now.core.rows.outbox }
    {
        self.keep.outbox()
    }

    /// The number of the next RP-SMMA.
    pub(crate) fn next_notice(&self) -> u32
        ensures { result ≡ self.now.core.rows.counters.notice }
    {
        self.keep.counters().notice
    }

    /// The number of the next entry.
    pub(crate) fn next_entry(&self) -> u32
        ensures number { result ≡ self.now.core.rows.counters.entry }
        ensures sound { IsSound self.now.core.rows }
    {
        self.keep.counters().entry
    }

    /// The handset's greatest moment after the event.
    pub(crate) fn moment_after(&self, event: &HandsetEvent<'_>) -> Moment
        ensures { result ≡ moment_after_of self.now.core.moment event.now }
    {
        moment_after(self.moment, event)
    }

    /// What the event changes and sends.
    pub(crate) fn plan(&self, event: &HandsetEvent<'_>) -> Result<Plan, PlanError>
        ensures plan { Plans result self.now (happened event.now self.now.core) }
        ensures fits { IfOk result (λ planned. FitsTheHandset planned self.now) }
        ensures sound { IfOk result (λ planned. IsSoundCore (adopted planned.outcome self.now.core)) }
    {
        self.handset.plan(event)
    }

    /// The plan is committed and put in. Gives the frames to send.
    pub(crate) fn carry_out(
        &mut self,
        moment: Moment,
        planned: Plan,
    ) -> Result<Listed<Outgoing>, AllocError>
        requires fits { FitsTheHandset planned self.old }
        requires sound { IsSoundCore (adopted planned.outcome self.old.core) }
        requires moment { moment ≡ planned.outcome.moment }
        ensures state { OnOk result (self.new.core ≡ adopted planned.outcome self.old.core) }
        ensures frames { IfOk result (λ frames. frames ≡ planned.outcome.frames) }
    {
        match commit(&mut self.keep, planned.changes()) {
            Ok(()) => {
                self.moment = moment;
                Ok(self.handset.adopt(planned))
            }
            Err(error) => {
                drop(planned);
                Err(error)
            }
        }
    }

    /// Starts again on its rows.
    pub(crate) fn restart(&mut self) -> Result<(), AllocError>
        ensures { OnOk result (self.new.core ≡ recovered self.old.core.rows) }
    {
        let rows = load(&mut self.keep)?;
        let handset = recover(self.alloc, rows)?;
        put(&mut self.handset, handset);
        self.moment = self.keep.setup().start;
        Ok(())
    }
}
