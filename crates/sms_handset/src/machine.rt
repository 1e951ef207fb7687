//! A handset over its store.
//!
//! `HandsetMachine` has a handset and the keep of its rows. A step plans an event, makes at most one commit, adopts the
//! plan, and only then gives the frames: what leaves was committed. A step is exactly what the handset's definition
//! does with the event. An event that is refused, or finds no memory, changes nothing. A step whose commit was refused
//! leaves the handset unchanged. Its keep then has the rows still, or is closed; the handset is recovered from the rows
//! once they are opened again.
ghost use Rattle.std.specs.Prelude.{◌≡◌, ◌≢◌, ◌⊎◌, ◌↔◌, ⊤, true, Ok, Err, IfErr, IfOk, OnOk, OnErr};
ghost use Rattle.sms_rows.specs.declared.keep.error.KeepError.TheVariants.{NotThisStore, OldVersion};
ghost use Rattle.sms_rows.specs.declared.keep.error.KeepError.{KeepError as KeepErrorOf};
ghost use Rattle.sms_rows.specs.keep.StoreOutcome.{IfHeld, StoreOutcome, WasHonest};
ghost use Rattle.sms_handset_draft.specs.Draft.{Draft as DraftOf, no_changes, recovered, rows_after};
ghost use Rattle.sms_handset_draft.specs.Outcome.{changes_in};
ghost use Rattle.sms_handset_draft.specs.declared.rows.Rows.{Rows as RowsOf};
ghost use Rattle.sms_handset.specs.Planning.{FitsTheHandset, Plans, adopted};
ghost use Rattle.sms_handset.specs.SoundCore.{IsSoundCore};
ghost use Rattle.sms_handset.specs.SoundRows.{IsSetup, IsSound};
ghost use Rattle.sms_handset.specs.machine.Stepping.{IsBeforeCommit, MakesTheChanges, IsBeforeOrAfter, Steps, happened};
ghost use Rattle.sms_handset.specs.declared.machine.start_error.StartError.TheVariants.{Store as StoreAtStart};
ghost use Rattle.sms_handset.specs.declared.machine.step_error.StepError.TheVariants.{Store as StoreOf};
ghost use Rattle.sms_handset.specs.machine.Starting.{IsBad};
ghost use Rattle.sms_handset.specs.machine.InMachine.{core_in, handset_in, keep_in};

mod start_error;
mod step_error;

use crate::{Changes, Handset, HandsetEvent, Plan, PlanError, Rows, Setup};
use sms_base::Listed;
use sms_base::lending::put;
use sms_link::Outgoing;
use sms_rows::keep::{Keep, KeepError};
pub use start_error::StartError;
use std::alloc::Global;
pub use step_error::StepError;

/// A handset over the keep of its rows.
#[derive(Drop)]
pub struct HandsetMachine<K: Keep<Rows = Rows, Changes = Changes> + Drop> {
    keep: K,
    handset: Handset,
}

// Whether nothing is to be committed.
fn is_empty(changes: &Changes) -> bool
    ensures { (result ≡ true) ↔ (changes_in changes.now ≡ no_changes) }
{
    changes.entries.changes().is_empty()
        && changes.last.changes().is_empty()
        && changes.outbox.changes().is_empty()
        && changes.marks.changes().is_empty()
        && changes.counters.is_none()
}

// Commits the changes, if there are any.
fn commit<K: Keep<Rows = Rows, Changes = Changes>>(
    keep: &mut K,
    changes: &Changes,
) -> Result<(), KeepError>
    requires { MakesTheChanges K.after }
    ensures outcome { (rows : RowsOf)
        → StoreOutcome (λ done. ⊤) rows (rows_after (changes_in changes.now) rows) (K.state keep.old) (K.state keep.new) result }
    // A stop inside it leaves the rows, or the rows with the changes, if one before it leaves the rows.
    ensures stop { (rows : RowsOf) → IfHeld rows (K.state keep.old) (K.state keep.new) (((left : RowsOf) → K.may_leave keep.old left → left ≡ rows)
        → (left : RowsOf) → K.may_leave keep.new left → (left ≡ rows) ⊎ (left ≡ rows_after (changes_in changes.now) rows)) }
    ensures named { IfErr result (λ error. (error ≢ OldVersion) × (error ≢ NotThisStore)) }
    ensures idle { changes_in changes.now ≡ no_changes → keep.new ≡ keep.old }
{
    if is_empty(changes) {
        return Ok(());
    }
    keep.commit(changes)
}

/// The handset that starts with the rows of a keep.
///
/// The setup is the one with which the keep was opened. `BadRows` is answered exactly where the rows are not sound.
pub fn recover_from<K: Keep<Rows = Rows, Changes = Changes>>(
    alloc: Global,
    keep: &mut K,
    setup: Setup,
) -> Result<Handset, StartError>
    requires { IsSetup setup }
    ensures outcome { (rows : RowsOf) → StoreOutcome (λ handset. rows.setup ≡ setup → handset.core ≡ recovered rows) rows rows
        (K.state keep.old) (K.state keep.new) result }
    ensures named { (error : KeepErrorOf) → result ≡ Err (StoreAtStart error) → error ≢ OldVersion }
    ensures sound { IfOk result (λ handset. IsSoundCore handset.core) }
    ensures bad { (rows : RowsOf) → rows.setup ≡ setup → IfHeld rows (K.state keep.old) (K.state keep.new) (IsBad result → ¬ IsSound rows) }
{
    let found = keep.load()?;
    let rows = Rows { setup, ..found };
    Ok(Handset::recover(alloc, rows)?)
}

impl<K: Keep<Rows = Rows, Changes = Changes> + Drop> HandsetMachine<K> {
    /// A machine of a handset whose rows are those of the keep.
    pub fn new(keep: K, handset: Handset) -> HandsetMachine<K>
        ensures keep { keep_in result ≡ keep }
        ensures handset { handset_in result ≡ handset }
    {
        HandsetMachine { keep, handset }
    }

    /// The handset that the machine runs.
    pub fn handset(&self) -> &Handset
        ensures { result.now ≡ handset_in self.now }
    {
        &self.handset
    }

    /// The rows of the keep.
    ///
    /// # Errors
    /// The keep refused the call: it has the rows still, or is closed.
    pub fn load(&mut self) -> Result<Rows, KeepError>
        ensures outcome { (rows : RowsOf)
            → StoreOutcome (λ found. found ≡ rows) rows rows (K.state (keep_in self.old)) (K.state (keep_in self.new)) result }
        ensures back { (rows : RowsOf) → IfHeld rows (K.state (keep_in self.old)) (K.state (keep_in self.new)) (result ≢ Err NotThisStore) }
        ensures named { IfErr result (λ error. error ≢ OldVersion) }
        ensures before { WasHonest (K.state (keep_in self.old)) (K.state (keep_in self.new)) }
        ensures same { handset_in self.new ≡ handset_in self.old }
    {
        self.keep.load()
    }

    fn plan(&self, event: &HandsetEvent<'_>) -> Result<Plan, PlanError>
        ensures plan { Plans result (handset_in self.now) (happened event.now (core_in self.now)) }
        ensures fits { IfOk result (λ planned. FitsTheHandset planned (handset_in self.now)) }
        ensures sound { IsSoundCore (core_in self.now) → IfOk result (λ planned. IsSoundCore (adopted planned.outcome (core_in self.now))) }
    {
        self.handset.plan(event)
    }

    /// Meets an event: plans it, commits what it changes, adopts it, and only then gives the frames to send.
    ///
    /// The keep is a handset's: a commit makes of its rows what a handset's changes make of them.
    pub fn step(&mut self, event: &HandsetEvent<'_>) -> Result<Listed<Outgoing>, StepError>
        requires { MakesTheChanges K.after }
        // What the definition does with the event: its frames and the handset after it, or its refusal; the handset is as
        // it was where there are no frames to send.
        ensures step { Steps result (handset_in self.old) (handset_in self.new) (happened event.now (core_in self.old)) }
        ensures sound { IsSoundCore (core_in self.old) → IsSoundCore (core_in self.new) }
        // What leaves was committed. A refused commit leaves the rows, or a closed keep.
        ensures outcome { StoreOutcome (λ frames. ⊤) (core_in self.old).rows (core_in self.new).rows
            (K.state (keep_in self.old)) (K.state (keep_in self.new)) result }
        // A store never refuses a commit as one of an earlier version (K1) or of another kind (K2).
        ensures named { (error : KeepErrorOf) → result ≡ Err (StoreOf error) → (error ≢ OldVersion) × (error ≢ NotThisStore) }
        // What was refused, or found no memory, did not come to the store.
        ensures before { IsBeforeCommit result → keep_in self.new ≡ keep_in self.old }
        // An event that changes no row does not come to the store.
        ensures idle { (d : DraftOf) → happened event.now (core_in self.old) ≡ Ok d → d.changes ≡ no_changes → keep_in self.new ≡ keep_in self.old }
        // A stop inside it leaves the rows from before the event or those after it.
        ensures stop { IfHeld (core_in self.old).rows (K.state (keep_in self.old)) (K.state (keep_in self.new))
            (((left : RowsOf) → K.may_leave (keep_in self.old) left → left ≡ (core_in self.old).rows)
            → (left : RowsOf) → K.may_leave (keep_in self.new) left
            → IsBeforeOrAfter left (core_in self.old).rows (happened event.now (core_in self.old))) }
    {
        let planned = self.plan(event)?;
        match commit(&mut self.keep, planned.changes()) {
            Ok(()) => Ok(self.handset.adopt(planned)),
            Err(error) => {
                drop(planned);
                Err(StepError::Store(error))
            }
        }
    }

    /// Recovers the handset from the rows, after a refused commit that left them. A closed keep has to be opened again
    /// first.
    pub fn reopen(&mut self, alloc: Global, setup: Setup) -> Result<(), StartError>
        requires { IsSetup setup }
        ensures outcome { (rows : RowsOf) → StoreOutcome (λ done. rows.setup ≡ setup → core_in self.new ≡ recovered rows) rows rows
            (K.state (keep_in self.old)) (K.state (keep_in self.new)) result }
        ensures named { (error : KeepErrorOf) → result ≡ Err (StoreAtStart error) → error ≢ OldVersion }
        ensures sound { OnOk result (IsSoundCore (core_in self.new)) }
        ensures err { OnErr result (handset_in self.new ≡ handset_in self.old) }
    {
        let handset = recover_from(alloc, &mut self.keep, setup)?;
        put(&mut self.handset, handset);
        Ok(())
    }
}
