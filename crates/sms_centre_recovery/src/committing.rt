//! Commits what an event of a centre changed.
ghost use Rattle.std.specs.Prelude.{◌≡◌, ◌≢◌, ◌⊎◌, ◌↔◌, ⊤, true, IfErr};
ghost use Rattle.sms_centre_spec.specs.Draft.{no_changes, rows_after};
ghost use Rattle.sms_centre_spec.specs.declared.rows.Rows.{Rows as RowsOf};
ghost use Rattle.sms_rows.specs.declared.keep.error.KeepError.TheVariants.{NotThisStore, OldVersion};
ghost use Rattle.sms_rows.specs.keep.StoreOutcome.{IfHeld, IsCounted, StoreOutcome, WasHonest};

use sms_centre_spec::Changes;
use sms_centre_spec::bodies::CentreStore;
use sms_rows::keep::KeepError;

// Whether nothing is to be committed.
fn is_empty(changes: &Changes) -> bool
    ensures { (result ≡ true) ↔ (changes.now ≡ no_changes) }
{
    changes.messages.as_slice().is_empty()
        && changes.parts.as_slice().is_empty()
        && changes.references.as_slice().is_empty()
        && changes.handsets.as_slice().is_empty()
        && changes.reports.as_slice().is_empty()
        && changes.priorities.as_slice().is_empty()
        && changes.bars.as_slice().is_empty()
}

/// Commits the changes of an event. Where nothing changes, as when a part is offered again that has its reference, the store is not
/// asked. An error is the store's: it has the rows from before, or is closed.
pub fn commit<K: CentreStore>(keep: &mut K, changes: &Changes) -> Result<(), KeepError>
    ensures outcome { (rows : RowsOf) → StoreOutcome (λ done. ⊤) rows (rows_after changes.now rows) (K.state keep.old) (K.state keep.new) result }
    // A stop inside it leaves the rows, or the rows with the changes, if one before it leaves the rows.
    ensures stop { (rows : RowsOf) → IfHeld rows (K.state keep.old) (K.state keep.new) (((left : RowsOf) → K.may_leave keep.old left → left ≡ rows)
        → (left : RowsOf) → K.may_leave keep.new left → (left ≡ rows) ⊎ (left ≡ rows_after changes.now rows)) }
    ensures named { IfErr result (λ error. (error ≢ OldVersion) × (error ≢ NotThisStore)) }
    ensures before { WasHonest (K.state keep.old) (K.state keep.new) }
    ensures counted { IsCounted (K.state keep.old) (K.state keep.new) result }
    // Changes of no row do not come to the store.
    ensures idle { changes.now ≡ no_changes → keep.new ≡ keep.old }
{
    if is_empty(changes) {
        return Ok(());
    }
    keep.commit(changes)
}
