//! What a handset keeps.
ghost use Rattle.std.specs.Prelude.{◌≡◌, [], ◌∷◌, IfOk, IsOk, refl};
ghost use Rattle.sms_store.specs.declared.handset.counters.CountersRow.{CountersRow as CountersRowOf};
ghost use Rattle.sms_store.specs.handset.HandsetRows.{counters_row, handset_stores};
ghost use Rattle.sms_store.specs.handset.Types.{changes_in, rows_after};
ghost use Rattle.sms_store.specs.handset.Lawful.{handset_lawful};

use crate::handset::commit::write_counters;
use crate::handset::counters::CountersRow;
use crate::handset::founding::{declare, make_tables};
use crate::keeping::Kept;
use sms_base::Listed;
use sms_handset::{Changes, Counters, DiscardedGroup, Entry, LastAccepted, OutEntry, Rows, Setup};
use sms_store_sql::listing::{Last, StoredLists, Then, write};
use sms_store_tables::handset::HandsetStore;
use sqlite::{Alter, Connection, Error, Transaction};
use std::alloc::Global;

// All lists.
type Lists = Then<
    Entry,
    Then<LastAccepted, Then<OutEntry, Then<DiscardedGroup, Last<CountersRow>>>>,
>;

type Found = (
    Vec<Entry>,
    (
        Vec<LastAccepted>,
        (Vec<OutEntry>, (Vec<DiscardedGroup>, Vec<CountersRow>)),
    ),
);

impl Kept for Setup {
    type Rows = Rows;

    type Changes = Changes;

    ghost stores = { handset_stores };

    ghost after = { λ changes rows. rows_after (changes_in changes) rows };

    fn make<S: Alter>(alloc: Global, tx: &mut Transaction<'_, S>) -> Result<(), Error> {
        make_tables(tx)?;
        declare(alloc, tx)
    }

    fn write<S: Alter>(
        alloc: Global,
        tx: &mut Transaction<'_, S>,
        changes: &Changes,
    ) -> Result<(), Error> {
        write::<HandsetStore, Entry, S>(alloc, tx, changes.entries.changes())?;
        write::<HandsetStore, LastAccepted, S>(alloc, tx, changes.last.changes())?;
        write::<HandsetStore, OutEntry, S>(alloc, tx, changes.outbox.changes())?;
        write::<HandsetStore, DiscardedGroup, S>(alloc, tx, changes.marks.changes())?;
        write_counters(alloc, tx, changes.counters)
    }

    fn read<S: Alter>(&self, alloc: Global, conn: &mut Connection<S>) -> Result<Rows, Error> {
        let lists = <Lists as StoredLists<HandsetStore>>::load_all(alloc, conn)?;
        rows_of(lists, *self)
    }

    ghost lawful = { handset_lawful };

    ghost same_setup = { λ changes rows. refl };
}

// The counters of the one row.
fn counters_in(rows: &[CountersRow]) -> Result<Counters, Error>
    ensures found { IfOk result (λ counters. rows.now ≡ record { counters = counters } ∷ []) }
    ensures always { (row : CountersRowOf) → rows.now ≡ row ∷ [] → IsOk result }
{
    let [row] = rows else {
        return Err(Error::QueryReturnedNoRows);
    };
    Ok(row.counters)
}

// The rows of the lists, the counters those of the one row.
fn rows_of(lists: Found, setup: Setup) -> Result<Rows, Error>
    ensures found { IfOk result (λ rows. (lists.1.1.1.1.items ≡ counters_row rows.counters ∷ []) × (rows ≡ record {
      entries = lists.0.items;
      last = lists.1.0.items;
      outbox = lists.1.1.0.items;
      marks = lists.1.1.1.0.items;
      counters = rows.counters;
      setup = setup;
    })) }
    ensures always { (row : CountersRowOf) → lists.1.1.1.1.items ≡ row ∷ [] → IsOk result }
{
    let (entries, (last, (outbox, (marks, counted)))) = lists;
    let counters = counters_in(&counted)?;
    Ok(Rows {
        entries: Listed::from_vec(entries),
        last: Listed::from_vec(last),
        outbox: Listed::from_vec(outbox),
        marks: Listed::from_vec(marks),
        counters,
        setup,
    })
}
