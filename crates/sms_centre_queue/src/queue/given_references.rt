//! The references that were given at a handset.
ghost use Rattle.std.specs.Prelude.{◌≡◌, [], IfOk, OnOk, option_copied};
ghost use Rattle.sms_rows.specs.table.Table.{put, row_at};
ghost use Rattle.sms_centre_rows.specs.waiting.Keys.{reference_key};
ghost use Rattle.sms_centre_rows.specs.waiting.References.{is_late as is_late_of};
ghost use Rattle.sms_centre_queue.specs.queue.Given.{all_put, newest as newest_of};

use crate::queue::earlier_references::EarlierReferences;
use sms_base::Moment;
use sms_centre_rows::waiting::ReferenceRow;
use sms_rows::table::{Key, Row, Table};
use std::alloc::{AllocError, Global};
use std::marker::Model;

// So many are beside the shared ones at most: few to copy, and seldom are all of them copied.
const MOST_NEWER: usize = 16;

/// The references that were given at a handset, in their order. Copies share all but those that were given last. A copy
/// of all of them would cost an event more than all else that it does.
#[derive(Drop)]
pub(crate) struct GivenReferences {
    alloc: Global,
    base: EarlierReferences,
    // Those that were given since, the oldest first.
    newer: Vec<ReferenceRow>,
}

impl Model for GivenReferences {
    ghost use Rattle.std.specs.Prelude.{List};
    ghost use Rattle.sms_centre_rows.specs.waiting.Keys.{reference_key};
    ghost use Rattle.sms_centre_rows.specs.declared.waiting.reference.ReferenceRow.{ReferenceRow as ReferenceRowOf};
    ghost use Rattle.sms_centre_queue.specs.queue.Given.{all_put};

    ghost Value = { List ReferenceRowOf };

    ghost view = { λ g. all_put reference_key g.newer.items g.base };
}

impl GivenReferences {
    /// None was given.
    pub(crate) fn new(alloc: Global) -> GivenReferences
        ensures { result ≡ [] }
    {
        GivenReferences {
            alloc,
            base: EarlierReferences::new(),
            newer: Vec::new(alloc),
        }
    }

    /// The rows of the table.
    pub(crate) fn of(
        alloc: Global,
        rows: Table<ReferenceRow>,
    ) -> Result<GivenReferences, AllocError>
        ensures { IfOk result (λ given. given ≡ rows.rows) }
    {
        let base = EarlierReferences::of(alloc, rows)?;
        Ok(GivenReferences {
            alloc,
            base,
            newer: Vec::new(alloc),
        })
    }

    /// A copy that shares the memory of the shared references.
    pub(crate) fn copy(&self) -> Result<GivenReferences, AllocError>
        ensures { IfOk result (λ given. given ≡ self.now) }
    {
        let base = self.base.share()?;
        let newer = Vec::from_slice(self.alloc, self.newer.as_slice())?;
        Ok(GivenReferences {
            alloc: self.alloc,
            base,
            newer,
        })
    }

    /// Whether the reference of that key was given last at that moment or later.
    #[tactic(auto, using(crate::proofs::queue::Putting::row_at_all_put))]
    pub(crate) fn is_late(&self, key: Key, now: Moment) -> bool
        ensures { result ≡ is_late_of now (row_at reference_key key self.now) }
    {
        match newest(self.newer.as_slice(), key) {
            Some(row) => now.seconds() <= row.last.seconds(),
            None => self.base.is_late(key, now),
        }
    }

    /// Puts a row in the place of that of its key, or where its key belongs.
    #[tactic(auto, using(crate::proofs::queue::Putting::all_put_push))]
    pub(crate) fn put(&mut self, row: ReferenceRow) -> Result<(), AllocError>
        ensures { OnOk result (self.new ≡ put reference_key row self.old) }
    {
        if self.newer.len() >= MOST_NEWER {
            self.share_all()?;
        }
        self.newer.push(row)?;
        Ok(())
    }

    // All of them are where copies share them.
    fn share_all(&mut self) -> Result<(), AllocError>
        ensures { OnOk result (self.new ≡ self.old) }
    {
        let rows = self.rows()?;
        let base = EarlierReferences::of(self.alloc, rows)?;
        let newer = Vec::new(self.alloc);
        self.base = base;
        self.newer = newer;
        Ok(())
    }

    // All rows, in memory of their own.
    fn rows(&self) -> Result<Table<ReferenceRow>, AllocError>
        ensures { IfOk result (λ rows. rows.rows ≡ self.now) }
    {
        let rows = Vec::from_slice(self.alloc, self.base.as_slice())?;
        let mut rows = Table::from_vec(rows);
        put_all(&mut rows, self.newer.as_slice())?;
        Ok(rows)
    }
}

// The last of the rows that has that key.
fn newest(rows: &[ReferenceRow], key: Key) -> Option<&ReferenceRow>
    ensures { option_copied result ≡ newest_of reference_key key rows.now }
{
    for i in 0..rows.len() {
        let row = &rows[rows.len() - 1 - i];
        if row.key().number() == key.number() {
            return Some(row);
        }
    }
    None
}

fn put_all(table: &mut Table<ReferenceRow>, rows: &[ReferenceRow]) -> Result<(), AllocError>
    ensures { OnOk result (table.new.rows ≡ all_put reference_key rows.now table.old.rows) }
{
    for row in rows {
        table.put(*row)?;
    }
    Ok(())
}
