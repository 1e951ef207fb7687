//! A table in the middle of an event.
ghost use Rattle.std.specs.Prelude.{◌≡◌, ℕ, [], OnOk, OnErr, IfOk, option_copied};
ghost use Rattle.sms_rows.specs.table.Table.{all_applied, put, row_at, without};
ghost use Rattle.sms_rows.specs.declared.table.change.Change.TheVariants.{Put, Remove};
ghost use Rattle.sms_rows.specs.table.TableDraft.{FitsIn, changed, rows_in};

use crate::table::change::Change;
use crate::table::key::Key;
use crate::table::{Row, Table, TableReserve};
use std::alloc::{AllocError, Global};
use std::marker::Model;

/// A table in the middle of an event: the rows as they were, and what the event changed.
#[derive(Drop)]
pub struct TableDraft<'a, T: Drop + Row> {
    base: &'a Table<T>,
    changes: Vec<Change<T>>,
}

impl<'a, T: Drop + Row> Model for TableDraft<'a, T> {
    ghost use Rattle.sms_rows.specs.table.TableDraft.{TableDraftOf};

    ghost Value = { TableDraftOf T };

    ghost view = { λ p. record { base = p.base.now; changes = p.changes.items } };
}

/// What an event leaves of a table, ready made.
#[derive(Drop)]
pub struct TablePlan<T: Drop> {
    changes: Vec<Change<T>>,
    reserve: TableReserve<T>,
}

impl<T: Drop> Model for TablePlan<T> {
    ghost use Rattle.sms_rows.specs.table.TableDraft.{TablePlanOf};

    ghost Value = { TablePlanOf T };

    ghost view = { λ s. record { changes = s.changes.items; reserve = s.reserve } };
}

impl<'a, T: Drop + Row> TableDraft<'a, T> {
    /// The table as an event begins.
    pub fn of(alloc: Global, base: &'a Table<T>) -> TableDraft<'a, T>
        ensures { result ≡ record { base = base.entry.now; changes = [] } }
    {
        TableDraft {
            base,
            changes: Vec::new(alloc),
        }
    }

    /// The changes so far, in order.
    pub fn changes(&self) -> &[Change<T>]
        ensures { result.now ≡ self.now.changes }
    {
        self.changes.as_slice()
    }

    /// The present row of that key, if there is one.
    pub fn find(&self, key: Key) -> Option<&T>
        ensures { option_copied result ≡ row_at T.key key (rows_in T.key self.now) }
    {
        self.base.find_after(self.changes.as_slice(), key)
    }

    /// Adds a row, or replaces that of its key. Where memory is wanting, nothing has changed.
    #[tactic(auto, using(crate::proofs::table::Tables::all_applied_push))]
    pub fn put(&mut self, row: T) -> Result<(), AllocError>
        ensures change { OnOk result (self.new ≡ changed (Put row) self.old) }
        ensures rows { OnOk result (rows_in T.key self.new ≡ put T.key row (rows_in T.key self.old)) }
        ensures err { OnErr result (self.new ≡ self.old) }
    {
        self.changes.push(Change::Put(row))?;
        Ok(())
    }

    /// Removes the row of that key. Where memory is wanting, nothing has changed.
    #[tactic(auto, using(crate::proofs::table::Tables::all_applied_push))]
    pub fn remove(&mut self, key: Key) -> Result<(), AllocError>
        ensures change { OnOk result (self.new ≡ changed (Remove key) self.old) }
        ensures rows { OnOk result (rows_in T.key self.new ≡ without T.key key (rows_in T.key self.old)) }
        ensures err { OnErr result (self.new ≡ self.old) }
    {
        self.changes.push(Change::Remove(key))?;
        Ok(())
    }

    /// The changes, with memory for the rows that they bring.
    pub fn settle(self, alloc: Global) -> Result<TablePlan<T>, AllocError>
        ensures changes { IfOk result (λ s. s.changes ≡ self.entry.changes) }
        ensures fits { IfOk result (λ s. FitsIn s self.entry.base) }
    {
        let base = self.base;
        self.settle_for(alloc, base)
    }

    /// The changes, with memory for the rows that they bring to `table`. It is the table that the event began with,
    /// where contracts can't see any more that it is.
    pub fn settle_for(self, alloc: Global, table: &Table<T>) -> Result<TablePlan<T>, AllocError>
        ensures changes { IfOk result (λ s. s.changes ≡ self.entry.changes) }
        ensures fits { IfOk result (λ s. FitsIn s table.now) }
    {
        let reserve = table.make_reserve(alloc, self.changes.len())?;
        Ok(TablePlan {
            changes: self.changes,
            reserve,
        })
    }
}

impl<T: Drop> TablePlan<T> {
    /// The changes in order, to be committed.
    pub fn changes(&self) -> &[Change<T>]
        ensures { result.now ≡ self.now.changes }
    {
        self.changes.as_slice()
    }
}

/// Puts the changes in, without taking memory.
pub fn adopt<T: Drop + Row>(table: &mut Table<T>, settled: TablePlan<T>)
    requires { FitsIn settled table.old }
    ensures { table.new.rows ≡ all_applied T.key settled.changes table.old.rows }
{
    table.use_reserve(settled.reserve);
    table.apply_all(settled.changes);
}
