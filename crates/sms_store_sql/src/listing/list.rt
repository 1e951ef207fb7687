//! What a list says of its table.
ghost use Rattle.std.specs.Prelude.{◌≡◌, ℕ, length, IfErr, IfOk};
ghost use Rattle.sms_store_sql.specs.listing.Inside.{Counts, Keeps, RanOn, Spares};
ghost use Rattle.sms_store_sql.specs.listing.Listing.{IsList, ListOf, key_index_of, key_values, table_of};
ghost use Rattle.sms_store_sql.specs.listing.Reading.{LacksMemory};
ghost use Rattle.sms_store_sql.specs.schema.StoredTable.{index_planned, table_planned};

use crate::schema::StoredTable;
use sms_rows::table::Row;
use sqlite::{Alter, Error, Transaction};
use std::alloc::Global;

/// How many rows a statement was on.
pub type Counted = Result<usize, Error>;

/// A row of a list that has a table of its own.
pub trait StoredRow<K>: Row {
    /// The list and its table.
    ghost list: { ListOf Self };

    /// The table, with its texts.
    fn table() -> StoredTable
        ensures planned { table_planned result ≡ table_of list.table }
        ensures index { index_planned result.index ≡ key_index_of list.table }
        ensures create { result.create.now ≡ list.table.create }
        ensures delete { result.delete.now ≡ list.table.delete }
        ensures update { result.update.now ≡ list.table.update }
        ensures insert { result.insert.now ≡ list.table.insert }
        ensures select { result.select.now ≡ list.table.select }
        ensures key { (n : ℕ) → key_values (length result.key.now) n ≡ list.key_columns n };

    /// Runs the text that adds a row or changes one, with the columns of the row as its values.
    fn write<S: Alter>(&self, alloc: Global, tx: &mut Transaction<'_, S>, text: &str) -> Counted
        ensures same_reference { tx.new.conn.ghost_name ≡ tx.old.conn.ghost_name }
        ensures done { Counts S.Store tx.old.conn.now tx.new.conn.now (RanOn text.now (list.columns self.now)) result }
        ensures uncommitted { Keeps S.Store tx.old.conn.now tx.new.conn.now }
        ensures survives { Spares S.Store tx.old.conn.now tx.new.conn.now }
        ensures fits { IfOk result (λ _. list.Fits self.now) };

    /// Whether a change puts such a row once, when no row has its key yet. Then it is added by one statement, and not looked
    /// for before. What is put is put, or the change is refused, whatever the answer.
    fn is_first(&self) -> bool {
        false
    }

    /// Reads the columns of a row. An error means columns that no row of the list has, or want of memory: what `write`
    /// writes is read again.
    fn read(alloc: Global, row: &sqlite::Row) -> Result<Self, Error>
        ensures found { IfOk result (λ found. found ≡ list.reads row.now) }
        ensures back { (x : Self) → list.Fits x → row.now ≡ list.columns x → IfErr result LacksMemory };

    /// The key is that of the list.
    ghost one_key: { (x : Self) → list.key x ≡ Self.key x };

    /// The texts are those of the list.
    ghost is_list: { IsList list };
}
