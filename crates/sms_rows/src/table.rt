//! Tables of rows by their keys, between events and within one.
//!
//! `Table` has its rows in the order of their keys, at most one row a key, and finds one in logarithmic time. A
//! `RollingTable` has them in a ring, for rows that are added at the end and leave at the front. A `Change` takes no
//! memory where room was made before. A `Key` is a number, a number and a small one, or digits; contracts see it as one
//! number. `TableDraft` is a table within an event: the rows from before it, and what it changed. It settles into
//! changes with the memory that they need. `adopt` puts them in without taking more: so a plan is made, is committed,
//! and then can't fail.
ghost use Rattle.std.specs.Prelude.{◌≡◌, ◌↔◌, ℕ, ◌+◌, ◌*◌, ◌<◌, ◌≤◌, not, true, [], nat_lt, length, map, drop, max, vec_capacity, MatchResult, OnOk, OnErr};
ghost use Rattle.std.specs.Prelude.{IsOk, IfOk, IfErr, option_copied};
ghost use Rattle.sms_rows.specs.table.Table.{HasRoom, IsAt, IsGap, IsRange, Rises, all_applied, applied, is_there, put, row_at, rows_between, rows_from};
ghost use Rattle.sms_rows.specs.table.Table.{reserve_for, without, without_all};

mod beside;
mod change;
mod draft;
mod key;
pub mod laws;
mod range;
mod reserve;
mod rolling;

use crate::table::beside::start_in;
use crate::table::range::{is_in, range_of};
pub use change::{Change, are_removals};
pub use draft::{TableDraft, TablePlan, adopt};
pub use key::Key;
pub use reserve::TableReserve;
pub use rolling::RollingTable;
use std::alloc::{AllocError, Global};
use std::marker::Model;

/// A row of a table.
pub trait Row {
    /// The key, as contracts see it.
    ghost key: { Self → ℕ };

    /// The key, which no other row of the table has.
    fn key(&self) -> Key
        ensures { result ≡ key self.now };
}

/// Rows in the order of their keys, at most one a key, found in logarithmic time.
///
/// Contracts see the rows and how many of them the table's memory holds. So a plan of changes can be made first, with a
/// `TableReserve` where the memory is too small. It is carried out later without taking memory.
#[derive(Drop)]
pub struct Table<T: Drop + Row> {
    items: Vec<T>,
}

impl<T: Drop + Row> Model for Table<T> {
    ghost use Rattle.std.specs.Prelude.{vec_capacity};
    ghost use Rattle.sms_rows.specs.table.Table.{RowsInMemory, Rises};

    ghost Value = { RowsInMemory T };

    ghost view = { λ t. record { rows = t.items.items; capacity = vec_capacity t.items } };

    ghost invariant = { λ t. Rises T.key t.items.items };
}

impl<T: Drop + Row> Table<T> {
    /// No rows.
    pub fn new(alloc: Global) -> Table<T>
        ensures { result ≡ record { rows = []; capacity = 0 } }
    {
        Table {
            items: Vec::new(alloc),
        }
    }

    /// A table of the vector's rows, whose keys rise (`rises`).
    pub fn from_vec(items: Vec<T>) -> Table<T>
        requires { Rises T.key items.items }
        ensures { result ≡ record { rows = items.items; capacity = vec_capacity items } }
    {
        Table { items }
    }

    /// The vector that holds the rows.
    pub fn into_vec(self) -> Vec<T>
        ensures { result.items ≡ self.rows }
    {
        let Table { items } = self;
        items
    }

    /// The rows in order.
    pub fn as_slice(&self) -> &[T]
        ensures rows { result.now ≡ self.now.rows }
        ensures order { Rises T.key self.now.rows }
    {
        self.items.as_slice()
    }

    // How many rows have lower keys.
    fn start_of(&self, key: Key) -> usize
        ensures bound { result ≤ length self.now.rows }
        ensures from { drop result self.now.rows ≡ rows_from T.key key self.now.rows }
    {
        let rows = self.items.as_slice();
        rows.partition_point(
            |row: &T| -> bool
                ensures { result ≡ nat_lt (T.key row.now) key }
            { row.key().number() < key.number() },
        )
    }

    // Where the row of that key stands, or where it belongs.
    fn place(&self, key: Key) -> Result<usize, usize>
        ensures { MatchResult result (λ i. IsAt T.key key i self.now.rows) (λ i. IsGap T.key key i self.now.rows) }
    {
        let place = self.items.as_slice().partition_point(
            |row: &T| -> bool
                ensures { result ≡ nat_lt (T.key row.now) key }
            { row.key().number() < key.number() },
        );
        if place == self.items.len() {
            return Err(place);
        }
        if key.number() < self.items[place].key().number() {
            Err(place)
        } else {
            Ok(place)
        }
    }

    /// The row of that key, if there is one.
    pub fn find(&self, key: Key) -> Option<&T>
        ensures { option_copied result ≡ row_at T.key key self.now.rows }
    {
        match self.place(key) {
            Ok(place) => Some(&self.items[place]),
            Err(_) => None,
        }
    }

    /// The row of that key, if there is one. It is looked for at the place first, which becomes its own: a walk through two
    /// tables finds each row beside the last one. Any place gives the same answer.
    pub fn find_beside(&self, place: &mut usize, key: Key) -> Option<&T>
        ensures { option_copied result ≡ row_at T.key key self.now.rows }
    {
        let rows = self.items.as_slice();
        let start = start_in(rows, *place, key);
        *place = start;
        if start == rows.len() {
            return None;
        }
        if key.number() < rows[start].key().number() {
            None
        } else {
            Some(&rows[start])
        }
    }

    /// As `rows_between`. They are looked for at the place first, which becomes theirs. Any place gives the same answer.
    pub fn rows_beside(&self, place: &mut usize, first: Key, end: Key) -> &[T]
        ensures { result.now ≡ rows_between T.key first end self.now.rows }
    {
        let rows = self.items.as_slice();
        let start = start_in(rows, *place, first);
        *place = start;
        let behind = &rows[start..];
        let len = start_in(behind, 0, end);
        &behind[..len]
    }

    /// The rows whose keys are not below the one and below the other.
    pub fn rows_between(&self, first: Key, end: Key) -> &[T]
        ensures { result.now ≡ rows_between T.key first end self.now.rows }
    {
        let start = self.start_of(first);
        let rows = &self.items.as_slice()[start..];
        let len = rows.partition_point(
            |row: &T| -> bool
                ensures { result ≡ nat_lt (T.key row.now) end }
            { row.key().number() < end.number() },
        );
        &rows[..len]
    }

    /// The rows whose keys are not below the one.
    pub fn rows_from(&self, first: Key) -> &[T]
        ensures { result.now ≡ rows_from T.key first self.now.rows }
    {
        let start = self.start_of(first);
        &self.items.as_slice()[start..]
    }

    /// The row that the key has after the changes, if there is one.
    pub fn find_after<'a>(&'a self, changes: &'a [Change<T>], key: Key) -> Option<&'a T>
        ensures { option_copied result ≡ row_at T.key key (all_applied T.key changes.entry.now self.entry.now.rows) }
    {
        for i in 0..changes.len() {
            let change = &changes[changes.len() - 1 - i];
            if change.key().number() == key.number() {
                return change.row();
            }
        }
        self.find(key)
    }

    /// Puts a row in the place of that of its key, or where its key belongs.
    pub fn put(&mut self, row: T) -> Result<(), AllocError>
        ensures ok { OnOk result (self.new.rows ≡ put T.key row self.old.rows) }
        ensures err { OnErr result (self.new.rows ≡ self.old.rows) }
        ensures grows { self.old.capacity ≤ self.new.capacity }
        ensures in_place { HasRoom 1 self.old → IsOk result × (self.new.capacity ≡ self.old.capacity) }
    {
        match self.place(row.key()) {
            Ok(place) => self.items[place] = row,
            Err(place) => self.items.insert(place, row)?,
        }
        Ok(())
    }

    /// Puts a row where there is room, without taking memory.
    pub fn put_ready(&mut self, row: T)
        requires { HasRoom 1 self.old }
        ensures { self.new ≡ record self.old { rows = put T.key row self.old.rows } }
    {
        match self.put(row) {
            Ok(()) => (),
            Err(_) => (),
        }
    }

    /// Removes the row of that key, if there is one.
    pub fn remove(&mut self, key: Key) -> Option<T>
        ensures row { result ≡ row_at T.key key self.old.rows }
        ensures rows { self.new ≡ record self.old { rows = without T.key key self.old.rows } }
    {
        match self.place(key) {
            Ok(place) => Some(self.items.remove(place)),
            Err(_) => None,
        }
    }

    /// Carries out a change without taking memory.
    pub fn apply(&mut self, change: Change<T>)
        requires { HasRoom 1 self.old }
        ensures { self.new ≡ record self.old { rows = applied T.key change self.old.rows } }
    {
        match change {
            Change::Put(row) => self.put_ready(row),
            Change::Remove(key) => {
                self.remove(key);
            }
        }
    }

    /// Removes the rows that have the key of one of these. It passes all rows once, and takes no memory.
    pub fn remove_all<C: Row>(&mut self, others: &[C])
        ensures { self.new ≡ record self.old { rows = without_all T.key (map C.key others.now) self.old.rows } }
    {
        let range = range_of(others);
        self.items.retain(
            |row: &T| -> bool
                ensures { IsRange C.key range.low range.high others.entry.now → result ≡ not (is_there C.key (T.key row.now) others.entry.now) }
            { !is_in(others, range, row.key()) },
        );
    }

    /// Carries out the changes in their order without taking memory. Several removals alone cost one pass.
    pub fn apply_all(&mut self, changes: Vec<Change<T>>)
        requires { HasRoom (length changes.items) self.old }
        ensures { self.new ≡ record self.old { rows = all_applied T.key changes.items self.old.rows } }
    {
        if changes.len() < 2 {
            self.apply_each(changes);
            return;
        }
        if are_removals(changes.as_slice()) {
            self.remove_all(changes.as_slice());
            drop(changes);
            return;
        }
        self.apply_each(changes);
    }

    fn apply_each(&mut self, changes: Vec<Change<T>>)
        requires { HasRoom (length changes.items) self.old }
        ensures { self.new ≡ record self.old { rows = all_applied T.key changes.items self.old.rows } }
    {
        for change in changes {
            self.apply(change);
        }
    }

    /// Memory for that many rows more where the table's own is too small for them, else none.
    pub fn make_reserve(&self, alloc: Global, extra: usize) -> Result<TableReserve<T>, AllocError>
        ensures ok { IfOk result (λ reserve. reserve ≡ reserve_for extra self.now) }
        ensures err { OnErr result (self.now.capacity < length self.now.rows + extra) }
    {
        TableReserve::beside(alloc, self.items.len(), self.items.capacity(), extra)
    }

    /// Moves the rows into the memory where it is larger than the table's own, without taking memory.
    pub fn use_reserve(&mut self, reserve: TableReserve<T>)
        ensures rows { self.new.rows ≡ self.old.rows }
        ensures capacity { max self.old.capacity reserve ≤ self.new.capacity }
    {
        let mut items = reserve.into_vec();
        if self.items.capacity() < items.capacity() {
            match items.append(&mut self.items) {
                Ok(()) => self.items = items,
                Err(_) => (),
            }
        }
    }
}

/// Whether the keys of the rows rise: the rows are in order, at most one a key.
pub fn rises<T: Row>(rows: &[T]) -> bool
    ensures { (result ≡ true) ↔ Rises T.key rows.now }
{
    for i in 1..rows.len() {
        if rows[i].key().number() <= rows[i - 1].key().number() {
            return false;
        }
    }
    true
}
