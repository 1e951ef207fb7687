//! A table whose lowest rows leave.
ghost use Rattle.std.specs.Prelude.{◌≡◌, ℕ, ◌+◌, ◌-◌, ◌<◌, ◌≤◌, not, [], drop, length, map, max, nat_lt, slice_get, vec_capacity, IfOk, IsOk, OnErr, OnOk};
ghost use Rattle.std.specs.Prelude.{MatchResult, option_copied};
ghost use Rattle.sms_rows.specs.table.Table.{HasRoom, IsAt, IsGap, IsRange, Rises, is_there, put, reserve_for, row_at, rows_from, without, without_all};

use crate::table::Row;
use crate::table::key::Key;
use crate::table::range::{is_in, range_of};
use crate::table::reserve::TableReserve;
use std::alloc::{AllocError, Global};
use std::collections::VecDeque;
use std::marker::Model;

/// Rows in the order of their keys, at most one a key, found in logarithmic time, as in a `Table`; but their memory is a
/// ring. So a row that leaves costs as many steps as rows stand before it, or behind it, whichever are fewer.
#[derive(Drop)]
pub struct RollingTable<T: Drop + Row> {
    items: VecDeque<T>,
}

impl<T: Drop + Row> Model for RollingTable<T> {
    ghost use Rattle.std.specs.VecDeque.{deque_capacity};
    ghost use Rattle.sms_rows.specs.table.Table.{RowsInMemory, Rises};

    ghost Value = { RowsInMemory T };

    ghost view = { λ t. record { rows = t.items.items; capacity = deque_capacity t.items } };

    ghost invariant = { λ t. Rises T.key t.items.items };
}

impl<T: Drop + Row> RollingTable<T> {
    /// No rows.
    pub fn new(alloc: Global) -> RollingTable<T>
        ensures { result.rows ≡ [] }
    {
        RollingTable {
            items: VecDeque::new(alloc),
        }
    }

    /// A table of the vector's rows, whose keys rise (`rises`), in its memory.
    pub fn from_vec(items: Vec<T>) -> RollingTable<T>
        requires { Rises T.key items.items }
        ensures { result ≡ record { rows = items.items; capacity = vec_capacity items } }
    {
        RollingTable {
            items: VecDeque::from_vec(items),
        }
    }

    /// How many rows there are.
    pub fn len(&self) -> usize
        ensures { result ≡ length self.now.rows }
    {
        self.items.len()
    }

    /// The row at that place in the order of keys, from place 0 on.
    pub fn get(&self, place: usize) -> Option<&T>
        ensures { option_copied result ≡ slice_get self.now.rows place }
    {
        self.items.get(place)
    }

    /// The row of the greatest key.
    pub fn last(&self) -> Option<&T>
        ensures { option_copied result ≡ slice_get self.now.rows (length self.now.rows - 1) }
    {
        self.items.back()
    }

    /// How many rows have lower keys: the place of the first row that is not below the key.
    pub fn place_of(&self, key: Key) -> usize
        ensures bound { result ≤ length self.now.rows }
        ensures from { drop result self.now.rows ≡ rows_from T.key key self.now.rows }
    {
        self.items.partition_point(
            |row: &T| -> bool
                ensures { result ≡ nat_lt (T.key row.now) key }
            { row.key().number() < key.number() },
        )
    }

    // Where the row of that key stands, or where it belongs.
    fn place(&self, key: Key) -> Result<usize, usize>
        ensures { MatchResult result (λ i. IsAt T.key key i self.now.rows) (λ i. IsGap T.key key i self.now.rows) }
    {
        let place = self.items.partition_point(
            |row: &T| -> bool
                ensures { result ≡ nat_lt (T.key row.now) key }
            { row.key().number() < key.number() },
        );
        if place == self.items.len() {
            return Err(place);
        }
        if key.number() < self.items[place].key().number() {
            Err(place)
        } else {
            Ok(place)
        }
    }

    /// The row of that key, if there is one.
    pub fn find(&self, key: Key) -> Option<&T>
        ensures { option_copied result ≡ row_at T.key key self.now.rows }
    {
        match self.place(key) {
            Ok(place) => Some(&self.items[place]),
            Err(_) => None,
        }
    }

    /// Puts a row in the place of that of its key, or where its key belongs.
    pub fn put(&mut self, row: T) -> Result<(), AllocError>
        ensures ok { OnOk result (self.new.rows ≡ put T.key row self.old.rows) }
        ensures err { OnErr result (self.new.rows ≡ self.old.rows) }
        ensures grows { self.old.capacity ≤ self.new.capacity }
        ensures in_place { HasRoom 1 self.old → IsOk result }
    {
        match self.place(row.key()) {
            Ok(place) => self.items[place] = row,
            Err(place) => self.items.insert(place, row)?,
        }
        Ok(())
    }

    /// Puts a row where there is room.
    pub fn put_ready(&mut self, row: T)
        requires { HasRoom 1 self.old }
        ensures rows { self.new.rows ≡ put T.key row self.old.rows }
        ensures capacity { self.old.capacity ≤ self.new.capacity }
    {
        match self.put(row) {
            Ok(()) => (),
            Err(_) => (),
        }
    }

    /// Removes the row of that key, if there is one.
    pub fn remove(&mut self, key: Key) -> Option<T>
        ensures row { result ≡ row_at T.key key self.old.rows }
        ensures rows { self.new ≡ record self.old { rows = without T.key key self.old.rows } }
    {
        match self.place(key) {
            Ok(place) => self.items.remove(place),
            Err(_) => None,
        }
    }

    /// Removes the rows that have the key of one of these, without taking memory. It costs what leaves and, of the rows
    /// that stay, at most all of them once.
    pub fn remove_all<C: Row>(&mut self, others: &[C])
        ensures { self.new ≡ record self.old { rows = without_all T.key (map C.key others.now) self.old.rows } }
    {
        if self.is_near(others) {
            self.remove_each(others);
        } else {
            self.retain_others(others);
        }
    }

    // Whether one removal after another moves fewer rows than there are.
    fn is_near<C: Row>(&self, others: &[C]) -> bool {
        match others.last() {
            Some(last) => self.place_of(last.key()).saturating_mul(others.len()) < self.items.len(),
            None => true,
        }
    }

    fn remove_each<C: Row>(&mut self, others: &[C])
        ensures { self.new ≡ record self.old { rows = without_all T.key (map C.key others.now) self.old.rows } }
    {
        for other in others {
            self.remove(other.key());
        }
    }

    // It passes all rows once.
    fn retain_others<C: Row>(&mut self, others: &[C])
        ensures { self.new ≡ record self.old { rows = without_all T.key (map C.key others.now) self.old.rows } }
    {
        let range = range_of(others);
        self.items.retain(
            |row: &T| -> bool
                ensures { IsRange C.key range.low range.high others.entry.now → result ≡ not (is_there C.key (T.key row.now) others.entry.now) }
            { !is_in(others, range, row.key()) },
        );
    }

    /// Memory for that many rows more where the table's own is too small for them, else none.
    pub fn make_reserve(&self, alloc: Global, extra: usize) -> Result<TableReserve<T>, AllocError>
        ensures ok { IfOk result (λ reserve. reserve ≡ reserve_for extra self.now) }
        ensures err { OnErr result (self.now.capacity < length self.now.rows + extra) }
    {
        TableReserve::beside(alloc, self.items.len(), self.items.capacity(), extra)
    }

    /// Moves the rows into the memory where it is larger than the table's own, without taking memory.
    pub fn use_reserve(&mut self, reserve: TableReserve<T>)
        ensures rows { self.new.rows ≡ self.old.rows }
        ensures capacity { max self.old.capacity reserve ≤ self.new.capacity }
    {
        let mut items = VecDeque::from_vec(reserve.into_vec());
        if self.items.capacity() < items.capacity() {
            match items.append(&mut self.items) {
                Ok(()) => self.items = items,
                Err(_) => (),
            }
        }
    }
}
