//! Rows of the seats of a hub.
ghost use Rattle.std.specs.Prelude.{◌≡◌, ◌<◌, ℕ, [], IfOk, length, option_copied};
ghost use Rattle.sms_rows.specs.table.Table.{HasRoom, Rises, put, row_at, without};
ghost use Rattle.smsc_service.specs.Room.{AreSeats, IsRoomy};

use sms_rows::table::{Key, Row, Table};
use std::alloc::{AllocError, Global};
use std::marker::Model;

/// Rows in the order of their seats, at most one a seat, seen by contracts as a list. There is room for all seats of a hub from
/// the start, so that nothing else here takes memory.
#[derive(Drop)]
pub struct SeatTable<T: Drop + Row> {
    table: Table<T>,
}

impl<T: Drop + Row> Model for SeatTable<T> {
    ghost use Rattle.std.specs.Prelude.{List};
    ghost use Rattle.smsc_service.specs.Room.{IsRoomy};

    ghost Value = { List T };

    ghost view = { λ t. t.table.rows };

    ghost invariant = { λ t. IsRoomy T.key t.table };
}

// Puts a row, where there is room.
fn put_row<T: Drop + Row>(table: &mut Table<T>, row: T)
    requires roomy { IsRoomy T.key table.old }
    requires seat { T.key row < 32 }
    ensures rows { table.new.rows ≡ put T.key row table.old.rows }
    ensures roomy { IsRoomy T.key table.new }
{
    let _rows = table.as_slice();
    table.put_ready(row);
}

// Removes the row of a key, if there is one.
fn remove_row<T: Drop + Row>(table: &mut Table<T>, key: Key)
    requires { IsRoomy T.key table.old }
    ensures rows { table.new.rows ≡ without T.key key table.old.rows }
    ensures roomy { IsRoomy T.key table.new }
{
    table.remove(key);
}

// Removes all rows.
fn clear<T: Drop + Row>(table: &mut Table<T>)
    requires { IsRoomy T.key table.old }
    ensures rows { table.new.rows ≡ [] }
    ensures roomy { IsRoomy T.key table.new }
{
    for seat in 0..32u64 {
        remove_row(table, Key::of(seat));
    }
}

// Puts all rows into an empty table.
fn fill<T: Drop + Copy + Row>(table: &mut Table<T>, rows: &[T])
    requires empty { table.old.rows ≡ [] }
    requires roomy { IsRoomy T.key table.old }
    requires seats { AreSeats T.key rows.now }
    requires order { Rises T.key rows.now }
    ensures rows { table.new.rows ≡ rows.now }
    ensures roomy { IsRoomy T.key table.new }
{
    for row in rows {
        put_row(table, *row);
    }
}

impl<T: Drop + Row> SeatTable<T> {
    /// No rows.
    ///
    /// # Errors
    /// There was no memory for the rows of all seats.
    pub fn new(alloc: Global) -> Result<SeatTable<T>, AllocError>
        ensures { IfOk result (λ table. table ≡ []) }
    {
        let rows = Vec::with_capacity(alloc, 33)?;
        Ok(SeatTable {
            table: Table::from_vec(rows),
        })
    }

    /// The rows in order.
    pub fn as_slice(&self) -> &[T]
        ensures rows { result.now ≡ self.now }
        ensures order { Rises T.key self.now }
        ensures seats { AreSeats T.key self.now }
    {
        self.table.as_slice()
    }

    /// The row of that key, if there is one.
    pub fn find(&self, key: Key) -> Option<&T>
        ensures { option_copied result ≡ row_at T.key key self.now }
    {
        self.table.find(key)
    }

    /// Puts the row of a seat in the place of the one that is there.
    pub fn put(&mut self, row: T)
        requires { T.key row < 32 }
        ensures { self.new ≡ put T.key row self.old }
    {
        put_row(&mut self.table, row);
    }

    /// Removes the row of that key, if there is one.
    pub fn remove(&mut self, key: Key)
        ensures { self.new ≡ without T.key key self.old }
    {
        remove_row(&mut self.table, key);
    }
}

impl<T: Drop + Copy + Row> SeatTable<T> {
    /// Takes the rows of another table in place of its own.
    pub fn copy_from(&mut self, other: &SeatTable<T>)
        ensures { self.new ≡ other.now }
    {
        clear(&mut self.table);
        fill(&mut self.table, other.as_slice());
    }
}
