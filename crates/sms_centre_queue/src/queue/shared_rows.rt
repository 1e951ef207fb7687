//! Rows that copies share.
ghost use Rattle.std.specs.Prelude.{◌≡◌, [], IfOk, option_copied};
ghost use Rattle.sms_rows.specs.table.Table.{Rises, row_at};

use sms_rows::table::{Key, Row, Table};
use std::alloc::{AllocError, Global};
use std::marker::Model;
use std::sync::Arc;

/// Rows in the order of their keys, at most one a key, which nobody changes and which copies share.
#[derive(Drop)]
pub(crate) struct SharedRows<T: Drop + Row> {
    // None while there are no rows.
    table: Option<Arc<Table<T>>>,
}

impl<T: Drop + Row> Model for SharedRows<T> {
    ghost use Rattle.std.specs.Prelude.{List, []};
    ghost use Rattle.std.specs.Option.{option_map_or};

    ghost Value = { List T };

    ghost view = { λ b. option_map_or (λ t. t.value.rows) b.table [] };
}

impl<T: Drop + Row> SharedRows<T> {
    /// No rows.
    pub(crate) fn new() -> SharedRows<T>
        ensures { result ≡ [] }
    {
        SharedRows { table: None }
    }

    /// The rows of the table.
    pub(crate) fn of(alloc: Global, table: Table<T>) -> Result<SharedRows<T>, AllocError>
        ensures { IfOk result (λ base. base ≡ table.rows) }
    {
        let table = Arc::new(alloc, table)?;
        Ok(SharedRows { table: Some(table) })
    }

    /// A copy that shares the memory of the rows.
    pub(crate) fn share(&self) -> Result<SharedRows<T>, AllocError>
        ensures { IfOk result (λ base. base ≡ self.now) }
    {
        match &self.table {
            Some(table) => {
                let table = Arc::try_clone(table)?;
                Ok(SharedRows { table: Some(table) })
            }
            None => Ok(SharedRows { table: None }),
        }
    }

    /// The rows in order.
    pub(crate) fn as_slice(&self) -> &[T]
        ensures rows { result.now ≡ self.now }
        ensures order { Rises T.key self.now }
    {
        match &self.table {
            Some(table) => table.as_slice(),
            None => &[],
        }
    }

    /// The row of that key, if there is one.
    pub(crate) fn find(&self, key: Key) -> Option<&T>
        ensures { option_copied result ≡ row_at T.key key self.now }
    {
        match &self.table {
            Some(table) => table.find(key),
            None => None,
        }
    }
}
