//! Memory for rows that no table uses yet.
ghost use Rattle.std.specs.Prelude.{◌≡◌, [], ◌+◌, ◌<◌, ◌≤◌, vec_capacity, IfOk, OnErr};
ghost use Rattle.sms_rows.specs.table.Table.{reserve_beside};

use std::alloc::{AllocError, Global};
use std::marker::Model;

/// Memory for rows that no table uses yet, seen by contracts as how many rows it holds.
#[derive(Drop)]
pub struct TableReserve<T: Drop> {
    items: Vec<T>,
}

impl<T: Drop> Model for TableReserve<T> {
    ghost use Rattle.std.specs.Prelude.{◌≡◌, ℕ, [], vec_capacity};

    ghost Value = { ℕ };

    ghost view = { λ s. vec_capacity s.items };

    ghost invariant = { λ s. s.items.items ≡ [] };
}

impl<T: Drop> TableReserve<T> {
    // Memory beside a table's, which holds so many rows and has so many, for the extra ones; none where there is room.
    pub(crate) fn beside(
        alloc: Global,
        len: usize,
        capacity: usize,
        extra: usize,
    ) -> Result<TableReserve<T>, AllocError>
        requires { len ≤ capacity }
        ensures ok { IfOk result (λ reserve. reserve ≡ reserve_beside extra len capacity) }
        ensures err { OnErr result (capacity < len + extra) }
    {
        if extra <= capacity - len {
            let items = Vec::new(alloc);
            return Ok(TableReserve { items });
        }
        let Some(wanted) = len.checked_add(extra) else {
            return Err(AllocError);
        };
        let Some(twice) = len.checked_add(wanted) else {
            return Err(AllocError);
        };
        let items = Vec::with_capacity(alloc, twice)?;
        Ok(TableReserve { items })
    }

    // The memory, in which no row is.
    pub(crate) fn into_vec(self) -> Vec<T>
        ensures items { result.items ≡ [] }
        ensures capacity { vec_capacity result ≡ self }
    {
        let TableReserve { items } = self;
        items
    }
}
