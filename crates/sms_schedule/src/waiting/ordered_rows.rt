//! Ordered rows in two pieces, one behind the other.
ghost use Rattle.std.specs.Prelude.{◌≡◌, ◌↔◌, ◌++◌, true, IfOk};
ghost use Rattle.sms_rows.specs.table.Table.{Rises};
ghost use Rattle.sms_schedule.specs.waiting.Base.{AllBelow};

use sms_rows::table::{Key, Row};
use std::alloc::{AllocError, Global};

/// Whether all of these ordered rows have lower keys.
pub(crate) fn is_below<T: Row>(rows: &[T], key: Key) -> bool
    requires { Rises T.key rows.now }
    ensures { (result ≡ true) ↔ AllBelow T.key key rows.now }
{
    match rows.last() {
        Some(row) => row.key().number() < key.number(),
        None => true,
    }
}

/// The first rows and then the rest, in memory of their own.
pub(crate) fn joined<T: Copy + Drop>(
    alloc: Global,
    first: &[T],
    rest: &[T],
) -> Result<Vec<T>, AllocError>
    ensures { IfOk result (λ rows. rows.items ≡ first.now ++ rest.now) }
{
    let Some(len) = first.len().checked_add(rest.len()) else {
        return Err(AllocError);
    };
    let mut rows = Vec::with_capacity(alloc, len)?;
    rows.extend_from_slice(first)?;
    rows.extend_from_slice(rest)?;
    Ok(rows)
}
