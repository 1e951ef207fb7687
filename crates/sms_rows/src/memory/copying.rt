//! Copies of rows.
ghost use Rattle.std.specs.Prelude.{◌≡◌, IfOk};

use crate::table::Row;
use std::alloc::{AllocError, Global};

/// A row that can be copied, in a keep of the kind `K`.
pub trait CopiedRow<K>: Row {
    /// A copy of the row.
    fn copied(&self, alloc: Global) -> Result<Self, AllocError>
        ensures { IfOk result (λ copy. copy ≡ self.now) };
}

/// The rows, copied.
pub fn copy_of_rows<K, T: Drop + CopiedRow<K>>(
    alloc: Global,
    rows: &[T],
) -> Result<Vec<T>, AllocError>
    ensures { IfOk result (λ copies. copies.items ≡ rows.now) }
{
    let mut copies = Vec::new(alloc);
    for row in rows {
        copies.push(row.copied(alloc)?)?;
    }
    Ok(copies)
}
