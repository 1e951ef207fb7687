//! Whether items differ.
ghost use Rattle.std.specs.Prelude.{◌≡◌, [], IfOk};
ghost use Rattle.sms_centre_rows.specs.conditions.Differing.{differ_by};

use indexmap::IndexSet;
use std::alloc::{AllocError, Global};
use std::hash::Hash;

// Whether none of the items is there twice, nor among those that were seen.
fn are_new<T: Copy + Drop + Eq + Hash>(
    items: &[T],
    seen: &mut IndexSet<T>,
) -> Result<bool, AllocError>
    ensures { IfOk result (λ b. b ≡ differ_by T.eq seen.old.keys items.now) }
{
    for item in items {
        match seen.insert(*item) {
            Ok(true) => (),
            Ok(false) => return Ok(false),
            Err(_) => return Err(AllocError),
        }
    }
    Ok(true)
}

/// Whether all items differ; each takes the time of a look-up.
pub fn differ<T: Copy + Drop + Eq + Hash>(alloc: Global, items: &[T]) -> Result<bool, AllocError>
    ensures { IfOk result (λ b. b ≡ differ_by T.eq [] items.now) }
{
    let mut seen: IndexSet<T> = IndexSet::new(alloc);
    let apart = are_new(items, &mut seen);
    drop(seen);
    apart
}
