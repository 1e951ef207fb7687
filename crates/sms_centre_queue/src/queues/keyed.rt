//! What is put into a map under a key.
ghost use Rattle.std.specs.Prelude.{Some, nat_eq, OnOk};
ghost use Rattle.indexmap.specs.IndexMap.{Updates};

use indexmap::IndexMap;
use std::alloc::AllocError;

/// Puts the value under the key, in the place of another that is there.
pub(crate) fn put_under<V: Drop>(
    map: &mut IndexMap<u128, V>,
    key: u128,
    value: V,
) -> Result<(), AllocError>
    ensures { OnOk result (Updates nat_eq map.old map.new key (Some value)) }
{
    match map.insert(key, value) {
        Ok(_) => Ok(()),
        Err(_) => Err(AllocError),
    }
}
