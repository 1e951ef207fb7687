//! Memory for more entries of a map.
ghost use Rattle.std.specs.Prelude.{◌≡◌, ◌+◌, ◌≤◌, ℕ, max, nat_eq, length, IfOk};
ghost use Rattle.std.specs.Map.{lookup};
ghost use Rattle.indexmap.specs.IndexMap.{index_map_len, spare};

use indexmap::IndexMap;
use sms_base::lending::put;
use std::alloc::{AllocError, Global};
use std::marker::Model;

/// Memory for entries that no map uses yet, seen by contracts as how many it holds.
#[derive(Drop)]
pub(crate) struct MapReserve<V: Drop> {
    map: IndexMap<u128, V>,
}

impl<V: Drop> Model for MapReserve<V> {
    ghost use Rattle.std.specs.Prelude.{◌≡◌, ℕ, []};
    ghost use Rattle.indexmap.specs.IndexMap.{spare};

    ghost Value = { ℕ };

    ghost view = { λ s. spare s.map };

    ghost invariant = { λ s. s.map.entries ≡ [] };
}

/// Memory for that many entries more where the map's own is too small for them, else none.
pub(crate) fn make_reserve<V: Drop>(
    alloc: Global,
    map: &IndexMap<u128, V>,
    extra: usize,
) -> Result<MapReserve<V>, AllocError>
    ensures { IfOk result (λ memory. index_map_len map.now + extra ≤ max (index_map_len map.now + spare map.now) memory) }
{
    let len = map.len();
    if extra <= map.capacity() - len {
        let map = IndexMap::new(alloc);
        return Ok(MapReserve { map });
    }
    // A map's memory doubles by itself: its sizes go by powers of two.
    let Some(capacity) = len.checked_add(extra) else {
        return Err(AllocError);
    };
    let map = IndexMap::with_capacity(alloc, capacity)?;
    Ok(MapReserve { map })
}

/// Moves the entries into the memory where it is larger than the map's own, without taking memory.
pub(crate) fn use_reserve<V: Drop>(map: &mut IndexMap<u128, V>, memory: MapReserve<V>)
    ensures entries { (n : ℕ) → lookup (nat_eq n) map.new.entries ≡ lookup (nat_eq n) map.old.entries }
    ensures len { index_map_len map.new ≡ index_map_len map.old }
    ensures room { max (index_map_len map.old + spare map.old) memory ≤ index_map_len map.new + spare map.new }
{
    let mut larger = memory.map;
    // The call says that no key is there twice.
    let _len = map.len();
    if map.capacity() < larger.capacity() {
        match larger.append(map) {
            Ok(()) => put(map, larger),
            Err(_) => drop(larger),
        }
    } else {
        drop(larger);
    }
}
