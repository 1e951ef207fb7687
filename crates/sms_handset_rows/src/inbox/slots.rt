//! Slots.
ghost use Rattle.std.specs.Prelude.{◌≡◌, IfOk};
ghost use Rattle.sms_handset_rows.specs.inbox.Slots.{slots_taken};

use crate::inbox::entry::Entry;
use std::alloc::AllocError;

/// How many slots the entries take. A count that is too large for its type takes more entries than there are numbers.
/// It is reported as want of memory.
pub fn slots_in(entries: &[Entry]) -> Result<u64, AllocError>
    ensures { IfOk result (λ taken. taken ≡ slots_taken entries.now) }
{
    let mut taken: u64 = 0;
    for entry in entries {
        let Some(more) = taken.checked_add(u64::from(entry.slots)) else {
            return Err(AllocError);
        };
        taken = more;
    }
    Ok(taken)
}
