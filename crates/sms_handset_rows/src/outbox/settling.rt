//! The state of an entry after its transfer has ended.
ghost use Rattle.std.specs.Prelude.{◌≡◌};
ghost use Rattle.sms_handset_rows.specs.outbox.Settling.{lost as lost_of, put_back as put_back_of, settled as settled_of};

use crate::outbox::answers::TransferEnd;
use crate::outbox::out_entry::{EntryState, OutEntry};
use sms_base::Moment;

/// How often an entry is sent.
pub(crate) const MOST_TRIES: u8 = 3;

/// Seconds until an entry that a temporary cause put back is due.
const RETRY_DELAY: u64 = 60;

/// The entry, where it is not known whether the centre took it.
pub fn lost(entry: OutEntry) -> OutEntry
    ensures { result ≡ lost_of entry }
{
    let mut entry = entry;
    if entry.is_long || entry.tries >= MOST_TRIES {
        entry.state = EntryState::Unsure;
    } else {
        entry.state = EntryState::Queued;
        entry.rejects_duplicates = true;
        entry.due = None;
    }
    entry
}

// The cause for which the centre didn't take the entry passes.
fn put_back(moment: Moment, entry: OutEntry) -> OutEntry
    ensures { result ≡ put_back_of moment entry }
{
    let mut entry = entry;
    if entry.tries >= MOST_TRIES {
        entry.state = EntryState::Failed;
    } else {
        entry.state = EntryState::Queued;
        entry.due = Some(moment.plus(RETRY_DELAY));
    }
    entry
}

fn in_state(state: EntryState, entry: OutEntry) -> OutEntry
    ensures { result ≡ record entry { state = state } }
{
    let mut entry = entry;
    entry.state = state;
    entry
}

/// The entry as its transfer leaves it.
pub fn settled(moment: Moment, verdict: TransferEnd, entry: OutEntry) -> OutEntry
    ensures { result ≡ settled_of moment verdict entry }
{
    match verdict {
        TransferEnd::Acknowledged => in_state(EntryState::Sent, entry),
        TransferEnd::Temporary => put_back(moment, entry),
        TransferEnd::Duplicate => in_state(EntryState::Unsure, entry),
        TransferEnd::Refused => in_state(EntryState::Failed, entry),
        TransferEnd::Lost => lost(entry),
    }
}
