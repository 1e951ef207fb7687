//! What a handset stores, and what an event changes of it.
ghost use Rattle.std.specs.Prelude.{◌≡◌};
ghost use Rattle.sms_handset_draft.specs.FirstRows.{first_rows};

use crate::counters::Counters;
use crate::setup::Setup;
use sms_base::Listed;
use sms_handset_rows::inbox::{DiscardedGroup, Entry, LastAccepted};
use sms_handset_rows::outbox::OutEntry;
use sms_rows::table::TablePlan;
use std::alloc::Global;

/// All that a handset stores, and its setup, which is handed in.
#[derive(Drop)]
pub struct Rows {
    pub entries: Listed<Entry>,
    pub last: Listed<LastAccepted>,
    pub outbox: Listed<OutEntry>,
    pub marks: Listed<DiscardedGroup>,
    pub counters: Counters,
    pub setup: Setup,
}

impl Rows {
    /// The rows of a new store.
    pub fn first(alloc: Global, setup: Setup) -> Rows
        ensures { result ≡ first_rows setup }
    {
        Rows {
            entries: Listed::new(alloc),
            last: Listed::new(alloc),
            outbox: Listed::new(alloc),
            marks: Listed::new(alloc),
            counters: Counters {
                entry: 1,
                message_reference: 0,
                reference: 0,
                concat_reference: 0,
                notice: 0,
                is_memory_full: false,
            },
            setup,
        }
    }
}

/// What an event changes of the rows: of each list in order, and the counters if they change.
#[derive(Drop)]
pub struct Changes {
    pub entries: TablePlan<Entry>,
    pub last: TablePlan<LastAccepted>,
    pub outbox: TablePlan<OutEntry>,
    pub marks: TablePlan<DiscardedGroup>,
    pub counters: Option<Counters>,
}
