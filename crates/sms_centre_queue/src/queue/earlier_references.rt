//! References that were given and are shared by copies.
ghost use Rattle.std.specs.Prelude.{◌≡◌, ◌≤◌, [], IfOk};
ghost use Rattle.sms_rows.specs.table.Table.{Rises, row_at};
ghost use Rattle.sms_centre_rows.specs.waiting.Keys.{reference_key};
ghost use Rattle.sms_centre_rows.specs.waiting.References.{is_late as is_late_of};
ghost use Rattle.sms_centre_queue.specs.queue.Given.{AllGivenBy};

use crate::queue::shared_rows::SharedRows;
use sms_base::Moment;
use sms_centre_rows::waiting::ReferenceRow;
use sms_rows::table::{Key, Table};
use std::alloc::{AllocError, Global};
use std::marker::Model;

/// References that were given, in their order, which copies share, and a moment after which none of them was given. By
/// that moment an event seldom has to look at them, in memory that no other event has touched for long.
#[derive(Drop)]
pub(crate) struct EarlierReferences {
    base: SharedRows<ReferenceRow>,
    // In seconds after 1970 began.
    latest: u64,
}

impl Model for EarlierReferences {
    ghost use Rattle.std.specs.Prelude.{List};
    ghost use Rattle.sms_centre_rows.specs.declared.waiting.reference.ReferenceRow.{ReferenceRow as ReferenceRowOf};
    ghost use Rattle.sms_centre_queue.specs.queue.Given.{AllGivenBy};

    ghost Value = { List ReferenceRowOf };

    ghost view = { λ e. e.base };

    ghost invariant = { λ e. AllGivenBy e.latest e.base };
}

impl EarlierReferences {
    /// None.
    pub(crate) fn new() -> EarlierReferences
        ensures { result ≡ [] }
    {
        EarlierReferences {
            base: SharedRows::new(),
            latest: 0,
        }
    }

    /// The rows of the table.
    pub(crate) fn of(
        alloc: Global,
        rows: Table<ReferenceRow>,
    ) -> Result<EarlierReferences, AllocError>
        ensures { IfOk result (λ earlier. earlier ≡ rows.rows) }
    {
        let latest = latest_of(rows.as_slice());
        let base = SharedRows::of(alloc, rows)?;
        Ok(EarlierReferences { base, latest })
    }

    /// A copy that shares the memory of the rows.
    pub(crate) fn share(&self) -> Result<EarlierReferences, AllocError>
        ensures { IfOk result (λ earlier. earlier ≡ self.now) }
    {
        let base = self.base.share()?;
        Ok(EarlierReferences {
            base,
            latest: self.latest,
        })
    }

    /// The rows in order.
    pub(crate) fn as_slice(&self) -> &[ReferenceRow]
        ensures rows { result.now ≡ self.now }
        ensures order { Rises reference_key self.now }
    {
        self.base.as_slice()
    }

    /// Whether the reference of that key was given last at that moment or later.
    #[tactic(auto, using(crate::proofs::queue::Latest::none_late))]
    pub(crate) fn is_late(&self, key: Key, now: Moment) -> bool
        ensures { result ≡ is_late_of now (row_at reference_key key self.now) }
    {
        if self.latest < now.seconds() {
            return false;
        }
        match self.base.find(key) {
            Some(row) => now.seconds() <= row.last.seconds(),
            None => false,
        }
    }
}

// The latest of their moments, in seconds after 1970 began.
fn latest_of(rows: &[ReferenceRow]) -> u64
    ensures { AllGivenBy result rows.now }
{
    let mut latest: u64 = 0;
    for row in rows {
        latest = later(latest, row);
    }
    latest
}

fn later(latest: u64, row: &ReferenceRow) -> u64
    ensures this { row.now.last ≤ result }
    ensures others { latest ≤ result }
{
    let moment = row.last.seconds();
    if latest < moment { moment } else { latest }
}
