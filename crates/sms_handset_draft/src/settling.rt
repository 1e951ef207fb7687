//! The changes of an event, with memory for the rows that they bring. Each function here holds few values where a
//! growth may be refused: what is dropped there is dear to prove.
ghost use Rattle.std.specs.Prelude.{◌≡◌, IfOk};
ghost use Rattle.sms_rows.specs.table.TableDraft.{FitsIn};
ghost use Rattle.sms_handset_draft.specs.Draft.{room_of, rows_of};
ghost use Rattle.sms_handset_draft.specs.Outcome.{HaveRoom, changes_in};

use crate::counters::Counters;
use crate::rows::Changes;
use crate::stored::Stored;
use sms_handset_rows::inbox::{DiscardedGroup, Entry, LastAccepted};
use sms_handset_rows::outbox::OutEntry;
use sms_rows::table::{Row, Table, TableDraft, TablePlan};
use std::alloc::{AllocError, Global};

// The changes of two lists.
#[derive(Drop)]
struct Two<A: Drop, B: Drop> {
    first: TablePlan<A>,
    second: TablePlan<B>,
}

fn settle_two<A: Drop + Row, B: Drop + Row>(
    alloc: Global,
    first: TableDraft<'_, A>,
    first_table: &Table<A>,
    second: TableDraft<'_, B>,
    second_table: &Table<B>,
) -> Result<Two<A, B>, AllocError>
    ensures first { IfOk result (λ two. two.first.changes ≡ first.entry.changes) }
    ensures second { IfOk result (λ two. two.second.changes ≡ second.entry.changes) }
    ensures first_fits { IfOk result (λ two. FitsIn two.first first_table.now) }
    ensures second_fits { IfOk result (λ two. FitsIn two.second second_table.now) }
{
    let first = first.settle_for(alloc, first_table)?;
    let second = second.settle_for(alloc, second_table)?;
    Ok(Two { first, second })
}

// Two and two, as the changes of a handset.
fn changes_of(
    inbox: Two<Entry, LastAccepted>,
    outbox: Two<OutEntry, DiscardedGroup>,
    counters: Option<Counters>,
) -> Changes
    ensures { result ≡ record { entries = inbox.first; last = inbox.second; outbox = outbox.first; marks = outbox.second; counters = counters } }
{
    Changes {
        entries: inbox.first,
        last: inbox.second,
        outbox: outbox.first,
        marks: outbox.second,
        counters,
    }
}

/// The changes of all lists, with memory for the rows that they bring to those of the handset.
pub(crate) fn settle(
    alloc: Global,
    entries: TableDraft<'_, Entry>,
    last: TableDraft<'_, LastAccepted>,
    outbox: TableDraft<'_, OutEntry>,
    marks: TableDraft<'_, DiscardedGroup>,
    counters: Option<Counters>,
    stored: &Stored,
) -> Result<Changes, AllocError>
    ensures changes { IfOk result (λ changes. changes_in changes ≡ record {
      entries = entries.entry.changes;
      last = last.entry.changes;
      outbox = outbox.entry.changes;
      marks = marks.entry.changes;
      counters = counters;
    }) }
    ensures room { IfOk result (λ changes. HaveRoom changes (rows_of stored.now) (room_of stored.now)) }
{
    let inbox = settle_two(alloc, entries, &stored.entries, last, &stored.last)?;
    let outbox = settle_two(alloc, outbox, &stored.outbox, marks, &stored.marks)?;
    Ok(changes_of(inbox, outbox, counters))
}
