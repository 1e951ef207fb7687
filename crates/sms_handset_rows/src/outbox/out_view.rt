//! The outbox as changes leave it.
ghost use Rattle.std.specs.Prelude.{◌≡◌, IfOk, OnOk};
ghost use Rattle.sms_rows.specs.table.Table.{all_applied, applied};
ghost use Rattle.sms_handset_rows.specs.outbox.Keys.{out_key};

use crate::outbox::out_entry::OutEntry;
use sms_rows::table::{Change, Key, Row, Table};
use std::alloc::{AllocError, Global};
use std::marker::Model;

/// An entry of the outbox in place: in the rows, or in a change of it.
#[derive(Drop)]
pub struct OutView<'a> {
    entry: &'a OutEntry,
}

impl<'a> Model for OutView<'a> {
    ghost use Rattle.sms_handset_rows.specs.declared.outbox.out_entry.OutEntry.{OutEntry as OutEntryOf};

    ghost Value = { OutEntryOf };

    ghost view = { λ v. v.entry.now };
}

impl<'a> OutView<'a> {
    fn of(entry: &'a OutEntry) -> OutView<'a>
        ensures { result ≡ entry.entry.now }
    {
        OutView { entry }
    }

    /// The entry that is seen, with the lifetime of what it is in.
    pub fn entry(&self) -> &'a OutEntry
        ensures { result.now ≡ self.now }
    {
        self.entry
    }
}

impl<'a> Row for OutView<'a> {
    ghost key = { out_key };

    fn key(&self) -> Key {
        Key::of(u64::from(self.entry.number))
    }
}

/// The outbox as changes leave it.
pub fn outbox_after<'a>(
    alloc: Global,
    outbox: &'a Table<OutEntry>,
    changes: &'a [Change<OutEntry>],
) -> Result<Table<OutView<'a>>, AllocError>
    ensures { IfOk result (λ after. after.rows ≡ all_applied out_key changes.entry.now outbox.entry.now.rows) }
{
    let mut after = Table::from_vec(views_of(alloc, outbox.as_slice())?);
    change_all(&mut after, changes)?;
    Ok(after)
}

/// Copies of the entries.
pub fn copies_of(alloc: Global, outbox: &[OutView<'_>]) -> Result<Vec<OutEntry>, AllocError>
    ensures { IfOk result (λ entries. entries.items ≡ outbox.now) }
{
    let mut entries = Vec::with_capacity(alloc, outbox.len())?;
    for view in outbox {
        entries.push(view.entry().copy(alloc)?)?;
    }
    Ok(entries)
}

fn views_of(alloc: Global, entries: &[OutEntry]) -> Result<Vec<OutView<'_>>, AllocError>
    ensures { IfOk result (λ views. views.items ≡ entries.now) }
{
    let mut views = Vec::with_capacity(alloc, entries.len())?;
    for entry in entries {
        views.push(OutView::of(entry))?;
    }
    Ok(views)
}

fn change_all<'a>(
    outbox: &mut Table<OutView<'a>>,
    changes: &'a [Change<OutEntry>],
) -> Result<(), AllocError>
    ensures { OnOk result (outbox.new.rows ≡ all_applied out_key changes.now outbox.old.rows) }
{
    for change in changes {
        apply(outbox, change)?;
    }
    Ok(())
}

fn apply<'a>(
    outbox: &mut Table<OutView<'a>>,
    change: &'a Change<OutEntry>,
) -> Result<(), AllocError>
    ensures { OnOk result (outbox.new.rows ≡ applied out_key change.now outbox.old.rows) }
{
    match change {
        Change::Put(entry) => outbox.put(OutView::of(entry))?,
        Change::Remove(number) => {
            outbox.remove(*number);
        }
    }
    Ok(())
}
