//! Copies of rows.
ghost use Rattle.std.specs.Prelude.{◌≡◌, ◌∷◌, [], ◌++◌, IfOk, OnOk};
ghost use Rattle.sms_rows.specs.table.Table.{change_row};

use sms_base::{Listed, Octets, Originator};
use sms_centre_rows::messages::MessageRow;
use sms_rows::table::Change;
use std::alloc::{AllocError, Global};

/// The originator, in memory of its own.
pub fn copy_of_originator(alloc: Global, originator: &Originator) -> Result<Originator, AllocError>
    ensures { IfOk result (λ copy. copy ≡ originator.now) }
{
    match originator {
        Originator::Application { account } => {
            let account = Octets::copy_of(alloc, account.as_slice())?;
            Ok(Originator::Application { account })
        }
        Originator::Handset { message_reference } => Ok(Originator::Handset {
            message_reference: *message_reference,
        }),
    }
}

// The row, in memory of its own.
pub(crate) fn copy_of(alloc: Global, row: &MessageRow) -> Result<MessageRow, AllocError>
    ensures { IfOk result (λ copy. copy ≡ row.now) }
{
    let originator = copy_of_originator(alloc, &row.originator)?;
    Ok(MessageRow {
        id: row.id,
        originator,
        source: row.source,
        handset: row.handset,
        data_coding_scheme: row.data_coding_scheme,
        protocol_identifier: row.protocol_identifier,
        wish: row.wish,
        submitted: row.submitted,
        limit: row.limit,
        split_reference: row.split_reference,
        state: row.state,
        done: row.done,
    })
}

// The row that the change leaves, if there is one, in memory of its own.
pub(crate) fn copy_left_by(
    alloc: Global,
    change: &Change<MessageRow>,
) -> Result<Option<MessageRow>, AllocError>
    ensures { IfOk result (λ copy. copy ≡ change_row change.now) }
{
    match change {
        Change::Put(row) => {
            let copy = copy_of(alloc, row)?;
            Ok(Some(copy))
        }
        Change::Remove(_) => Ok(None),
    }
}

// Puts a copy of the change at the end.
fn add_copy(
    alloc: Global,
    change: &Change<MessageRow>,
    copies: &mut Listed<Change<MessageRow>>,
) -> Result<(), AllocError>
    ensures { OnOk result (copies.new ≡ copies.old ++ change.now ∷ []) }
{
    match change {
        Change::Put(row) => {
            let copy = copy_of(alloc, row)?;
            copies.push(Change::Put(copy))
        }
        Change::Remove(key) => copies.push(Change::Remove(*key)),
    }
}

/// The changes of messages, in memory of their own. No TPDU is in them.
pub fn copy_of_changes(
    alloc: Global,
    changes: &[Change<MessageRow>],
) -> Result<Listed<Change<MessageRow>>, AllocError>
    ensures { IfOk result (λ copies. copies ≡ changes.now) }
{
    let mut copies = Listed::new(alloc);
    for change in changes {
        add_copy(alloc, change, &mut copies)?;
    }
    Ok(copies)
}
