//! The table, written.
ghost use Rattle.std.specs.Prelude.{◌≡◌, ◌≢◌, ◌⊎◌, ◌↔◌, Err, OnOk};
ghost use Rattle.std.specs.Io.KnownBytes.{Appends};
ghost use Rattle.sms_centre_rows.specs.messages.Messages.{part_key};
ghost use Rattle.sms_rows.specs.table.Table.{Rises};
ghost use Rattle.smsc_cli.specs.centre_table.CentreTable.{centre_table};
ghost use Rattle.smsc_cli.specs.centre_table.Selecting.{selected_messages};
ghost use Rattle.smsc_cli.specs.declared.centre_table.writing.ShowError.TheVariants.{BadRows, NoMemory};

use crate::centre_table::selecting::{Filter, last_of, selected};
use crate::centre_table::table::centre_table;
use sms_centre_rows::messages::{MessageRow, PartRow};
use sms_rows::table::{Table, rises};
use std::alloc::{AllocError, Global};
use std::io::{self, Write};
use thiserror::Error;

/// Why a table was not written to its end.
#[derive(Debug, Drop, Error)]
pub enum ShowError {
    /// The parts aren't in the order of their keys. Nothing was written.
    #[error("the rows are not sound")]
    BadRows,
    /// There was no memory. Nothing was written.
    #[error("out of memory")]
    NoMemory,
    /// A write failed.
    #[error("{0}")]
    Io(io::Error),
}

impl From<AllocError> for ShowError {
    ghost use Rattle.std.specs.Prelude.{◌≡◌};
    ghost use Rattle.smsc_cli.specs.declared.centre_table.writing.ShowError.TheVariants.{NoMemory};

    ghost from_gives = { λ _ fault. fault ≡ NoMemory };

    fn from(_error: AllocError) -> ShowError {
        ShowError::NoMemory
    }
}

fn write_out<W: Write>(out: &mut W, octets: &[u8]) -> Result<(), ShowError>
    ensures written { OnOk result (Appends (W.contents out.old) (W.contents out.new) octets.now) }
    ensures io { (result ≢ Err NoMemory) × (result ≢ Err BadRows) }
{
    match out.write_all(octets) {
        Ok(()) => Ok(()),
        Err(error) => Err(ShowError::Io(error)),
    }
}

fn show_parts<W: Write>(
    alloc: Global,
    messages: &[MessageRow],
    parts: &Table<PartRow>,
    out: &mut W,
) -> Result<(), ShowError>
    ensures written { OnOk result (Appends (W.contents out.old) (W.contents out.new) (centre_table messages.now parts.now.rows)) }
    ensures unwritten { result ≡ Err NoMemory → out.new ≡ out.old }
    ensures rows { result ≢ Err BadRows }
{
    let table = centre_table(alloc, messages, parts)?;
    write_out(out, table.as_slice())
}

/// Writes the table of the messages that the filter shows, and their parts.
pub fn show<W: Write>(
    alloc: Global,
    messages: Vec<MessageRow>,
    parts: Vec<PartRow>,
    filter: &Filter<'_>,
    out: &mut W,
) -> Result<(), ShowError>
    ensures written { OnOk result (Appends (W.contents out.old) (W.contents out.new) (centre_table (selected_messages filter.now messages.items) parts.items)) }
    ensures bad { (result ≡ Err BadRows) ↔ (¬ Rises part_key parts.items) }
    ensures unwritten { (result ≡ Err NoMemory) ⊎ (result ≡ Err BadRows) → out.new ≡ out.old }
{
    if !rises(parts.as_slice()) {
        return Err(ShowError::BadRows);
    }
    let parts = Table::from_vec(parts);
    let messages = selected(filter, messages);
    show_parts(
        alloc,
        last_of(messages.as_slice(), filter.last),
        &parts,
        out,
    )
}
