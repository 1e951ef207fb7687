//! The table, written.
ghost use Rattle.std.specs.Prelude.{◌≡◌, ◌≢◌, Err, OnOk};
ghost use Rattle.std.specs.Io.KnownBytes.{Appends};
ghost use Rattle.smsc_cli.specs.handset_table.HandsetTable.{handset_table};
ghost use Rattle.smsc_cli.specs.declared.handset_table.writing.ShowError.TheVariants.{NoMemory};

use crate::handset_table::table::handset_table;
use sms_handset_rows::inbox::Entry;
use sms_handset_rows::outbox::OutEntry;
use std::alloc::{AllocError, Global};
use std::io::{self, Write};
use thiserror::Error;

/// Why a table was not written to its end.
#[derive(Debug, Drop, Error)]
pub enum ShowError {
    /// There was no memory. Nothing was written.
    #[error("out of memory")]
    NoMemory,
    /// A write failed.
    #[error("{0}")]
    Io(io::Error),
}

impl From<AllocError> for ShowError {
    ghost use Rattle.std.specs.Prelude.{◌≡◌};
    ghost use Rattle.smsc_cli.specs.declared.handset_table.writing.ShowError.TheVariants.{NoMemory};

    ghost from_gives = { λ _ fault. fault ≡ NoMemory };

    fn from(_error: AllocError) -> ShowError {
        ShowError::NoMemory
    }
}

fn write_out<W: Write>(out: &mut W, octets: &[u8]) -> Result<(), ShowError>
    ensures written { OnOk result (Appends (W.contents out.old) (W.contents out.new) octets.now) }
    ensures io { result ≢ Err NoMemory }
{
    match out.write_all(octets) {
        Ok(()) => Ok(()),
        Err(error) => Err(ShowError::Io(error)),
    }
}

/// Writes the table of an inbox and an outbox.
pub fn show<W: Write>(
    alloc: Global,
    inbox: &[Entry],
    outbox: &[OutEntry],
    out: &mut W,
) -> Result<(), ShowError>
    ensures written { OnOk result (Appends (W.contents out.old) (W.contents out.new) (handset_table inbox.now outbox.now)) }
    ensures unwritten { result ≡ Err NoMemory → out.new ≡ out.old }
{
    let table = handset_table(alloc, inbox, outbox)?;
    write_out(out, table.as_slice())
}
