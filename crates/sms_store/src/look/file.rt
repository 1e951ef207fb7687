//! A look at the store at a path.
ghost use Rattle.std.specs.Prelude.{◌≡◌, IfOk};
ghost use Rattle.sqlite.specs.Files.{IsOpened, file_state};
ghost use Rattle.sqlite.specs.Start.{FindsIn};
ghost use Rattle.sqlite.specs.State.{HasCleanDisk};
ghost use Rattle.sms_store.specs.centre.CentreRows.{centre_stores};
ghost use Rattle.sms_store.specs.centre.Types.{Rows as RowsOf};
ghost use Rattle.sms_store.specs.keeping.Closing.{HoldsStore};

use crate::look::found::{Looked, look_over};
use sms_base::{Address, Listed, Moment};
use sms_centre_spec::{Rows, Setup};
use sms_rows::keep::KeepError;
use sms_store_sql::listing::load_cause_of;
use sms_store_sql::snapshot::{DatabaseCopy, connect, copy_at};
use sqlite::{Connection, FileStore};
use sqlite_disk::Memory;
use std::alloc::Global;
use std::io::ErrorKind;

// The first second of the year 2000.
const FIRST_SECOND: u64 = 946_684_800;

// The setup of a look: what a store has does not depend on it.
fn any_setup(alloc: Global) -> Result<Setup, KeepError> {
    match (Address::new(1, 1, "0"), Moment::from_seconds(FIRST_SECOND)) {
        (Ok(centre), Ok(start)) => Ok(Setup {
            centre,
            start,
            first: 1,
            accounts: Listed::new(alloc),
        }),
        _ => Err(KeepError::NotThisStore),
    }
}

fn copy_of(rt: &HostRuntime, path: &str) -> Result<DatabaseCopy, KeepError> {
    match copy_at(rt, path) {
        Ok(copy) => Ok(copy),
        Err(error) if error.kind() == ErrorKind::OutOfMemory => Err(KeepError::NoMemory),
        Err(_) => Err(KeepError::Disk),
    }
}

// A connection to the database of the copied files.
fn connected(alloc: Global, copy: &DatabaseCopy) -> Result<Connection<FileStore<Memory>>, KeepError>
    ensures opened { IfOk result (λ conn. HasCleanDisk (file_state conn) → IsOpened conn) }
    ensures found { IfOk result (λ conn. HasCleanDisk (file_state conn)
        → FindsIn (record { log = copy.now.log.items; db = copy.now.db.items }) (file_state conn)) }
{
    match connect(alloc, copy) {
        Ok(conn) => Ok(conn),
        Err(error) => Err(load_cause_of(error)),
    }
}

// The rows of the store that the copied files hold, but for the setup.
fn look_at(alloc: Global, copy: &DatabaseCopy) -> Result<Looked<FileStore<Memory>>, KeepError>
    ensures held { IfOk result (λ looked. HasCleanDisk (file_state looked.conn) → (rows : RowsOf)
        → HoldsStore centre_stores (record { log = copy.now.log.items; db = copy.now.db.items }) rows
        → looked.rows ≡ record rows { setup = looked.rows.setup }) }
{
    let setup = any_setup(alloc)?;
    let conn = connected(alloc, copy)?;
    let looked = look_over(alloc, conn, setup)?;
    Ok(looked)
}

/// The rows of the centre's store at the path, by a copy of its files in memory. A server may have it open, and none of
/// it is changed. The setup among them says nothing. A store of version 1 is `OldVersion`, what is no store of a centre
/// `NotThisStore`, and a file that is not there `Disk`.
pub fn rows_at(rt: &HostRuntime, path: &str) -> Result<Rows, KeepError> {
    let copy = copy_of(rt, path)?;
    let looked = look_at(rt.alloc(), &copy)?;
    Ok(looked.rows)
}
