//! A connection to a copy of a database.
ghost use Rattle.std.specs.Prelude.{◌≡◌, IsTrue, IfOk};
ghost use Rattle.sqlite.specs.Files.{file_state, IsOpened};
ghost use Rattle.sqlite.specs.Start.{FindsIn};
ghost use Rattle.sqlite.specs.State.{HasCleanDisk};
ghost use Rattle.sqlite_disk.specs.Memory.{memory_bytes, memory_is_usable};

use crate::snapshot::copying::DatabaseCopy;
use sqlite::{Connection, Error, ErrorCode, FileStore, Files, Options};
use sqlite_disk::{Disk, Memory};
use std::alloc::Global;

// A file in memory that holds these octets.
fn file_of(alloc: Global, octets: &[u8]) -> Result<Memory, Error>
    ensures octets { IfOk result (λ file. memory_bytes file ≡ octets.now) }
    ensures usable { IfOk result (λ file. IsTrue (memory_is_usable file)) }
{
    let mut file = Memory::new(alloc);
    if octets.is_empty() {
        return Ok(file);
    }
    match file.write_at(0, octets) {
        Ok(()) => Ok(file),
        Err(_) => Err(Error::SqliteFailure(ErrorCode::OutOfMemory)),
    }
}

// Both files in memory.
fn files_of(alloc: Global, copy: &DatabaseCopy) -> Result<Files<Memory>, Error>
    ensures log { IfOk result (λ files. memory_bytes files.log ≡ copy.now.log.items) }
    ensures db { IfOk result (λ files. memory_bytes files.db ≡ copy.now.db.items) }
    ensures usable { IfOk result (λ files. IsTrue (memory_is_usable files.log) × IsTrue (memory_is_usable files.db)) }
{
    let log = file_of(alloc, copy.log.as_slice())?;
    let db = file_of(alloc, copy.db.as_slice())?;
    Ok(Files { log, db })
}

/// Connects to the database of the two files' octets. Where they are none yet, it has no tables.
pub fn connect(alloc: Global, copy: &DatabaseCopy) -> Result<Connection<FileStore<Memory>>, Error>
    ensures opened { IfOk result (λ conn. HasCleanDisk (file_state conn) → IsOpened conn) }
    ensures found { IfOk result (λ conn. HasCleanDisk (file_state conn)
        → FindsIn (record { log = copy.now.log.items; db = copy.now.db.items }) (file_state conn)) }
{
    let files = files_of(alloc, copy)?;
    match Connection::open_files(alloc, files, Options::new(0)) {
        Ok(conn) => Ok(conn),
        Err((error, _)) => Err(error),
    }
}
