//! How a run opens its store, and why it can't.
use crate::preparing::{Begun, put_back, ready, set_log_aside};
use crate::run_fault::{RunFault, StoreFault};
use crate::store_files::{StorePaths, is_full, look_at, make_private, octets_at, probe_disk};
use crate::summary::{Files as FilesFound, files_at};
use sms_base::Moment;
use sms_centre_spec::Setup;
use sms_centre_spec::numbers::first_number;
use sms_rows::keep::KeepError;
use sms_store::CentreKeep;
use sms_store_files::{FilesLook, OpenedFiles, is_log_alone, lengths_of, opened_of};
use smsc_cli::words::ServerRun;
use sqlite::{Connection, Error, ErrorCode, File, FileStore, Files, Options, Unknown};
use sqlite_std_file::OpenError;
use std::fs::{self, OpenOptions};
use std::hash::{BuildHasher, RandomState};
use std::io::{self, ErrorKind};

/// What a run finds as it opens its store.
#[derive(Drop)]
pub struct FoundStore {
    /// The paths of both files.
    pub paths: StorePaths,
    /// What the files were before.
    pub files: FilesFound,
    /// The files that were opened.
    pub opened: OpenedFiles,
    /// What both say of the runs before.
    pub begun: Begun,
}

fn fault_of(kind: ErrorKind) -> StoreFault {
    match kind {
        ErrorKind::NotFound => StoreFault::NoFolder,
        ErrorKind::NotADirectory => StoreFault::NoFolder,
        ErrorKind::IsADirectory => StoreFault::Folder,
        ErrorKind::PermissionDenied => StoreFault::NotAllowed,
        ErrorKind::ReadOnlyFilesystem => StoreFault::ReadOnly,
        ErrorKind::StorageFull => StoreFault::Full,
        _ => StoreFault::Other,
    }
}

/// What the system says of the file at the path.
pub(crate) fn system_fault(rt: &HostRuntime, path: &str) -> StoreFault {
    match fs::metadata(rt, path) {
        Ok(found) if found.is_dir() => return StoreFault::Folder,
        Ok(_) | Err(_) => (),
    }
    match OpenOptions::new().read(true).write(true).open(rt, path) {
        Ok(_) => StoreFault::Other,
        Err(error) if error.kind() == ErrorKind::NotFound && has_folder(rt, path) => {
            StoreFault::NotThere
        }
        Err(error) => fault_of(error.kind()),
    }
}

// Whether the folder of the file is there.
fn has_folder(rt: &HostRuntime, path: &str) -> bool {
    match path.rsplit_once('/') {
        Some((folder, _)) if !folder.is_empty() => fs::metadata(rt, folder).is_ok(),
        _ => true,
    }
}

// ---- the files

fn io_fault(rt: &HostRuntime, path: &str, error: &io::Error) -> RunFault {
    match error.kind() {
        ErrorKind::OutOfMemory => RunFault::NoMemory,
        ErrorKind::StorageFull => RunFault::Store(StoreFault::Full),
        _ => RunFault::Store(system_fault(rt, path)),
    }
}

fn open_fault(rt: &HostRuntime, path: &str, error: &OpenError) -> RunFault {
    match error {
        OpenError::Busy => RunFault::Store(StoreFault::Busy),
        OpenError::OutOfMemory => RunFault::NoMemory,
        OpenError::HotJournal => RunFault::Store(system_fault(rt, path)),
        OpenError::Io(error) => io_fault(rt, path, error),
    }
}

// Refuses a log whose database is missing or empty, unless the words give up what it holds.
fn judge_octets(file: u64, log: u64, begins_anew: bool) -> Result<(), RunFault> {
    if is_log_alone(file, log) && !begins_anew {
        return Err(RunFault::Store(StoreFault::LogAlone));
    }
    Ok(())
}

// Opens both files, and makes those that are missing. From here on a second server finds them locked.
pub(crate) fn open_files(rt: &HostRuntime, path: &str) -> Result<Files<File>, RunFault> {
    match sqlite_std_file::open(rt, path, Unknown) {
        Ok(files) => Ok(files),
        Err(error) => Err(open_fault(rt, path, &error)),
    }
}

// Looks once more, as the file may have been taken away meanwhile. A log that is given up is kept beside the new store.
fn judge_opened(
    rt: &HostRuntime,
    paths: &StorePaths,
    files: &mut Files<File>,
    begins_anew: bool,
    start: Moment,
) -> Result<(), RunFault> {
    let Ok((file, log)) = lengths_of(files) else {
        return Err(RunFault::Store(StoreFault::Other));
    };
    judge_octets(file as u64, log as u64, begins_anew)?;
    if is_log_alone(file as u64, log as u64) {
        set_log_aside(rt, paths, files, start)?;
    }
    Ok(())
}

fn open_judged(
    rt: &HostRuntime,
    paths: &StorePaths,
    begins_anew: bool,
    start: Moment,
) -> Result<Files<File>, RunFault> {
    let path = paths.file.as_str();
    let log = octets_at(rt, paths.log.as_str());
    judge_octets(octets_at(rt, path), log, begins_anew)?;
    make_private(rt, path);
    let mut files = open_files(rt, path)?;
    match judge_opened(rt, paths, &mut files, begins_anew, start) {
        Ok(()) => Ok(files),
        Err(fault) => {
            drop(files);
            Err(fault)
        }
    }
}

// ---- the database in them

/// Why the database in the files can't be opened or closed.
pub(crate) fn database_fault(rt: &HostRuntime, path: &str, error: Error) -> RunFault {
    let Error::SqliteFailure(code) = error else {
        return RunFault::Store(StoreFault::NoDatabase);
    };
    RunFault::Store(match code {
        ErrorCode::OutOfMemory => return RunFault::NoMemory,
        ErrorCode::DatabaseBusy => StoreFault::Busy,
        ErrorCode::DiskFull => StoreFault::Full,
        ErrorCode::NotADatabase => StoreFault::NoDatabase,
        ErrorCode::DatabaseCorrupt => StoreFault::Damaged,
        _ => system_fault(rt, path),
    })
}

/// A number that nobody can foretell.
pub(crate) fn seed_of(rt: &HostRuntime) -> Result<u64, RunFault> {
    match RandomState::new(rt) {
        Ok(state) => Ok(state.hash_one(&0u8)),
        Err(_) => Err(RunFault::Store(StoreFault::Other)),
    }
}

/// Opens the database in both files.
pub(crate) fn connect(
    rt: &HostRuntime,
    path: &str,
    files: Files<File>,
) -> Result<Connection<FileStore<File>>, RunFault> {
    let seed = seed_of(rt)?;
    if !files.may_be_used() {
        drop(files);
        return Err(RunFault::Store(StoreFault::Other));
    }
    match Connection::open_files(rt.alloc(), files, Options::new(seed)) {
        Ok(conn) => Ok(conn),
        Err((error, left)) => {
            drop(left.into_files());
            Err(database_fault(rt, path, error))
        }
    }
}

// Whether the disk of the file at the path takes no further octets.
fn is_disk_full(rt: &HostRuntime, path: &str) -> bool {
    matches!(probe_disk(rt, path), Err(error) if is_full(&error))
}

// Why the keep refused the database that was opened.
fn keep_fault(rt: &HostRuntime, path: &str, error: KeepError) -> RunFault {
    match error {
        KeepError::Disk if is_disk_full(rt, path) => RunFault::Store(StoreFault::Full),
        error => RunFault::from(error),
    }
}

/// The keep of a centre's store in the database. A database without tables becomes one, and one of an earlier version is brought to the
/// present one.
pub(crate) fn keep_of(
    rt: &HostRuntime,
    path: &str,
    conn: Connection<FileStore<File>>,
    setup: Setup,
) -> Result<CentreKeep<FileStore<File>>, RunFault> {
    match CentreKeep::migrate_over(rt.alloc(), conn, setup) {
        Ok(keep) => Ok(keep),
        Err((error, conn)) => {
            drop(conn);
            Err(keep_fault(rt, path, error))
        }
    }
}

// The setup of a run whose numbers begin behind so many steps.
fn begins_at(setup: Setup, step: u32) -> Setup {
    let Setup {
        centre,
        start,
        first: _,
        accounts,
    } = setup;
    Setup {
        centre,
        start,
        first: first_number(step),
        accounts,
    }
}

fn keep_in(
    rt: &HostRuntime,
    path: &str,
    files: Files<File>,
    setup: Setup,
) -> Result<CentreKeep<FileStore<File>>, RunFault> {
    let conn = connect(rt, path, files)?;
    keep_of(rt, path, conn, setup)
}

// A database that is refused stays as it is, and so does its mark.
fn open_keep(
    rt: &HostRuntime,
    run: &ServerRun<'_>,
    paths: &StorePaths,
    setup: Setup,
) -> Result<(CentreKeep<FileStore<File>>, Begun), RunFault> {
    let path = paths.file.as_str();
    let files = open_judged(rt, paths, run.begins_anew, setup.start)?;
    let (files, begun) = ready(rt, run, paths, files, setup.start)?;
    match keep_in(rt, path, files, begins_at(setup, begun.step)) {
        Ok(keep) => Ok((keep, begun)),
        Err(fault) => {
            put_back(rt, path, &begun);
            Err(fault)
        }
    }
}

fn look(rt: &HostRuntime, paths: &StorePaths) -> Result<FilesLook, RunFault> {
    look_at(rt, paths).map_err(|error| io_fault(rt, paths.file.as_str(), &error))
}

// The files that were opened since that look.
fn opened_since(
    rt: &HostRuntime,
    paths: &StorePaths,
    before: &FilesLook,
) -> Result<OpenedFiles, RunFault> {
    let after = look(rt, paths)?;
    opened_of(before, &after).ok_or(RunFault::Store(StoreFault::Replaced))
}

/// Opens the store of the run, or makes it where there is none. A log whose database is missing or empty is refused, unless the words
/// allow a new store. Both files have to be the same ones before and after.
pub fn open_store(
    rt: &HostRuntime,
    run: &ServerRun<'_>,
    setup: Setup,
) -> Result<(CentreKeep<FileStore<File>>, FoundStore), RunFault> {
    let paths = StorePaths::of(rt, run.store)?;
    let files = files_at(rt, &paths);
    let before = look(rt, &paths)?;
    let (keep, begun) = open_keep(rt, run, &paths, setup)?;
    match opened_since(rt, &paths, &before) {
        Ok(opened) => Ok((
            keep,
            FoundStore {
                paths,
                files,
                opened,
                begun,
            },
        )),
        Err(fault) => {
            drop(keep);
            Err(fault)
        }
    }
}
