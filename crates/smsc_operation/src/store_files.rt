//! The two files of a store as the system has them.
use crate::run_fault::RunFault;
use sms_store_files::{FileNumber, FilesLook};
use std::alloc::{AllocError, Global};
use std::fs::{self, Metadata, OpenOptions};
use std::io::{self, ErrorKind, Write};
use std::os::unix::fs::{MetadataExt, OpenOptionsExt};

// Its owner alone may read and write a store.
const PRIVATE: u32 = 0o600;

// What a file allows to all others than its owner.
const OTHERS: u32 = 0o077;

// What it allows to every user. A service manager lets its group read a file of passwords.
const EVERYBODY: u32 = 0o007;

// The octets that are written to see whether a disk takes any.
const PROBE: &[u8] = &[0; 8192];

/// The paths of a store's two files.
#[derive(Drop)]
pub struct StorePaths {
    /// The file's, as it was given. A link is followed each time.
    pub file: String,
    /// The log's: beside the file that a link led to as the run began.
    pub log: String,
}

fn owned(alloc: Global, text: &str) -> Result<String, AllocError> {
    let mut all = String::new(alloc);
    all.push_str(text)?;
    Ok(all)
}

fn paths_beside(alloc: Global, path: &str, real: &str) -> Result<StorePaths, RunFault> {
    Ok(StorePaths {
        file: owned(alloc, path)?,
        log: format!(in alloc; "{real}-wal").map_err(|_| RunFault::NoMemory)?,
    })
}

impl StorePaths {
    /// The paths of the store at the path, as whoever opens it finds them.
    pub fn of(rt: &HostRuntime, path: &str) -> Result<StorePaths, RunFault> {
        match fs::canonicalize(rt, path) {
            Ok(real) => paths_beside(rt.alloc(), path, real.as_str()),
            Err(error) if error.kind() == ErrorKind::OutOfMemory => Err(RunFault::NoMemory),
            Err(_) => paths_beside(rt.alloc(), path, path),
        }
    }

    /// A copy of the paths.
    pub fn copy(&self, alloc: Global) -> Result<StorePaths, AllocError> {
        Ok(StorePaths {
            file: owned(alloc, self.file.as_str())?,
            log: owned(alloc, self.log.as_str())?,
        })
    }
}

fn number_of(found: &Metadata) -> FileNumber {
    FileNumber {
        device: found.dev(),
        number: found.ino(),
    }
}

// What the system says of the file at the path: nothing, where none is there. Where it can't look, that is an error.
fn metadata_at(rt: &HostRuntime, path: &str) -> io::Result<Option<Metadata>> {
    match fs::metadata(rt, path) {
        Ok(found) => Ok(Some(found)),
        Err(error) => match error.kind() {
            ErrorKind::NotFound | ErrorKind::NotADirectory => Ok(None),
            _ => Err(error),
        },
    }
}

/// What the system says of both files now.
///
/// # Errors
/// The system could not look, which says nothing of the files: their disk is lost, or cut off, or there was no memory.
pub fn look_at(rt: &HostRuntime, paths: &StorePaths) -> io::Result<FilesLook> {
    let file = metadata_at(rt, paths.file.as_str())?;
    let log = metadata_at(rt, paths.log.as_str())?;
    Ok(FilesLook {
        file: file.as_ref().map(number_of),
        log: log.as_ref().map(number_of),
        log_octets: log.as_ref().map_or(0, Metadata::len),
    })
}

/// The octets of the file at the path; 0 where there is none.
pub fn octets_at(rt: &HostRuntime, path: &str) -> u64 {
    match fs::metadata(rt, path) {
        Ok(found) => found.len(),
        Err(_) => 0,
    }
}

/// Makes the file at the path where it is missing, for its owner alone. The log gets the mode of its file. Where it can't be made, what
/// opens it says why.
pub(crate) fn make_private(rt: &HostRuntime, path: &str) {
    let _ = OpenOptions::new()
        .write(true)
        .create_new(true)
        .mode(PRIVATE)
        .open(rt, path);
}

/// Makes a new file for its owner alone, and waits until the disk has what is written.
pub(crate) fn write_private(rt: &HostRuntime, path: &str, octets: &[u8]) -> io::Result<()> {
    let mut file = OpenOptions::new()
        .write(true)
        .create_new(true)
        .mode(PRIVATE)
        .open(rt, path)?;
    file.write_all(octets)?;
    file.sync_all()
}

fn mode_where(rt: &HostRuntime, path: &str, allows: u32) -> Option<u32> {
    let mode = fs::metadata(rt, path).ok()?.mode() & 0o777;
    if mode & allows == 0 { None } else { Some(mode) }
}

/// The mode of the file at the path, where it allows others than its owner anything.
pub fn open_mode_at(rt: &HostRuntime, path: &str) -> Option<u32> {
    mode_where(rt, path, OTHERS)
}

/// The mode of the file at the path, where it allows every user anything.
pub fn public_mode_at(rt: &HostRuntime, path: &str) -> Option<u32> {
    mode_where(rt, path, EVERYBODY)
}

/// Writes some octets to the disk of the file at the path, and takes them away again.
///
/// # Errors
/// Why the disk took none.
pub fn probe_disk(rt: &HostRuntime, path: &str) -> io::Result<()> {
    let probe = format!(in rt.alloc(); "{path}-probe")?;
    let written = write_private(rt, probe.as_str(), PROBE);
    let _ = fs::remove_file(rt, probe.as_str());
    written
}

/// Whether this error says that a disk, or its owner's part of it, takes no further octets.
pub fn is_full(error: &io::Error) -> bool {
    matches!(
        error.kind(),
        ErrorKind::StorageFull | ErrorKind::QuotaExceeded
    )
}
