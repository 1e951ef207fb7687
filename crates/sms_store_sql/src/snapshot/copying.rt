//! The files of a database, read while somebody may write them.
use std::fs::{self, File};
use std::io::{self, Read};

// How many octets of a log identify it: its header, whose salts are others each time that the log is begun anew.
const HEAD: usize = 32;

// How often the files are read again where the log was begun anew meanwhile.
const TRIES: u32 = 100;

/// What a database file and its log hold.
#[derive(Drop)]
pub struct DatabaseCopy {
    pub db: Vec<u8>,
    /// Empty where there is no log.
    pub log: Vec<u8>,
}

// The octets of a log; none where it is not there.
fn read_log(rt: &HostRuntime, path: &str) -> io::Result<Vec<u8>> {
    match fs::read(rt, path) {
        Ok(log) => Ok(log),
        Err(error) if error.kind() == io::ErrorKind::NotFound => Ok(Vec::new(rt.alloc())),
        Err(error) => Err(error),
    }
}

// The head of a log, as far as it is written, with zeros behind it.
fn read_head(rt: &HostRuntime, path: &str) -> io::Result<[u8; HEAD]> {
    let mut head = [0; HEAD];
    match File::open(rt, path) {
        Ok(file) => {
            let mut file = file;
            let _count = file.read(&mut head)?;
            Ok(head)
        }
        Err(error) if error.kind() == io::ErrorKind::NotFound => Ok(head),
        Err(error) => Err(error),
    }
}

fn is_head_of(head: &[u8; HEAD], log: &[u8]) -> bool {
    log.starts_with(head) || (log.is_empty() && *head == [0; HEAD])
}

// Reads both files. They are of one moment if the log is the same one before and after: what is written to the database file
// meanwhile is then in the log, and what is added to the log was committed later, whole or not at all.
fn try_copy(rt: &HostRuntime, db: &str, log: &str) -> io::Result<Option<DatabaseCopy>> {
    let before = read_head(rt, log)?;
    let copy = DatabaseCopy {
        db: fs::read(rt, db)?,
        log: read_log(rt, log)?,
    };
    let after = read_head(rt, log)?;
    if before == after && is_head_of(&before, copy.log.as_slice()) {
        Ok(Some(copy))
    } else {
        Ok(None)
    }
}

fn copy_files(rt: &HostRuntime, db: &str, log: &str) -> io::Result<DatabaseCopy> {
    for _ in 0..TRIES {
        if let Some(copy) = try_copy(rt, db, log)? {
            return Ok(copy);
        }
    }
    Err(io::ErrorKind::ResourceBusy.into())
}

/// Copies the database file at the path, and its log, whose name has `-wal` behind it. Nothing is written and nothing
/// locked, so somebody else may have the database open and write it.
pub fn copy_at(rt: &HostRuntime, path: &str) -> io::Result<DatabaseCopy> {
    let real = fs::canonicalize(rt, path)?;
    let log = format!(in rt.alloc(); "{}-wal", real.as_str())?;
    copy_files(rt, real.as_str(), log.as_str())
}
