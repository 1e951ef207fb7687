//! A copy of a store, made while a server may have it open.
use crate::copied_log::{HoleFinding, close_hole, judgement_in};
use crate::opening::system_fault;
use crate::preparing::run_fault;
use crate::run_fault::{RunFault, StoreFault};
use crate::store_files::{StorePaths, write_private};
use sms_store_files::{LogFinding, LogJudgement};
use sms_store_sql::snapshot::{DatabaseCopy, copy_at};
use std::{fs, io};

// How often a store is copied whose log was begun anew before it could be read again.
const TRIES: u32 = 3;

// The log first: without the database it is nothing.
fn write_copy(rt: &HostRuntime, to: &str, copy: &DatabaseCopy) -> io::Result<()> {
    if fs::metadata(rt, to).is_ok() {
        return Err(io::Error::from(io::ErrorKind::AlreadyExists));
    }
    if !copy.log.is_empty() {
        let log = format!(in rt.alloc(); "{to}-wal")?;
        write_private(rt, log.as_str(), copy.log.as_slice())?;
    }
    write_private(rt, to, copy.db.as_slice())
}

fn copy_fault(rt: &HostRuntime, path: &str, error: &io::Error) -> RunFault {
    match error.kind() {
        io::ErrorKind::OutOfMemory => RunFault::NoMemory,
        _ => RunFault::Store(system_fault(rt, path)),
    }
}

// The octets of the store's log now.
fn log_at(rt: &HostRuntime, path: &str) -> Result<Vec<u8>, RunFault> {
    let paths = StorePaths::of(rt, path)?;
    fs::read(rt, paths.log.as_str()).map_err(|error| copy_fault(rt, path, &error))
}

// The copy with its log read again, as frames of two commits or more lie behind a hole in it. Nothing, where the log was begun anew.
fn read_again(
    rt: &HostRuntime,
    path: &str,
    copy: DatabaseCopy,
    judgement: LogJudgement,
) -> Result<Option<DatabaseCopy>, RunFault> {
    let DatabaseCopy { db, log } = copy;
    let mut again = log_at(rt, path)?;
    match close_hole(rt.alloc(), log.as_slice(), &mut again).map_err(run_fault)? {
        HoleFinding::OtherLog => Ok(None),
        HoleFinding::Closed => Ok(Some(DatabaseCopy { db, log: again })),
        HoleFinding::Damaged => Err(RunFault::Store(StoreFault::DamagedLog(
            judgement.taken,
            judgement.behind,
        ))),
    }
}

fn try_copy(rt: &HostRuntime, path: &str) -> Result<Option<DatabaseCopy>, RunFault> {
    let copy = copy_at(rt, path).map_err(|error| copy_fault(rt, path, &error))?;
    let judgement = judgement_in(rt.alloc(), copy.log.as_slice()).map_err(run_fault)?;
    match judgement.finding {
        LogFinding::Damaged => read_again(rt, path, copy, judgement),
        _ => Ok(Some(copy)),
    }
}

// A copy of one moment. Its log is as it was read, or has no hole.
fn whole_copy(rt: &HostRuntime, path: &str) -> Result<DatabaseCopy, RunFault> {
    for _ in 0..TRIES {
        if let Some(copy) = try_copy(rt, path)? {
            return Ok(copy);
        }
    }
    let busy = io::Error::from(io::ErrorKind::ResourceBusy);
    Err(copy_fault(rt, path, &busy))
}

/// Writes a copy of the store at the path, of one moment, into a new file and its log. A server may have the store open. A store whose log
/// is damaged is refused.
pub fn save_store(rt: &HostRuntime, path: &str, to: &str) -> Result<(), RunFault> {
    let copy = whole_copy(rt, path)?;
    write_copy(rt, to, &copy).map_err(RunFault::Copy)
}
