//! The two files of a store, read and written under their lock.
ghost use Rattle.std.specs.Prelude.{◌≡◌, ◌≤◌, ◌+◌, IfOk, IsTrue, OnOk, length};
ghost use Rattle.sqlite_wal.specs.Format.{be32};
ghost use Rattle.sqlite_wal.specs.Reads.{IsClean, OnlyReads};
ghost use Rattle.sms_store_files.specs.Reading.{IsFoundIn, IsTaken, mark_in};

use crate::frames::number_at;
use crate::judging::{LogJudgement, judge};
use crate::marking::{Mark, mark_of, number_of};
use sqlite_disk::{Disk, Files, is_no_room};
use sqlite_wal::{Error, Log, PageSize, probe_frames, probe_page_size};
use std::alloc::{AllocError, Global};
use std::io;

// The octets of a log's head.
const HEAD_OF_LOG: usize = 32;

// The octets of a database's head, and where it has the mark and the application.
const HEAD: usize = 100;

pub(crate) const MARK: usize = 60;

pub(crate) const APPLICATION_AT: usize = 68;

// SMSC in ASCII.
pub(crate) const APPLICATION: u32 = 0x534d_5343;

/// Why the files were not read or written.
#[derive(Clone, Copy, PartialEq, Eq)]
pub enum FilesFault {
    /// There was no memory.
    NoMemory,
    /// The disk of the files has no room.
    Full,
    /// The files are no database.
    NoDatabase,
    /// The system refused a call.
    Refused,
}

impl From<AllocError> for FilesFault {
    fn from(_error: AllocError) -> FilesFault {
        FilesFault::NoMemory
    }
}

impl From<io::Error> for FilesFault {
    fn from(error: io::Error) -> FilesFault {
        if is_no_room(&error) {
            FilesFault::Full
        } else {
            FilesFault::Refused
        }
    }
}

impl From<Error> for FilesFault {
    fn from(error: Error) -> FilesFault {
        match error {
            Error::Io(error) => FilesFault::from(error),
            Error::OutOfMemory => FilesFault::NoMemory,
            Error::Corrupt | Error::Exists | Error::NoSuchPage | Error::Full => {
                FilesFault::NoDatabase
            }
            Error::Closed => FilesFault::Refused,
        }
    }
}

/// What both files say before they are taken.
#[derive(Clone, Copy)]
pub struct FilesFinding {
    pub mark: Mark,
    pub log: LogJudgement,
}

/// All octets of a file.
///
/// # Errors
/// The system refused a call, or has refused a sync before. Or there was no memory.
#[tactic(auto, using(crate::proofs::Octets::all_held))]
pub fn octets_of<D: Disk>(alloc: Global, disk: &mut D) -> Result<Vec<u8>, FilesFault>
    ensures octets { IfOk result (λ octets. IsClean D.Disk disk.new → octets.items ≡ D.Disk.seen disk.old) }
    ensures same { OnOk result (OnlyReads D.Disk disk.old disk.new) }
{
    if !disk.may_be_used() {
        return Err(FilesFault::Refused);
    }
    let count = disk.len()?;
    let mut octets = vec![in alloc; 0; count]?;
    disk.read_at(0, octets.as_mut_slice())?;
    Ok(octets)
}

// The mark of a file whose head this is.
fn mark_in(head: &[u8]) -> Mark
    requires { 100 ≤ length head.now }
    ensures { result ≡ mark_in head.now }
{
    if number_at(head, APPLICATION_AT) == APPLICATION {
        mark_of(number_at(head, MARK))
    } else {
        Mark::Unmarked
    }
}

/// The mark that the database file has.
///
/// # Errors
/// The system refused a call, or has refused a sync before.
pub fn mark_at<D: Disk>(disk: &mut D) -> Result<Mark, FilesFault>
    ensures mark { IfOk result (λ mark. IsClean D.Disk disk.new → mark ≡ mark_in (D.Disk.seen disk.old)) }
    ensures same { OnOk result (OnlyReads D.Disk disk.old disk.new) }
{
    if !disk.may_be_used() {
        return Err(FilesFault::Refused);
    }
    if disk.len()? < HEAD {
        return Ok(Mark::Unmarked);
    }
    let mut head = [0; HEAD];
    disk.read_at(0, &mut head)?;
    Ok(mark_in(&head))
}

// How many frames of the log a start takes, where its head names a size of a page.
fn taken_of<D: Disk>(alloc: Global, log: &mut D, octets: &[u8]) -> Result<usize, FilesFault>
    requires usable { IsTrue (D.Disk.is_usable log.old) }
    ensures taken { IfOk result (λ taken. IsClean D.Disk log.new → octets.now ≡ D.Disk.seen log.old → 32 ≤ length octets.now → IsTaken octets.now taken) }
    ensures same { OnlyReads D.Disk log.old log.new }
{
    if octets.len() < HEAD_OF_LOG {
        return Ok(0);
    }
    match PageSize::new(number_at(octets, 8) as usize) {
        Some(size) => Ok(probe_frames(alloc, log, size)?.len()),
        None => Ok(0),
    }
}

// What the log says.
fn judgement_of<D: Disk>(alloc: Global, log: &mut D) -> Result<LogJudgement, FilesFault>
    ensures judgement { IfOk result (λ judgement. IsClean D.Disk log.new → IsFoundIn (D.Disk.seen log.old) judgement) }
    ensures same { OnOk result (OnlyReads D.Disk log.old log.new) }
{
    let octets = octets_of(alloc, log)?;
    let taken = taken_of(alloc, log, octets.as_slice())?;
    Ok(judge(alloc, octets.as_slice(), taken)?)
}

/// How many octets the database file and its log have.
///
/// # Errors
/// The system refused a call, or has refused a sync before.
pub fn lengths_of<D: Disk>(files: &mut Files<D>) -> Result<(usize, usize), FilesFault>
    ensures file { IfOk result (λ r. IsClean D.Disk files.new.db → r.0 ≡ length (D.Disk.seen files.old.db)) }
    ensures log { IfOk result (λ r. IsClean D.Disk files.new.log → r.1 ≡ length (D.Disk.seen files.old.log)) }
{
    if !files.may_be_used() {
        return Err(FilesFault::Refused);
    }
    Ok((files.db.len()?, files.log.len()?))
}

/// What both files say before they are taken. Nothing is written.
///
/// # Errors
/// The system refused to read them, or there was no memory.
pub fn finding_of<D: Disk>(alloc: Global, files: &mut Files<D>) -> Result<FilesFinding, FilesFault>
    ensures mark { IfOk result (λ found. IsClean D.Disk files.new.db → found.mark ≡ mark_in (D.Disk.seen files.old.db)) }
    ensures judgement { IfOk result (λ found. IsClean D.Disk files.new.log → IsFoundIn (D.Disk.seen files.old.log) found.log) }
    ensures log { OnOk result (OnlyReads D.Disk files.old.log files.new.log) }
    ensures db { OnOk result (OnlyReads D.Disk files.old.db files.new.db) }
{
    if !files.may_be_used() {
        return Err(FilesFault::Refused);
    }
    let mark = mark_at(&mut files.db)?;
    let log = judgement_of(alloc, &mut files.log)?;
    Ok(FilesFinding { mark, log })
}
