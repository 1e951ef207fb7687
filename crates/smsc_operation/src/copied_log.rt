//! The log of a copy, which somebody may have written while it was read.
//!
//! The reader can pass a frame before it is written, and come to later ones once they are. Such a hole is closed where the log is read
//! again. Damage stays.
ghost use Rattle.std.specs.Prelude.{◌≡◌, ◌≤◌, ◌+◌, ◌^◌, ◌↔◌, IfNone, IfOk, IfSome, IsTrue, OnErr, length};
ghost use Rattle.sqlite_disk.specs.Memory.{memory_bytes, memory_is_usable};
ghost use Rattle.sqlite_wal.specs.Format.{be32};
ghost use Rattle.sms_store_files.specs.Frames.{start_of};
ghost use Rattle.sms_store_files.specs.Reading.{IsFoundIn};
ghost use Rattle.smsc_operation.specs.Saving.{IsHoleFinding, IsOneLog};

use sms_store_files::{FilesFault, LogFinding, LogJudgement, finding_of, judge};
use sqlite_disk::{Disk, Files, Memory};
use std::alloc::Global;

// The octets of a log's head and of a frame's.
const HEAD: usize = 32;

const FRAME_HEAD: usize = 24;

// Where the head of a log says how long a page is, and where it has its salts.
const PAGE: usize = 8;

const SALT: usize = 16;

const OTHER_SALT: usize = 20;

/// What a second reading of a log says of a hole in the first one.
#[derive(Clone, Copy, PartialEq, Eq)]
pub enum HoleFinding {
    /// The log was begun anew meanwhile.
    OtherLog,
    /// The log has all that the first reading has behind the hole, but for frames of one commit.
    Closed,
    /// The log is damaged.
    Damaged,
}

// A file in memory that holds these octets.
fn file_of(alloc: Global, octets: &[u8]) -> Result<Memory, FilesFault>
    ensures octets { IfOk result (λ file. memory_bytes file ≡ octets.now) }
    ensures usable { IfOk result (λ file. IsTrue (memory_is_usable file)) }
{
    let mut file = Memory::new(alloc);
    if octets.is_empty() {
        return Ok(file);
    }
    match file.write_at(0, octets) {
        Ok(()) => Ok(file),
        Err(_) => Err(FilesFault::NoMemory),
    }
}

/// What a start would say of the log.
///
/// # Errors
/// There was no memory, or a whole commit of the log misses its count.
pub fn judgement_in(alloc: Global, log: &[u8]) -> Result<LogJudgement, FilesFault>
    ensures { IfOk result (λ judgement. IsFoundIn log.now judgement) }
{
    let log = file_of(alloc, log)?;
    let db = Memory::new(alloc);
    let mut files = Files { log, db };
    let found = finding_of(alloc, &mut files);
    drop(files);
    Ok(found?.log)
}

// The number that four octets are, the highest first.
fn number_at(octets: &[u8], at: usize) -> u32
    requires { at + 4 ≤ length octets.now }
    ensures { result ≡ be32 octets.now at }
{
    octets[at] as u32 * 0x100_0000
        + octets[at + 1] as u32 * 0x1_0000
        + octets[at + 2] as u32 * 0x100
        + octets[at + 3] as u32
}

// Whether both readings are of one log.
fn is_one_log(first: &[u8], again: &[u8]) -> bool
    ensures { IsTrue result ↔ IsOneLog first.now again.now }
{
    first.len() >= HEAD
        && again.len() >= HEAD
        && number_at(again, PAGE) == number_at(first, PAGE)
        && number_at(again, SALT) == number_at(first, SALT)
        && number_at(again, OTHER_SALT) == number_at(first, OTHER_SALT)
}

// Where the first frames end.
#[tactic(auto, unfolding(sqlite_wal::specs::Recovery::frames_len))]
fn end_of(log: &[u8], taken: usize) -> Option<usize>
    requires { 32 ≤ length log.now }
    ensures found { IfSome result (λ end. end ≡ start_of log.now taken) }
    ensures none { IfNone result (2 ^ 64 ≤ start_of log.now taken) }
{
    let frames = taken.checked_mul(FRAME_HEAD + number_at(log, PAGE) as usize)?;
    frames.checked_add(HEAD)
}

/// What a second reading of a log says of a hole in the first one. A hole that is closed leaves the whole commits of the second reading alone.
///
/// # Errors
/// There was no memory, or a whole commit of the log misses its count.
pub fn close_hole(
    alloc: Global,
    first: &[u8],
    again: &mut Vec<u8>,
) -> Result<HoleFinding, FilesFault>
    ensures found { IfOk result (λ finding. IsHoleFinding first.now again.old.items again.new.items finding) }
    ensures left { OnErr result (again.new.items ≡ again.old.items) }
{
    if !is_one_log(first, again.as_slice()) {
        return Ok(HoleFinding::OtherLog);
    }
    let taken = judgement_in(alloc, again.as_slice())?.taken;
    if judge(alloc, first, taken)?.finding == LogFinding::Damaged {
        return Ok(HoleFinding::Damaged);
    }
    let Some(end) = end_of(again.as_slice(), taken) else {
        return Err(FilesFault::NoDatabase);
    };
    again.truncate(end);
    Ok(HoleFinding::Closed)
}
