//! What a log says.
ghost use Rattle.std.specs.Prelude.{◌≡◌, ◌≤◌, ◌↔◌, IfOk, IsTrue, length};
ghost use Rattle.sqlite_wal.specs.Format.{IsSigned, stored_sum};
ghost use Rattle.sqlite_wal.specs.Recovery.{header};
ghost use Rattle.sms_store_files.specs.Frames.{behind};
ghost use Rattle.sms_store_files.specs.Judging.{IsEmptying, IsFound, IsShort, IsUnsignedFinding, are_of_two_commits, found_by, has_one_behind_an_end};
ghost use Rattle.sms_store_files.specs.Judging.{has_one_that_begins};

use crate::frames::{OwnFrame, number_at, own_behind};
use sqlite_wal::checksum_of;
use std::alloc::{AllocError, Global};

// The octets of a log's head, and the least of a log with a frame.
const HEAD: usize = 32;

const LEAST: usize = 56;

// The page number of a frame with which a commit begins.
const COUNT_PAGE: u32 = 0xff00_0000;

/// What a log says.
#[derive(Clone, Copy, PartialEq, Eq)]
pub enum LogFinding {
    /// There is none, or no more than a part of its head.
    Missing,
    /// The log has a head, and no frame counts.
    Emptied,
    /// A write-back into the database was under way, which has all.
    Emptying,
    /// The head of the log is none that was written.
    Unsigned,
    /// The log has whole commits, and nothing behind them.
    Whole,
    /// Behind its whole commits, if it has some, lie frames of one further commit.
    Torn,
    /// Behind its whole commits, if it has some, lie frames of two further commits or more.
    Damaged,
}

/// What a log says, and by how many frames.
#[derive(Clone, Copy)]
pub struct LogJudgement {
    pub finding: LogFinding,
    /// So many frames a start takes: those up to the last whole commit.
    pub taken: usize,
    /// So many frames of the log's own lie behind those.
    pub behind: usize,
}

// Whether a write-back was under way.
fn is_emptying(log: &[u8]) -> bool
    requires { 32 ≤ length log.now }
    ensures { IsTrue result ↔ IsEmptying log.now }
{
    number_at(log, 0) == 0x7f_0682 && number_at(log, 4) == 3_007_000 && number_at(log, 8) == 4096
}

// The sum that a head ends in.
fn stored_sum(head: &[u8]) -> (u32, u32)
    requires { 32 ≤ length head.now }
    ensures { result ≡ stored_sum head.now 24 }
{
    (number_at(head, 24), number_at(head, 28))
}

// Whether a head is signed.
fn is_signed_head(head: &[u8]) -> bool
    requires { 32 ≤ length head.now }
    ensures { IsTrue result ↔ IsSigned head.now }
{
    if head[0] != 0x37 || head[1] != 0x7f || head[2] != 0x06 {
        return false;
    }
    if head[3] != 0x82 && head[3] != 0x83 {
        return false;
    }
    checksum_of(head[3] == 0x83, (0, 0), &head[..24]) == stored_sum(head)
}

// Whether the first octets are those of a head that is signed.
fn is_signed(log: &[u8]) -> bool
    requires { 32 ≤ length log.now }
    ensures { IsTrue result ↔ IsSigned (header log.now) }
{
    is_signed_head(&log[..HEAD])
}

// Whether one of the frames lies behind one that ends a commit.
fn has_one_behind_an_end(own: &[OwnFrame]) -> bool
    ensures { result ≡ has_one_behind_an_end own.now }
{
    let mut has_end = false;
    for frame in own {
        if has_end {
            return true;
        }
        has_end = frame.pages != 0;
    }
    false
}

// Whether one of the frames begins a commit, and is not the first behind those that are taken.
fn has_one_that_begins(own: &[OwnFrame], taken: usize) -> bool
    ensures { result ≡ has_one_that_begins taken own.now }
{
    for frame in own {
        if frame.page == COUNT_PAGE && frame.place > taken {
            return true;
        }
    }
    false
}

// Whether the frames are of two commits.
fn are_of_two_commits(own: &[OwnFrame], taken: usize) -> bool
    ensures { result ≡ are_of_two_commits taken own.now }
{
    has_one_behind_an_end(own) || has_one_that_begins(own, taken)
}

// What a log with a signed head says.
fn found_by(own: &[OwnFrame], taken: usize) -> LogFinding
    ensures { result ≡ found_by taken own.now }
{
    if are_of_two_commits(own, taken) {
        LogFinding::Damaged
    } else if !own.is_empty() {
        LogFinding::Torn
    } else if taken == 0 {
        LogFinding::Emptied
    } else {
        LogFinding::Whole
    }
}

// What a log without a signed head says.
fn unsigned_finding(log: &[u8]) -> LogFinding
    requires { 32 ≤ length log.now }
    ensures { IsUnsignedFinding log.now result }
{
    if is_emptying(log) {
        LogFinding::Emptying
    } else if log.len() < LEAST {
        LogFinding::Missing
    } else {
        LogFinding::Unsigned
    }
}

fn without_frames(finding: LogFinding, taken: usize) -> LogJudgement
    ensures { (result.finding ≡ finding) × (result.taken ≡ taken) }
{
    LogJudgement {
        finding,
        taken,
        behind: 0,
    }
}

/// What a log says, of which a start takes so many frames. It needs no whole frame behind those.
///
/// # Errors
/// There was no memory.
pub fn judge(alloc: Global, log: &[u8], taken: usize) -> Result<LogJudgement, AllocError>
    ensures finding { IfOk result (λ judgement. IsFound log.now taken judgement.finding) }
    ensures taken { IfOk result (λ judgement. judgement.taken ≡ taken) }
    ensures behind { IfOk result (λ judgement. 32 ≤ length log.now → IsSigned (header log.now) → judgement.behind ≡ length (behind log.now taken)) }
{
    if log.len() < HEAD {
        return Ok(without_frames(LogFinding::Missing, taken));
    }
    if !is_signed(log) {
        return Ok(without_frames(unsigned_finding(log), taken));
    }
    let own = own_behind(alloc, log, taken)?;
    Ok(LogJudgement {
        finding: found_by(own.as_slice(), taken),
        taken,
        behind: own.len(),
    })
}
