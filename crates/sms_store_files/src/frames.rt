//! The frames of a log behind its last whole commit.
ghost use Rattle.std.specs.Prelude.{◌≡◌, ◌≤◌, ◌<◌, ◌+◌, ◌++◌, [], ◌∷◌, ℕ, IfNone, IfOk, IfSome, OnOk, false, if◌then◌else◌, length, true};
ghost use Rattle.sqlite_wal.specs.Format.{be32};
ghost use Rattle.sms_store_files.specs.Frames.{behind, frame_count, has_salts, is_own, own_frame, own_frames, start_of};

use std::alloc::{AllocError, Global};

// The octets of a log's head, of a frame's head, and of its part that says what the frame is.
const HEAD: usize = 32;

const FRAME_HEAD: usize = 24;

const FRONT: usize = 16;

/// A frame of the log's own: one with its salts.
#[derive(Clone, Copy)]
pub struct OwnFrame {
    /// So many frames are before it.
    pub place: usize,
    /// The number of its page.
    pub page: u32,
    /// How many pages the database has after it, where it ends a commit, and else 0.
    pub pages: u32,
}

// The number that four octets are, the highest first.
pub(crate) fn number_at(octets: &[u8], at: usize) -> u32
    requires { at + 4 ≤ length octets.now }
    ensures { result ≡ be32 octets.now at }
{
    octets[at] as u32 * 0x100_0000
        + octets[at + 1] as u32 * 0x1_0000
        + octets[at + 2] as u32 * 0x100
        + octets[at + 3] as u32
}

// How long a frame is.
fn frame_size(log: &[u8]) -> usize
    requires { 32 ≤ length log.now }
    ensures { result ≡ 24 + be32 log.now 8 }
{
    FRAME_HEAD + number_at(log, 8) as usize
}

// Where the frame at the place begins, if what says whose it is lies in the log.
#[tactic(auto, unfolding(sqlite_wal::specs::Recovery::frames_len))]
fn start_of(log: &[u8], place: usize) -> Option<usize>
    requires { 32 ≤ length log.now }
    ensures there { IfSome result (λ at. (at ≡ start_of log.now place) × (at + 16 ≤ length log.now)) }
    ensures none { IfNone result (length log.now < start_of log.now place + 16) }
{
    let before = place.checked_mul(frame_size(log))?;
    let end = before.checked_add(HEAD + FRONT)?;
    if end <= log.len() {
        Some(end - FRONT)
    } else {
        None
    }
}

// Whether the frame that begins there has the salts of the log.
fn has_salts(log: &[u8], at: usize) -> bool
    requires { (32 ≤ length log.now) × (at + 16 ≤ length log.now) }
    ensures { (i : ℕ) → at ≡ start_of log.now i → result ≡ has_salts log.now i }
{
    number_at(log, at + 8) == number_at(log, 16) && number_at(log, at + 12) == number_at(log, 20)
}

// The frame at the place, if it is the log's own.
fn own_at(log: &[u8], place: usize) -> Option<OwnFrame>
    requires { 32 ≤ length log.now }
    ensures own { IfSome result (λ frame. (is_own log.now place ≡ true) × (frame ≡ own_frame log.now place)) }
    ensures none { IfNone result (is_own log.now place ≡ false) }
{
    let at = start_of(log, place)?;
    let page = number_at(log, at);
    if page == 0 || !has_salts(log, at) {
        return None;
    }
    let pages = number_at(log, at + 4);
    Some(OwnFrame { place, page, pages })
}

// So many frames begin in the log at most.
fn frame_count(log: &[u8]) -> usize
    requires { 32 ≤ length log.now }
    ensures { result ≡ frame_count log.now }
{
    (log.len() - HEAD) / frame_size(log) + 1
}

// Adds the frame at the place, if it is the log's own.
fn take_own(own: &mut Vec<OwnFrame>, log: &[u8], place: usize) -> Result<(), AllocError>
    requires { 32 ≤ length log.now }
    ensures { OnOk result (own.new.items ≡ own.old.items ++ (if is_own log.now place then own_frame log.now place ∷ [] else [])) }
{
    if let Some(frame) = own_at(log, place) {
        own.push(frame)?;
    }
    Ok(())
}

/// The own frames behind the first ones that a start takes.
#[tactic(auto, using(crate::proofs::OwnFrames::none, crate::proofs::OwnFrames::one_more))]
pub fn own_behind(alloc: Global, log: &[u8], taken: usize) -> Result<Vec<OwnFrame>, AllocError>
    requires { 32 ≤ length log.now }
    ensures { IfOk result (λ own. own.items ≡ behind log.now taken) }
{
    let mut own = Vec::new(alloc);
    let count = frame_count(log).saturating_sub(taken);
    for n in 0..count {
        take_own(&mut own, log, taken + n)?;
    }
    Ok(own)
}
