//! Open reports without their TPDUs.
ghost use Rattle.std.specs.Prelude.{◌≡◌, ◌+◌, IfOk};

use sms_base::{MessageId, Moment};
use sms_centre_rows::waiting::Progress;
use sms_rows::index::Dated;
use sms_rows::table::{Key, Row};
use std::alloc::AllocError;

/// A report that was neither answered nor dropped, without its TPDU, which stays in the store.
#[derive(Clone, Copy, PartialEq, Eq)]
pub struct ReportEntry {
    pub id: MessageId,
    /// The report's place in the order in which reports were made.
    pub place: u64,
    /// The reference of a status report; a receipt has none.
    pub reference: Option<u8>,
    pub made: Moment,
    pub progress: Progress,
}

impl Row for ReportEntry {
    ghost key = { λ e. e.id };

    fn key(&self) -> Key {
        Key::of(self.id.number())
    }
}

impl Dated for ReportEntry {
    ghost moment = { λ e. e.made };

    fn moment(&self) -> Moment {
        self.made
    }
}

/// A status report that waits for its handset, by its place.
#[derive(Clone, Copy, PartialEq, Eq)]
pub struct StatusEntry {
    pub place: u64,
    pub id: MessageId,
    /// The moment at which it is dropped.
    pub until: Moment,
}

impl Row for StatusEntry {
    ghost key = { λ e. e.place };

    fn key(&self) -> Key {
        Key::of(self.place)
    }
}

impl Dated for StatusEntry {
    ghost moment = { λ e. e.until };

    fn moment(&self) -> Moment {
        self.until
    }
}

/// A receipt that waits for its application, by its place.
#[derive(Clone, Copy, PartialEq, Eq)]
pub struct ReceiptEntry {
    pub place: u64,
    pub id: MessageId,
    /// When it is sent next.
    pub due: Moment,
}

impl Row for ReceiptEntry {
    ghost key = { λ e. e.place };

    fn key(&self) -> Key {
        Key::of(self.place)
    }
}

impl ReceiptEntry {
    /// The place behind its own.
    pub fn place_behind(&self) -> Result<u64, AllocError>
        ensures { IfOk result (λ behind. behind ≡ self.now.place + 1) }
    {
        let behind = place_behind(self.place)?;
        Ok(behind)
    }
}

impl StatusEntry {
    /// The place behind its own.
    pub fn place_behind(&self) -> Result<u64, AllocError>
        ensures { IfOk result (λ behind. behind ≡ self.now.place + 1) }
    {
        let behind = place_behind(self.place)?;
        Ok(behind)
    }
}

// The place behind that. More than 2^64 - 1 reports have no memory.
fn place_behind(place: u64) -> Result<u64, AllocError>
    ensures { IfOk result (λ behind. behind ≡ place + 1) }
{
    match place.checked_add(1) {
        Some(behind) => Ok(behind),
        None => Err(AllocError),
    }
}

impl Dated for ReceiptEntry {
    ghost moment = { λ e. e.due };

    fn moment(&self) -> Moment {
        self.due
    }
}
