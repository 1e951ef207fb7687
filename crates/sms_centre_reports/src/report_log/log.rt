//! The log of reports.
ghost use Rattle.std.specs.Prelude.{◌≡◌, ℕ, ◌+◌, ◌≤◌, List, [], length, map, slice_get, IfOk};
ghost use Rattle.std.specs.Option.{option_map};
ghost use Rattle.sms_centre_reports.specs.report_log.ReportLog.{HasLogRoom, Represents, Suffices, is_of_last as is_of_last_of, made_key, made_report};
ghost use Rattle.sms_centre_rows.specs.reports.Reports.{report_key, report_of, report_reaching};
ghost use Rattle.sms_centre_rows.specs.declared.reports.report.ReportRow.{ReportRow as ReportRowOf};
ghost use Rattle.sms_rows.specs.table.Table.{Rises, put as put_of, without, without_all};
ghost use Rattle.sms_centre_rows.specs.waiting.Revisions.{all_revised, revised, revision_key};

use crate::report_log::places::{Places, PlacesReserve, places_of};
use sms_base::MessageId;
use sms_centre_rows::reports::ReportRow;
use sms_centre_rows::waiting::{Revision, only_remove};
use sms_rows::table::{Key, RollingTable, Row, TableReserve};
use std::alloc::{AllocError, Global};
use std::marker::Model;

/// A report that was made.
#[derive(Clone, Copy, PartialEq, Eq)]
pub struct LoggedReport {
    /// The report's place in the order in which reports were made, from 1.
    pub place: u64,
    /// The message.
    pub id: MessageId,
}

impl Row for LoggedReport {
    ghost key = { made_key };

    fn key(&self) -> Key {
        Key::of(self.place)
    }
}

/// All reports that were made, in the order made, and their places by their messages.
#[derive(Drop)]
pub struct ReportLog {
    reports: RollingTable<LoggedReport>,
    places: Places,
    // No two reports were of one message, as in each centre; else the places tell nothing.
    is_once: bool,
}

impl Model for ReportLog {
    ghost use Rattle.std.specs.Prelude.{◌≡◌, true};
    ghost use Rattle.sms_centre_reports.specs.report_log.Places.{AreFound};
    ghost use Rattle.sms_centre_reports.specs.report_log.ReportLog.{LogInMemory, made_key};
    ghost use Rattle.sms_rows.specs.table.Table.{Rises};

    ghost Value = { LogInMemory };

    ghost view = { λ l. record { reports = l.reports; places = l.places } };

    ghost invariant = { λ l. Rises made_key l.reports.rows × (l.is_once ≡ true → AreFound l.reports.rows l.places) };
}

/// Memory for what an event brings, seen by contracts as how many reports it holds.
#[derive(Drop)]
pub struct ReportLogReserve {
    reports: TableReserve<LoggedReport>,
    places: PlacesReserve,
}

impl Model for ReportLogReserve {
    ghost use Rattle.sms_centre_reports.specs.report_log.ReportLog.{LogReserve};

    ghost Value = { LogReserve };

    ghost view = { λ s. record { reports = s.reports; places = s.places } };
}

impl ReportLog {
    /// No reports.
    pub fn new(alloc: Global) -> ReportLog
        ensures { Represents result [] }
    {
        ReportLog {
            reports: RollingTable::new(alloc),
            places: Places::new(alloc),
            is_once: true,
        }
    }

    /// The log of the reports of rows that are in the order of their places.
    pub fn recover(alloc: Global, rows: &[ReportRow]) -> Result<ReportLog, AllocError>
        requires { Rises report_key rows.now }
        ensures { IfOk result (λ log. Represents log rows.now) }
    {
        let reports = made_reports(alloc, rows)?;
        match places_of(alloc, reports.as_slice()) {
            Ok((places, is_once)) => Ok(ReportLog {
                reports: RollingTable::from_vec(reports),
                places,
                is_once,
            }),
            Err(error) => {
                drop(reports);
                Err(error)
            }
        }
    }

    /// How many reports there are.
    pub fn len(&self) -> usize
        ensures { (rows : List ReportRowOf) → Represents self.now rows → result ≡ length rows }
    {
        self.reports.len()
    }

    /// The message of the report at that place in the order made, from place 0 on.
    pub fn message_at(&self, place: usize) -> Option<MessageId>
        ensures { (rows : List ReportRowOf) → Represents self.now rows → result ≡ option_map (λ r. r.id) (slice_get rows place) }
    {
        match self.reports.get(place) {
            Some(report) => Some(report.id),
            None => None,
        }
    }

    /// The place of the message's report, if one was made. In a log of a centre, where no two reports are of one message, the time
    /// does not grow with the log.
    pub fn place_of(&self, id: MessageId) -> Option<u64>
        ensures { (rows : List ReportRowOf) → Represents self.now rows → result ≡ option_map (λ r. r.place) (report_of id rows) }
    {
        if self.is_once {
            return self.places.of(id);
        }
        self.search(id)
    }

    // The place of the message's report, by a look at all reports.
    fn search(&self, id: MessageId) -> Option<u64>
        ensures { (rows : List ReportRowOf) → Represents self.now rows → result ≡ option_map (λ r. r.place) (report_of id rows) }
    {
        for place in 0..self.reports.len() {
            match self.reports.get(place) {
                Some(report) => {
                    if report.id.number() == id.number() {
                        return Some(report.place);
                    }
                }
                None => (),
            }
        }
        None
    }

    /// Whether the last report is that of the message.
    pub fn is_of_last(&self, id: MessageId) -> bool
        ensures { result ≡ is_of_last_of id self.now.reports.rows }
    {
        match self.reports.last() {
            Some(last) => last.id.number() == id.number(),
            None => false,
        }
    }

    /// Memory for that many changes.
    pub fn make_reserve(
        &self,
        alloc: Global,
        changes: usize,
    ) -> Result<ReportLogReserve, AllocError>
        ensures { IfOk result (λ reserve. Suffices changes self.now reserve) }
    {
        let reports = self.reports.make_reserve(alloc, changes)?;
        let places = self.places.make_reserve(alloc, changes)?;
        Ok(ReportLogReserve { reports, places })
    }

    /// Puts the changes of reports in, without taking memory.
    pub fn adopt(&mut self, reserve: ReportLogReserve, changes: &[Revision<ReportRow>])
        requires { Suffices (length changes.now) self.old reserve }
        ensures { (rows : List ReportRowOf) → Represents self.old rows → Represents self.new (all_revised report_key report_reaching changes.now rows) }
    {
        let ReportLogReserve { reports, places } = reserve;
        self.reports.use_reserve(reports);
        self.places.use_reserve(places);
        self.apply_all(changes);
    }

    // Several removals alone cost what goes, and of what stays what is before it, or one pass.
    fn apply_all(&mut self, changes: &[Revision<ReportRow>])
        requires { HasLogRoom (length changes.now) self.old }
        ensures { (rows : List ReportRowOf) → Represents self.old rows → Represents self.new (all_revised report_key report_reaching changes.now rows) }
    {
        if changes.len() < 2 {
            self.apply_each(changes);
            return;
        }
        if only_remove(changes) {
            self.take_all(changes);
            return;
        }
        self.apply_each(changes);
    }

    fn apply_each(&mut self, changes: &[Revision<ReportRow>])
        requires { HasLogRoom (length changes.now) self.old }
        ensures { (rows : List ReportRowOf) → Represents self.old rows → Represents self.new (all_revised report_key report_reaching changes.now rows) }
    {
        for change in changes {
            self.apply(change);
        }
    }

    // How far a report is isn't here.
    fn apply(&mut self, change: &Revision<ReportRow>)
        requires { HasLogRoom 1 self.old }
        ensures holds { (rows : List ReportRowOf) → Represents self.old rows → Represents self.new (revised report_key report_reaching change.now rows) }
        ensures room { (extra : ℕ) → HasLogRoom (extra + 1) self.old → HasLogRoom extra self.new }
    {
        match change {
            Revision::Put(row) => self.put(made(row)),
            Revision::Amend { .. } => (),
            Revision::Remove(key) => self.take_out(*key),
        }
    }

    // The report takes the place of that of its place.
    fn put(&mut self, report: LoggedReport)
        requires { HasLogRoom 1 self.old }
        ensures reports { self.new.reports.rows ≡ put_of made_key report self.old.reports.rows }
        ensures room { (extra : ℕ) → HasLogRoom (extra + 1) self.old → HasLogRoom extra self.new }
    {
        self.take_out(Key::of(report.place));
        let is_new = self.places.put_ready(report.id, report.place);
        self.is_once = self.is_once && is_new;
        self.reports.put_ready(report);
    }

    // The report at that place goes, if there is one.
    fn take_out(&mut self, place: Key)
        ensures reports { self.new.reports.rows ≡ without made_key place self.old.reports.rows }
        ensures room { (extra : ℕ) → HasLogRoom extra self.old → HasLogRoom extra self.new }
    {
        match self.reports.remove(place) {
            Some(report) => self.places.take(report.id),
            None => (),
        }
    }

    // The reports at the places of these changes go.
    fn take_all(&mut self, changes: &[Revision<ReportRow>])
        ensures { self.new.reports.rows ≡ without_all made_key (map (revision_key report_key) changes.now) self.old.reports.rows }
    {
        self.places.take_all(&self.reports, changes);
        self.reports.remove_all(changes);
    }
}

fn made(row: &ReportRow) -> LoggedReport
    ensures { result ≡ made_report row.now }
{
    LoggedReport {
        place: row.place,
        id: row.id,
    }
}

fn made_reports(alloc: Global, rows: &[ReportRow]) -> Result<Vec<LoggedReport>, AllocError>
    ensures { IfOk result (λ reports. reports.items ≡ map made_report rows.now) }
{
    rows.iter().map(|row| made(row)).collect(alloc)
}
