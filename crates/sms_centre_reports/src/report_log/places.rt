//! Where the report of each message stands.
ghost use Rattle.std.specs.Prelude.{◌≡◌, ◌+◌, ◌<◌, ◌≤◌, [], true, Some, None, map, IfOk, IsOk, OnOk};
ghost use Rattle.sms_centre_reports.specs.report_log.Places.{AreFound, HasTaken, HoldsMore, IsUnder, TookPlaces, message_there, messages_at, place_under};
ghost use Rattle.sms_centre_reports.specs.report_log.ReportLog.{made_key};
ghost use Rattle.sms_centre_rows.specs.reports.Reports.{report_key};
ghost use Rattle.sms_centre_rows.specs.waiting.Revisions.{revision_key};
ghost use Rattle.sms_rows.specs.table.Table.{row_at};

use crate::report_log::log::LoggedReport;
use indexmap::IndexMap;
use sms_base::MessageId;
use sms_centre_rows::reports::ReportRow;
use sms_centre_rows::waiting::Revision;
use sms_rows::table::{Key, RollingTable, Row};
use std::alloc::{AllocError, Global};
use std::marker::Model;

/// Places of reports under their messages. The time of a look, a put and a removal does not grow with their number.
#[derive(Drop)]
pub(crate) struct Places {
    map: IndexMap<u64, u64>,
}

impl Model for Places {
    ghost use Rattle.indexmap.specs.IndexMap.{spare};
    ghost use Rattle.sms_centre_reports.specs.report_log.Places.{PlacesOf};

    ghost Value = { PlacesOf };

    ghost view = { λ p. record { entries = p.map.entries; room = spare p.map } };
}

/// Memory for places that no log uses yet, seen by contracts as how many it holds.
#[derive(Drop)]
pub(crate) struct PlacesReserve {
    map: IndexMap<u64, u64>,
}

impl Model for PlacesReserve {
    ghost use Rattle.std.specs.Prelude.{◌≡◌, ℕ, []};
    ghost use Rattle.indexmap.specs.IndexMap.{spare};

    ghost Value = { ℕ };

    ghost view = { λ s. spare s.map };

    ghost invariant = { λ s. s.map.entries ≡ [] };
}

impl Places {
    pub(crate) fn new(alloc: Global) -> Places
        ensures { result.entries ≡ [] }
    {
        Places {
            map: IndexMap::new(alloc),
        }
    }

    // The place under the message, if there is one.
    pub(crate) fn of(&self, id: MessageId) -> Option<u64>
        ensures { result ≡ place_under id self.now }
    {
        match self.map.get(&id.number()) {
            Some(place) => Some(*place),
            None => None,
        }
    }

    // Puts the place under the message. Whether none was there.
    pub(crate) fn put(&mut self, id: MessageId, place: u64) -> Result<bool, AllocError>
        ensures new { IfOk result (λ is_new. is_new ≡ true → place_under id self.old ≡ None) }
        ensures put { OnOk result (IsUnder id (Some place) self.old self.new) }
        ensures room { OnOk result (self.old.room ≤ self.new.room + 1) }
        ensures ready { 0 < self.old.room → IsOk result }
    {
        let old = self.map.insert(id.number(), place)?;
        Ok(old.is_none())
    }

    // Puts the place where there is room, without taking memory. Whether none was there.
    pub(crate) fn put_ready(&mut self, id: MessageId, place: u64) -> bool
        requires { 0 < self.old.room }
        ensures new { result ≡ true → place_under id self.old ≡ None }
        ensures put { IsUnder id (Some place) self.old self.new }
        ensures room { self.old.room ≤ self.new.room + 1 }
    {
        match self.put(id, place) {
            Ok(is_new) => is_new,
            Err(_) => false,
        }
    }

    // Nothing is under the message any more.
    pub(crate) fn take(&mut self, id: MessageId)
        ensures taken { IsUnder id None self.old self.new }
        ensures room { self.old.room ≤ self.new.room }
    {
        self.map.swap_remove(&id.number());
    }

    // The place of the report at the key goes, if there is one.
    fn take_at(&mut self, reports: &RollingTable<LoggedReport>, place: Key)
        ensures { HasTaken (message_there (row_at made_key place reports.now.rows)) self.old self.new }
    {
        match reports.find(place) {
            Some(report) => self.take(report.id),
            None => (),
        }
    }

    // The places of the reports at the keys of these changes go.
    pub(crate) fn take_all(
        &mut self,
        reports: &RollingTable<LoggedReport>,
        changes: &[Revision<ReportRow>],
    )
        ensures { HasTaken (messages_at made_key (map (revision_key report_key) changes.now) reports.now.rows) self.old self.new }
    {
        for change in changes {
            self.take_at(reports, change.key());
        }
    }

    // Memory for that many messages more where the own is too small for them, else none.
    pub(crate) fn make_reserve(
        &self,
        alloc: Global,
        extra: usize,
    ) -> Result<PlacesReserve, AllocError>
        ensures { IfOk result (λ reserve. HoldsMore extra reserve self.now) }
    {
        let len = self.map.len();
        if extra <= self.map.capacity() - len {
            let map = IndexMap::new(alloc);
            return Ok(PlacesReserve { map });
        }
        // A map's memory doubles by itself: its sizes go by powers of two.
        let Some(capacity) = len.checked_add(extra) else {
            return Err(AllocError);
        };
        let map = IndexMap::with_capacity(alloc, capacity)?;
        Ok(PlacesReserve { map })
    }

    // Moves the places into the memory where it is larger than the own, without taking memory.
    pub(crate) fn use_reserve(&mut self, reserve: PlacesReserve)
        ensures same { self.new.entries ≡ self.old.entries }
        ensures room { TookPlaces reserve self.old self.new }
    {
        let mut map = reserve.map;
        // The call says that no message is there twice.
        let _len = self.map.len();
        if self.map.capacity() < map.capacity() {
            match map.append(&mut self.map) {
                Ok(()) => self.map = map,
                Err(_) => (),
            }
        }
    }
}

// Whether no two of them are of one message.
fn note_each(reports: &[LoggedReport], places: &mut Places) -> Result<bool, AllocError>
    ensures { places.old.entries ≡ [] → IfOk result (λ is_once. is_once ≡ true → AreFound reports.now places.new) }
{
    let mut is_once = true;
    for report in reports {
        let is_new = places.put(report.id, report.place)?;
        is_once = is_once && is_new;
    }
    Ok(is_once)
}

fn room_for(alloc: Global, messages: usize) -> Result<Places, AllocError>
    ensures { IfOk result (λ places. places.entries ≡ []) }
{
    let map = IndexMap::with_capacity(alloc, messages)?;
    Ok(Places { map })
}

/// The places of the reports, and whether no two of them are of one message.
pub(crate) fn places_of(
    alloc: Global,
    reports: &[LoggedReport],
) -> Result<(Places, bool), AllocError>
    ensures { IfOk result (λ r. r.1 ≡ true → AreFound reports.now r.0) }
{
    let mut places = room_for(alloc, reports.len())?;
    match note_each(reports, &mut places) {
        Ok(is_once) => Ok((places, is_once)),
        Err(error) => {
            drop(places);
            Err(error)
        }
    }
}
