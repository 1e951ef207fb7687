//! Bodies of a store: one query each.
ghost use Rattle.std.specs.Prelude.{◌≡◌, ◌==◌, ◌%◌, false, true, Err};
ghost use Rattle.sms_rows.specs.declared.keep.error.KeepError.TheVariants.{Closed};
ghost use Rattle.sms_rows.specs.keep.StoreOutcome.{IsReadCounted, StoreOutcome, WasHonest};
ghost use Rattle.sms_centre_spec.specs.bodies.Storing.{IfClosed};
ghost use Rattle.sms_centre_spec.specs.octets.OctetsAt.{kind_octets, octets_at, part_octets, report_octets};
ghost use Rattle.sms_store_tables.specs.centre.CentreSchema.{centre_schema};
ghost use Rattle.sms_store_sql.specs.listing.Finding.{first_of};
ghost use Rattle.sms_store.specs.centre.Reading.{FindsPart, FindsReports, HasParts, HasReports};
ghost use Rattle.sms_store.specs.centre.Types.{Rows as RowsOf};
ghost use Rattle.sms_store.specs.centre.CentreRows.{centre_stores};
ghost use Rattle.sms_store.specs.keeping.InKeep.{IsClosed, refusals_in, setup_in, state_of};

use crate::centre::CentreKeep;
use sms_base::Octets;
use sms_centre_rows::messages::PartRow;
use sms_centre_rows::reports::{ReportKind, ReportRow};
use sms_rows::keep::{BodyKeep, KeepError};
use sms_rows::table::Key;
use sms_store_sql::listing::{InTransaction, Lookup, find, look_or_close, seek};
use sms_store_tables::centre::CentreStore;
use sqlite::{Alter, Error, Transaction};
use std::alloc::Global;

/// The part of a key.
#[derive(Drop)]
struct PartAt {
    key: Key,
}

impl Lookup for PartAt {
    type Found = Option<PartRow>;

    ghost schema = { λ lookup. centre_schema };

    ghost has = { λ lookup db. HasParts db };

    ghost finds = { λ lookup db found. FindsPart lookup.key db found };

    fn read<S: Alter>(
        &self,
        alloc: Global,
        tx: &mut Transaction<'_, S>,
    ) -> Result<Option<PartRow>, Error> {
        find::<CentreStore, PartRow, S>(alloc, tx, self.key)
    }
}

/// The reports of a message.
#[derive(Drop)]
struct ReportsOf {
    id: u128,
}

impl Lookup for ReportsOf {
    type Found = Vec<ReportRow>;

    ghost schema = { λ lookup. centre_schema };

    ghost has = { λ lookup db. HasReports db };

    ghost finds = { λ lookup db found. FindsReports lookup.id db found.items };

    fn read<S: Alter>(
        &self,
        alloc: Global,
        tx: &mut Transaction<'_, S>,
    ) -> Result<Vec<ReportRow>, Error> {
        seek::<CentreStore, ReportRow, S>(alloc, tx, self.id)
    }
}

fn octets_of_part(part: Option<PartRow>) -> Option<Octets>
    ensures { result ≡ part_octets part }
{
    match part {
        Some(part) => Some(part.tpdu),
        None => None,
    }
}

fn octets_of_kind(kind: ReportKind) -> Option<Octets>
    ensures { result ≡ kind_octets kind }
{
    match kind {
        ReportKind::Status { tpdu, .. } => Some(tpdu),
        ReportKind::Receipt | ReportKind::Unsent => None,
    }
}

fn octets_of_first(reports: Vec<ReportRow>) -> Option<Octets>
    ensures { result ≡ report_octets (first_of reports.items) }
{
    match reports.into_iter().next() {
        Some(report) => octets_of_kind(report.kind),
        None => None,
    }
}

impl<S: Alter> CentreKeep<S> {
    fn part_octets(&mut self, key: Key) -> Result<Option<Octets>, KeepError>
        ensures outcome { (rows : RowsOf) → StoreOutcome (λ octets. (key % 256 == 0) ≡ false → octets ≡ octets_at rows key) rows rows
            (state_of centre_stores S.Store self.old) (state_of centre_stores S.Store self.new) result }
        ensures closed { IfClosed (state_of centre_stores S.Store self.old) (state_of centre_stores S.Store self.new) (result ≡ Err Closed) }
        ensures shut { result ≡ Err Closed → IsClosed S.Store self.new }
        ensures before { WasHonest (state_of centre_stores S.Store self.old) (state_of centre_stores S.Store self.new) }
        ensures setup { setup_in self.new ≡ setup_in self.old }
        ensures same { refusals_in self.new ≡ refusals_in self.old }
    {
        let lookup = PartAt { key };
        let wanted = InTransaction { lookup: &lookup };
        match look_or_close(self.alloc, &mut self.conn, &mut self.health, &wanted) {
            Ok(part) => Ok(octets_of_part(part)),
            Err(error) => Err(error),
        }
    }

    fn report_octets(&mut self, key: Key) -> Result<Option<Octets>, KeepError>
        ensures outcome { (rows : RowsOf) → StoreOutcome (λ octets. (key % 256 == 0) ≡ true → octets ≡ octets_at rows key) rows rows
            (state_of centre_stores S.Store self.old) (state_of centre_stores S.Store self.new) result }
        ensures closed { IfClosed (state_of centre_stores S.Store self.old) (state_of centre_stores S.Store self.new) (result ≡ Err Closed) }
        ensures shut { result ≡ Err Closed → IsClosed S.Store self.new }
        ensures before { WasHonest (state_of centre_stores S.Store self.old) (state_of centre_stores S.Store self.new) }
        ensures setup { setup_in self.new ≡ setup_in self.old }
        ensures same { refusals_in self.new ≡ refusals_in self.old }
    {
        let lookup = ReportsOf {
            id: key.number() / 256,
        };
        let wanted = InTransaction { lookup: &lookup };
        match look_or_close(self.alloc, &mut self.conn, &mut self.health, &wanted) {
            Ok(reports) => Ok(octets_of_first(reports)),
            Err(error) => Err(error),
        }
    }

    fn octets_under(&mut self, key: Key) -> Result<Option<Octets>, KeepError>
        ensures outcome { (rows : RowsOf)
            → StoreOutcome (λ octets. octets ≡ octets_at rows key) rows rows (state_of centre_stores S.Store self.old)
            (state_of centre_stores S.Store self.new) result }
        ensures closed { IfClosed (state_of centre_stores S.Store self.old) (state_of centre_stores S.Store self.new) (result ≡ Err Closed) }
        ensures shut { result ≡ Err Closed → IsClosed S.Store self.new }
        ensures before { WasHonest (state_of centre_stores S.Store self.old) (state_of centre_stores S.Store self.new) }
        ensures setup { setup_in self.new ≡ setup_in self.old }
        ensures same { refusals_in self.new ≡ refusals_in self.old }
    {
        if key.number() % 256 == 0 {
            self.report_octets(key)
        } else {
            self.part_octets(key)
        }
    }
}

impl<S: Alter> BodyKeep for CentreKeep<S> {
    ghost body_of = { octets_at };

    fn body(&mut self, key: Key) -> Result<Option<Octets>, KeepError>
        ensures outcome { (rows : RowsOf)
            → StoreOutcome (λ octets. octets ≡ octets_at rows key) rows rows (state_of centre_stores S.Store self.old)
            (state_of centre_stores S.Store self.new) result }
        ensures closed { IfClosed (state_of centre_stores S.Store self.old) (state_of centre_stores S.Store self.new) (result ≡ Err Closed) }
        ensures shut { result ≡ Err Closed → IsClosed S.Store self.new }
        ensures before { WasHonest (state_of centre_stores S.Store self.old) (state_of centre_stores S.Store self.new) }
        ensures counted { IsReadCounted key (state_of centre_stores S.Store self.old) (state_of centre_stores S.Store self.new) result }
    {
        match self.octets_under(key) {
            Ok(octets) => {
                self.refusals.answer();
                Ok(octets)
            }
            Err(error) => {
                self.refusals.read(key);
                Err(error)
            }
        }
    }
}
