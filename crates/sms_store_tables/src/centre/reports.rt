//! Receipts and status reports.
ghost use Rattle.std.specs.Prelude.{refl};
ghost use Rattle.sms_store_tables.specs.centre.Pieces.{progress_columns};
ghost use Rattle.sms_store_tables.specs.centre.ReportList.{amend_report, find_report, message_tests, report_amended, report_amends, report_is_found};
ghost use Rattle.sms_store_tables.specs.centre.ReportList.{report_is_list, report_is_sought, report_list, report_message, seek_report};
ghost use Rattle.sms_centre_rows.specs.reports.Reports.{report_reaching};

use crate::amending::AmendedRow;
use crate::centre::kind::CentreStore;
use crate::centre::pieces::{
    id_at, kind_reference, kind_tpdu, kind_word, progress_at, report_kind_at,
};
use crate::fields;
use crate::key::{id_value, moment_value, place_value};
use sms_centre_rows::reports::ReportRow;
use sms_centre_rows::waiting::Progress;
use sms_rows::table::Key;
use sms_store_sql::listing::{
    Counted, FoundRow, SoughtRow, StoredRow, integer, integer_of, moment_at, number_at, query, run,
    run_counted,
};
use sms_store_sql::schema::StoredTable;
use sms_store_sql::table;
use sqlite::{Alter, Error, Row, Transaction, params};
use std::alloc::Global;

impl StoredRow<CentreStore> for ReportRow {
    ghost list = { report_list };

    fn table() -> StoredTable {
        table!(report in 10, key place,
            place INTEGER NOT NULL, message INTEGER NOT NULL, kind TEXT NOT NULL, reference INTEGER,
            tpdu BLOB, made INTEGER NOT NULL, is_done INTEGER NOT NULL, attempts INTEGER NOT NULL,
            due INTEGER NOT NULL,
        )
    }

    fn write<S: Alter>(&self, _alloc: Global, tx: &mut Transaction<'_, S>, text: &str) -> Counted {
        let place = place_value(self.place)?;
        let id = id_value(self.id)?;
        let made = moment_value(self.made)?;
        let due = moment_value(self.progress.due)?;
        run_counted(
            tx,
            text,
            params![
                &place,
                &id,
                kind_word(&self.kind),
                kind_reference(&self.kind),
                kind_tpdu(&self.kind),
                &made,
                self.progress.is_done,
                u32::from(self.progress.attempts),
                &due
            ],
        )
    }

    fn read(_alloc: Global, row: &Row) -> Result<ReportRow, Error> {
        fields!(ReportRow in row,
            place: number_at(0), id: id_at(1), kind: report_kind_at(2), made: moment_at(5),
            progress: progress_at(6),
        )
    }

    ghost one_key = { λ x. refl };

    ghost is_list = { report_is_list };
}

impl FoundRow<CentreStore> for ReportRow {
    ghost find = { find_report };

    fn query<S: Alter>(tx: &mut Transaction<'_, S>, key: Key) -> Result<Vec<Row>, Error> {
        let place = integer_of(key)?;
        query(
            tx,
            "SELECT place, message, kind, reference, tpdu, made, is_done, attempts, due FROM report WHERE place = ?1",
            params![&place],
        )
    }

    ghost is_found = { report_is_found };
}

impl SoughtRow<CentreStore> for ReportRow {
    ghost mark = { report_message };

    ghost sought = { seek_report };

    ghost tests = { message_tests };

    fn query_mark<S: Alter>(tx: &mut Transaction<'_, S>, number: u128) -> Result<Vec<Row>, Error> {
        let message = integer(number)?;
        query(
            tx,
            "SELECT place, message, kind, reference, tpdu, made, is_done, attempts, due FROM report WHERE message = ?1",
            params![&message],
        )
    }

    ghost is_sought = { report_is_sought };
}

impl AmendedRow<CentreStore> for ReportRow {
    ghost reaching = { report_reaching };

    ghost progress_columns = { progress_columns };

    ghost amendment = { amend_report };

    ghost amended_columns = { report_amended };

    fn update<S: Alter>(
        tx: &mut Transaction<'_, S>,
        key: Key,
        progress: Progress,
    ) -> Result<(), Error> {
        let place = integer_of(key)?;
        let due = moment_value(progress.due)?;
        run(
            tx,
            "UPDATE report SET is_done = ?2, attempts = ?3, due = ?4 WHERE place = ?1",
            params![&place, progress.is_done, u32::from(progress.attempts), &due],
        )
    }

    ghost amends = { report_amends };
}
