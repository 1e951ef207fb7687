//! The parts of messages.
ghost use Rattle.std.specs.Prelude.{refl};
ghost use Rattle.sms_store_tables.specs.centre.PartList.{amend_part, find_part, part_amended, part_amends, part_is_found, part_is_list, part_list};
ghost use Rattle.sms_store_tables.specs.centre.Pieces.{progress_columns};
ghost use Rattle.sms_centre_rows.specs.messages.Messages.{part_reaching};

use crate::amending::AmendedRow;
use crate::centre::kind::CentreStore;
use crate::centre::pieces::{
    bits_of, concat_number_of, concat_total_of, id_at, key_at, number_of, progress_at,
};
use crate::fields;
use crate::key::{id_value, moment_value};
use sms_centre_rows::messages::PartRow;
use sms_centre_rows::waiting::Progress;
use sms_rows::table::Key;
use sms_store_sql::listing::{
    Counted, FoundRow, StoredRow, integers_of, octet_at, octets_at, query, run, run_counted,
};
use sms_store_sql::schema::StoredTable;
use sms_store_sql::table;
use sqlite::{Alter, Error, Row, Transaction, params};
use std::alloc::Global;

impl StoredRow<CentreStore> for PartRow {
    ghost list = { part_list };

    fn table() -> StoredTable {
        table!(part in 4, key message number,
            message INTEGER NOT NULL, number INTEGER NOT NULL, reference INTEGER NOT NULL,
            tpdu BLOB NOT NULL, concat_bits INTEGER, concat_reference INTEGER, concat_total INTEGER,
            concat_number INTEGER, is_done INTEGER NOT NULL, attempts INTEGER NOT NULL,
            due INTEGER NOT NULL,
        )
    }

    fn write<S: Alter>(&self, _alloc: Global, tx: &mut Transaction<'_, S>, text: &str) -> Counted {
        let id = id_value(self.id)?;
        let due = moment_value(self.progress.due)?;
        run_counted(
            tx,
            text,
            params![
                &id,
                u32::from(self.number),
                u32::from(self.reference),
                self.tpdu.as_slice(),
                bits_of(self.key),
                number_of(self.key),
                concat_total_of(self.key),
                concat_number_of(self.key),
                self.progress.is_done,
                u32::from(self.progress.attempts),
                &due
            ],
        )
    }

    fn read(_alloc: Global, row: &Row) -> Result<PartRow, Error> {
        fields!(PartRow in row,
            id: id_at(0), number: octet_at(1), reference: octet_at(2), tpdu: octets_at(3),
            key: key_at(4), progress: progress_at(8),
        )
    }

    ghost one_key = { λ x. refl };

    ghost is_list = { part_is_list };
}

impl FoundRow<CentreStore> for PartRow {
    ghost find = { find_part };

    fn query<S: Alter>(tx: &mut Transaction<'_, S>, key: Key) -> Result<Vec<Row>, Error> {
        let pair = integers_of(key)?;
        query(
            tx,
            "SELECT message, number, reference, tpdu, concat_bits, concat_reference, concat_total, concat_number, is_done, attempts, due FROM part WHERE message = ?1 AND number = ?2",
            params![&pair.0, &pair.1],
        )
    }

    ghost is_found = { part_is_found };
}

impl AmendedRow<CentreStore> for PartRow {
    ghost reaching = { part_reaching };

    ghost progress_columns = { progress_columns };

    ghost amendment = { amend_part };

    ghost amended_columns = { part_amended };

    fn update<S: Alter>(
        tx: &mut Transaction<'_, S>,
        key: Key,
        progress: Progress,
    ) -> Result<(), Error> {
        let pair = integers_of(key)?;
        let due = moment_value(progress.due)?;
        run(
            tx,
            "UPDATE part SET is_done = ?3, attempts = ?4, due = ?5 WHERE message = ?1 AND number = ?2",
            params![
                &pair.0,
                &pair.1,
                progress.is_done,
                u32::from(progress.attempts),
                &due
            ],
        )
    }

    ghost amends = { part_amends };
}
