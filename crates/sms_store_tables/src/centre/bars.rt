//! The references that stay barred once their messages are forgotten.
ghost use Rattle.std.specs.Prelude.{refl};
ghost use Rattle.sms_store_tables.specs.centre.BarList.{bar_is_list, bar_list};

use crate::centre::kind::CentreStore;
use crate::fields;
use crate::key::place_value;
use sms_centre_rows::messages::BarRow;
use sms_store_sql::listing::{
    Counted, StoredRow, address_at, flag_at, handset_at, handset_text, number_at, run_counted,
    short_at, text_of,
};
use sms_store_sql::schema::StoredTable;
use sms_store_sql::table;
use sqlite::{Alter, Error, Row, Transaction, params};
use std::alloc::Global;

impl StoredRow<CentreStore> for BarRow {
    ghost list = { bar_list };

    fn table() -> StoredTable {
        table!(bar in 15, key place,
            place INTEGER NOT NULL, source_ton INTEGER NOT NULL, source_npi INTEGER NOT NULL,
            source TEXT NOT NULL, handset TEXT NOT NULL, reference INTEGER NOT NULL,
            is_own INTEGER NOT NULL,
        )
    }

    fn write<S: Alter>(&self, alloc: Global, tx: &mut Transaction<'_, S>, text: &str) -> Counted {
        let place = place_value(self.place)?;
        let source = text_of(alloc, self.source.digits.as_few())?;
        let handset = handset_text(alloc, &self.handset)?;
        run_counted(
            tx,
            text,
            params![
                &place,
                u32::from(self.source.ton.number()),
                u32::from(self.source.npi),
                &source,
                &handset,
                u32::from(self.reference),
                self.is_own
            ],
        )
    }

    // A bar is put once.
    fn is_first(&self) -> bool {
        true
    }

    fn read(_alloc: Global, row: &Row) -> Result<BarRow, Error> {
        fields!(BarRow in row,
            place: number_at(0), source: address_at(1), handset: handset_at(4),
            reference: short_at(5), is_own: flag_at(6),
        )
    }

    ghost one_key = { λ x. refl };

    ghost is_list = { bar_is_list };
}
