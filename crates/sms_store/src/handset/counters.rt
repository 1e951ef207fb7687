//! What a handset counts.
ghost use Rattle.std.specs.Prelude.{refl};
ghost use Rattle.sms_store.specs.handset.CountersKey.{counters_key};
ghost use Rattle.sms_store.specs.handset.CountersList.{count_is_list, count_list};

use sms_handset::Counters;
use sms_rows::table::{Key, Row as Keyed};
use sms_store_sql::listing::{
    Counted, StoredRow, flag_at, octet_at, run_counted, short_at, word_at,
};
use sms_store_sql::schema::StoredTable;
use sms_store_tables::handset::{HandsetStore, counters_table};
use sqlite::{Alter, Error, Row, Transaction, params};
use std::alloc::Global;

/// The counters as the one row of a list, at place 1.
#[derive(Clone, Copy, PartialEq, Eq)]
pub struct CountersRow {
    pub counters: Counters,
}

impl Keyed for CountersRow {
    ghost key = { counters_key };

    fn key(&self) -> Key {
        Key::of(1)
    }
}

impl StoredRow<HandsetStore> for CountersRow {
    ghost list = { count_list };

    fn table() -> StoredTable {
        counters_table()
    }

    fn write<S: Alter>(&self, _alloc: Global, tx: &mut Transaction<'_, S>, text: &str) -> Counted {
        let counters = &self.counters;
        run_counted(
            tx,
            text,
            params![
                1u32,
                counters.entry,
                u32::from(counters.message_reference),
                u32::from(counters.reference),
                u32::from(counters.concat_reference),
                counters.notice,
                counters.is_memory_full
            ],
        )
    }

    fn read(_alloc: Global, row: &Row) -> Result<CountersRow, Error> {
        let entry = word_at(row, 1)?;
        let message_reference = octet_at(row, 2)?;
        let reference = octet_at(row, 3)?;
        let concat_reference = short_at(row, 4)?;
        let notice = word_at(row, 5)?;
        let is_memory_full = flag_at(row, 6)?;
        Ok(CountersRow {
            counters: Counters {
                entry,
                message_reference,
                reference,
                concat_reference,
                notice,
                is_memory_full,
            },
        })
    }

    ghost one_key = { λ x. refl };

    ghost is_list = { count_is_list };
}
