//! The outbox.
ghost use Rattle.std.specs.Prelude.{◌≡◌, ◌<◌, ◌≤◌, ℕ, List, length, pos, refl, IfErr, IfOk, IfSome};
ghost use Rattle.sqlite.specs.Values.{or_null};
ghost use Rattle.sqlite.specs.declared.types.Value.TheVariants.{Blob, Int};
ghost use Rattle.sqlite_value.specs.Order.{column};
ghost use Rattle.sms_base.specs.TimeStamp.{IsMoment};
ghost use Rattle.sms_store_sql.specs.listing.Columns.{IsOctet, number, octets_in, or_none};
ghost use Rattle.sms_store_sql.specs.listing.Reading.{HasAt, LacksMemory};
ghost use Rattle.sms_store_tables.specs.handset.OutEntryList.{out_is_list, out_list};

use crate::fields;
use crate::handset::kind::HandsetStore;
use crate::handset::words::{state_at, state_word};
use crate::key::seconds_of;
use sms_base::Moment;
use sms_handset_rows::outbox::{OutEntry, SubmitTpdu};
use sms_store_sql::listing::{
    Counted, StoredRow, address_at, flag_at, octet_at, octets_at, optional_moment_at,
    optional_octet_at, run_counted, text_of, word_at,
};
use sms_store_sql::schema::StoredTable;
use sms_store_sql::table;
use sqlite::{Alter, Error, Row, Transaction, params};
use std::alloc::Global;

impl StoredRow<HandsetStore> for OutEntry {
    ghost list = { out_list };

    fn table() -> StoredTable {
        table!(outbox in 6, key number,
            number INTEGER NOT NULL, message_reference INTEGER NOT NULL, reference INTEGER NOT NULL,
            destination_ton INTEGER NOT NULL, destination_npi INTEGER NOT NULL,
            destination TEXT NOT NULL, tpdu BLOB NOT NULL, is_long INTEGER NOT NULL,
            state TEXT NOT NULL, tries INTEGER NOT NULL, rejects_duplicates INTEGER NOT NULL,
            due INTEGER, status INTEGER,
        )
    }

    fn write<S: Alter>(&self, alloc: Global, tx: &mut Transaction<'_, S>, text: &str) -> Counted {
        let destination = text_of(alloc, self.destination.digits.as_few())?;
        run_counted(
            tx,
            text,
            params![
                self.number,
                u32::from(self.message_reference),
                u32::from(self.reference),
                u32::from(self.destination.ton.number()),
                u32::from(self.destination.npi),
                &destination,
                self.tpdu.as_slice(),
                self.is_long,
                state_word(self.state),
                u32::from(self.tries),
                self.rejects_duplicates,
                seconds_of(self.due),
                word_of(self.status)
            ],
        )
    }

    fn read(_alloc: Global, row: &Row) -> Result<OutEntry, Error> {
        fields!(OutEntry in row,
            number: word_at(0), message_reference: octet_at(1), reference: octet_at(2),
            destination: address_at(3), tpdu: submit_at(6), is_long: flag_at(7),
            state: state_at(8), tries: octet_at(9), rejects_duplicates: flag_at(10),
            due: optional_moment_at(11), status: optional_octet_at(12),
        )
    }

    ghost one_key = { λ x. refl };

    ghost is_list = { out_is_list };
}

fn submit_at(row: &Row, at: usize) -> Result<SubmitTpdu, Error>
    ensures value { IfOk result (λ submit. submit ≡ octets_in (column row.now at)) }
    ensures only { (octets : List ℕ) → 0 < length octets → length octets ≤ 200 → HasAt row.now at (Blob octets) → IfErr result LacksMemory }
{
    let octets = octets_at(row, at)?;
    if octets.len() == 0 || octets.len() > 200 {
        return Err(Error::IntegralValueOutOfRange(at));
    }
    Ok(SubmitTpdu::of(octets))
}

fn word_of(octet: Option<u8>) -> Option<u32>
    ensures value { or_null (λ n. Int (pos n)) result ≡ or_none number octet }
    ensures stored { IfSome octet IsOctet }
{
    match octet {
        Some(octet) => Some(u32::from(octet)),
        None => None,
    }
}
