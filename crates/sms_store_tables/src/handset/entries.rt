//! The inbox.
ghost use Rattle.std.specs.Prelude.{◌≡◌, ℕ, List, refl, IfErr, IfOk};
ghost use Rattle.sms_base.specs.declared.address.Address.{Address as AddressOf};
ghost use Rattle.sms_concat.specs.declared.content.Content.{Content as ContentOf};
ghost use Rattle.sms_handset_rows.specs.declared.inbox.entry.Group.{Group as GroupOf};
ghost use Rattle.sms_handset_rows.specs.declared.inbox.entry.Entry.{Entry as EntryOf};
ghost use Rattle.sms_store_sql.specs.listing.Inside.{Counts, Keeps, RanOn, Spares};
ghost use Rattle.sms_store_sql.specs.listing.Reading.{LacksMemory};
ghost use Rattle.sms_store_tables.specs.handset.Types.{Joined, Part, Single};
ghost use Rattle.sms_store_tables.specs.handset.EntryList.{IsStoredMessage, entry_is_list, entry_list, joined_in, message_in, part_in, row_columns};

use crate::handset::group::group_at;
use crate::handset::kind::HandsetStore;
use crate::handset::words::{coding_at, coding_word};
use crate::references::{reference_bits, reference_number};
use sms_base::{Address, Octets};
use sms_concat::Content;
use sms_handset_rows::inbox::{Entry, Group, Message};
use sms_store_sql::listing::{
    Counted, StoredRow, address_at, octet_at, octets_at, run_counted, text_at, text_of, word_at,
};
use sms_store_sql::schema::StoredTable;
use sms_store_sql::table;
use sqlite::{Alter, Error, Row, Transaction, params};
use std::alloc::Global;

impl StoredRow<HandsetStore> for Entry {
    ghost list = { entry_list };

    fn table() -> StoredTable {
        table!(entry in 2, key number,
            number INTEGER NOT NULL, slots INTEGER NOT NULL, kind TEXT NOT NULL, source_ton INTEGER,
            source_npi INTEGER, source TEXT, reference_bits INTEGER, reference INTEGER,
            total INTEGER, part INTEGER, coding TEXT, data_coding_scheme INTEGER,
            octets BLOB NOT NULL,
        )
    }

    fn write<S: Alter>(&self, alloc: Global, tx: &mut Transaction<'_, S>, text: &str) -> Counted {
        match &self.message {
            Message::Single { tpdu } => write_single(self.number, self.slots, tpdu, tx, text),
            Message::Part {
                group,
                number,
                tpdu,
            } => write_part(
                alloc,
                self.number,
                self.slots,
                group,
                *number,
                tpdu,
                tx,
                text,
            ),
            Message::Joined { source, content } => {
                write_joined(alloc, self.number, self.slots, source, content, tx, text)
            }
        }
    }

    fn read(_alloc: Global, row: &Row) -> Result<Entry, Error> {
        let number = word_at(row, 0)?;
        let slots = octet_at(row, 1)?;
        let message = message_at(row)?;
        Ok(Entry {
            number,
            slots,
            message,
        })
    }

    ghost one_key = { λ x. refl };

    ghost is_list = { entry_is_list };
}

fn message_at(row: &Row) -> Result<Message, Error>
    ensures value { IfOk result (λ message. message ≡ message_in row.now) }
    ensures only { (e : EntryOf) → IsStoredMessage e.message → row.now ≡ row_columns e → IfErr result LacksMemory }
{
    let kind = text_at(row, 2)?;
    if kind == "single" {
        let tpdu = octets_at(row, 12)?;
        return Ok(Message::Single { tpdu });
    }
    if kind == "part" {
        return part_at(row);
    }
    if kind == "joined" {
        return joined_at(row);
    }
    Err(Error::Utf8Error(2))
}

fn part_at(row: &Row) -> Result<Message, Error>
    ensures value { IfOk result (λ message. message ≡ part_in row.now) }
    ensures only { (number slots : ℕ) (group : GroupOf) (part : ℕ) (tpdu : List ℕ) → IsStoredMessage (Part group part tpdu)
        → row.now ≡ row_columns (record { number = number; slots = slots; message = Part group part tpdu }) → IfErr result LacksMemory }
{
    let group = group_at(row, 3)?;
    let number = octet_at(row, 9)?;
    let tpdu = octets_at(row, 12)?;
    Ok(Message::Part {
        group,
        number,
        tpdu,
    })
}

fn joined_at(row: &Row) -> Result<Message, Error>
    ensures value { IfOk result (λ message. message ≡ joined_in row.now) }
    ensures only { (number slots : ℕ) (source : AddressOf) (content : ContentOf) → IsStoredMessage (Joined source content)
        → row.now ≡ row_columns (record { number = number; slots = slots; message = Joined source content }) → IfErr result LacksMemory }
{
    let source = address_at(row, 3)?;
    let coding = coding_at(row, 10)?;
    let dcs = octet_at(row, 11)?;
    let units = octets_at(row, 12)?;
    Ok(Message::Joined {
        source,
        content: Content { coding, dcs, units },
    })
}

fn write_single<S: Alter>(
    number: u32,
    slots: u8,
    tpdu: &Octets,
    tx: &mut Transaction<'_, S>,
    text: &str,
) -> Result<usize, Error>
    ensures same_reference { tx.new.conn.ghost_name ≡ tx.old.conn.ghost_name }
    ensures done { Counts S.Store tx.old.conn.now tx.new.conn.now
        (RanOn text.now (row_columns (record { number = number; slots = slots; message = Single tpdu.now }))) result }
    ensures uncommitted { Keeps S.Store tx.old.conn.now tx.new.conn.now }
    ensures survives { Spares S.Store tx.old.conn.now tx.new.conn.now }
{
    let none: Option<u32> = None;
    run_counted(
        tx,
        text,
        params![
            number,
            u32::from(slots),
            "single",
            none,
            none,
            none,
            none,
            none,
            none,
            none,
            none,
            none,
            tpdu.as_slice()
        ],
    )
}

fn write_part<S: Alter>(
    alloc: Global,
    number: u32,
    slots: u8,
    group: &Group,
    part: u8,
    tpdu: &Octets,
    tx: &mut Transaction<'_, S>,
    text: &str,
) -> Result<usize, Error>
    ensures same_reference { tx.new.conn.ghost_name ≡ tx.old.conn.ghost_name }
    ensures done { Counts S.Store tx.old.conn.now tx.new.conn.now
        (RanOn text.now (row_columns (record { number = number; slots = slots; message = Part group.now part tpdu.now }))) result }
    ensures uncommitted { Keeps S.Store tx.old.conn.now tx.new.conn.now }
    ensures survives { Spares S.Store tx.old.conn.now tx.new.conn.now }
    ensures fits { IfOk result (λ _. IsStoredMessage (Part group.now part tpdu.now)) }
{
    let source = text_of(alloc, group.source.digits.as_few())?;
    let none: Option<u32> = None;
    run_counted(
        tx,
        text,
        params![
            number,
            u32::from(slots),
            "part",
            u32::from(group.source.ton.number()),
            u32::from(group.source.npi),
            &source,
            reference_bits(group.reference),
            reference_number(group.reference),
            u32::from(group.total),
            u32::from(part),
            none,
            none,
            tpdu.as_slice()
        ],
    )
}

fn write_joined<S: Alter>(
    alloc: Global,
    number: u32,
    slots: u8,
    source: &Address,
    content: &Content,
    tx: &mut Transaction<'_, S>,
    text: &str,
) -> Result<usize, Error>
    ensures same_reference { tx.new.conn.ghost_name ≡ tx.old.conn.ghost_name }
    ensures done { Counts S.Store tx.old.conn.now tx.new.conn.now
        (RanOn text.now (row_columns (record { number = number; slots = slots; message = Joined source.now content.now }))) result }
    ensures uncommitted { Keeps S.Store tx.old.conn.now tx.new.conn.now }
    ensures survives { Spares S.Store tx.old.conn.now tx.new.conn.now }
    ensures fits { IfOk result (λ _. IsStoredMessage (Joined source.now content.now)) }
{
    let digits = text_of(alloc, source.digits.as_few())?;
    let none: Option<u32> = None;
    run_counted(
        tx,
        text,
        params![
            number,
            u32::from(slots),
            "joined",
            u32::from(source.ton.number()),
            u32::from(source.npi),
            &digits,
            none,
            none,
            none,
            none,
            coding_word(content.coding),
            u32::from(content.dcs),
            content.units.as_slice()
        ],
    )
}
