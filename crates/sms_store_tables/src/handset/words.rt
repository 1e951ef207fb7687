//! Values that are words in the store.
ghost use Rattle.std.specs.Prelude.{◌≡◌, IfErr, IfOk};
ghost use Rattle.sqlite.specs.declared.types.Value.TheVariants.{Text};
ghost use Rattle.sqlite_value.specs.Order.{column};
ghost use Rattle.sms_store_sql.specs.listing.Columns.{text_in};
ghost use Rattle.sms_store_sql.specs.listing.Reading.{HasAt, LacksMemory};
ghost use Rattle.sms_store_tables.specs.handset.Words.{coding_in, coding_word, state_in, state_word};

use crate::named;
use sms_alphabet::Coding;
use sms_handset_rows::outbox::EntryState;
use sms_store_sql::listing::text_at;
use sqlite::{Error, Row};

pub(crate) fn state_word(state: EntryState) -> &'static str
    ensures { result.now ≡ state_word state }
{
    match state {
        EntryState::Queued => "queued",
        EntryState::Sending => "sending",
        EntryState::Sent => "sent",
        EntryState::Failed => "failed",
        EntryState::Unsure => "unsure",
    }
}

pub(crate) fn state_at(row: &Row, at: usize) -> Result<EntryState, Error>
    ensures value { IfOk result (λ state. state ≡ state_in (text_in (column row.now at))) }
    ensures only { (state : EntryState) → HasAt row.now at (Text (state_word state)) → IfErr result LacksMemory }
{
    named!(row, at,
        "queued" => EntryState::Queued, "sending" => EntryState::Sending,
        "sent" => EntryState::Sent, "failed" => EntryState::Failed,
        "unsure" => EntryState::Unsure,
    )
}

pub(crate) fn coding_word(coding: Coding) -> &'static str
    ensures { result.now ≡ coding_word coding }
{
    match coding {
        Coding::Septets => "septets",
        Coding::Octets => "octets",
        Coding::Ucs2 => "ucs2",
        Coding::Compressed => "compressed",
    }
}

pub(crate) fn coding_at(row: &Row, at: usize) -> Result<Coding, Error>
    ensures value { IfOk result (λ coding. coding ≡ coding_in (text_in (column row.now at))) }
    ensures only { (coding : Coding) → HasAt row.now at (Text (coding_word coding)) → IfErr result LacksMemory }
{
    named!(row, at,
        "septets" => Coding::Septets, "octets" => Coding::Octets, "ucs2" => Coding::Ucs2,
        "compressed" => Coding::Compressed,
    )
}
