//! What a store says of itself.
ghost use Rattle.std.specs.Prelude.{◌≡◌, IfErr, IfOk};
ghost use Rattle.sqlite.specs.declared.types.Value.TheVariants.{Text};
ghost use Rattle.sqlite_value.specs.Order.{column};
ghost use Rattle.sms_store_sql.specs.listing.Columns.{text_in};
ghost use Rattle.sms_store_sql.specs.listing.Meta.{kind_in, kind_word, meta_key};
ghost use Rattle.sms_store_sql.specs.listing.Reading.{HasAt, LacksMemory};

use crate::listing::reading::text_at;
use crate::named;
use sms_rows::table::{Key, Row};
use sqlite::{Error, Row as Columns};

/// Whose rows a store keeps.
#[derive(Clone, Copy, PartialEq, Eq)]
pub enum StoreKind {
    Handset,
    Centre,
}

/// The one row of a store that says what it is.
#[derive(Clone, Copy, PartialEq, Eq)]
pub struct Meta {
    pub version: u32,
    pub kind: StoreKind,
}

impl Row for Meta {
    ghost key = { meta_key };

    fn key(&self) -> Key {
        Key::of(u64::from(self.version))
    }
}

impl StoreKind {
    /// The word for it in a store.
    pub fn word(self) -> &'static str
        ensures { result.now ≡ kind_word self }
    {
        match self {
            StoreKind::Handset => "handset",
            StoreKind::Centre => "centre",
        }
    }
}

/// The kind that the column names.
pub fn kind_at(row: &Columns, at: usize) -> Result<StoreKind, Error>
    ensures value { IfOk result (λ kind. kind ≡ kind_in (text_in (column row.now at))) }
    ensures only { (kind : StoreKind) → HasAt row.now at (Text (kind_word kind)) → IfErr result LacksMemory }
{
    named!(row, at,
        "handset" => StoreKind::Handset, "centre" => StoreKind::Centre,
    )
}
