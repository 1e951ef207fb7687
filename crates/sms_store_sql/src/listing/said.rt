//! The table that says what a store is, in every kind of store.
ghost use Rattle.std.specs.Prelude.{refl};
ghost use Rattle.sqlite.specs.Schema.{Schema};
ghost use Rattle.sms_store_sql.specs.listing.Listing.{IsList};
ghost use Rattle.sms_store_sql.specs.tabled.MetaTable.{meta_list_in};

use crate::listing::inside::run_counted;
use crate::listing::list::{Counted, StoredRow};
use crate::listing::meta::{Meta, kind_at};
use crate::listing::reading::word_at;
use crate::schema::StoredTable;
use crate::{fields, table};
use sqlite::{Alter, Error, Row, Transaction, params};
use std::alloc::Global;

/// A kind of store. Its first table says what it is.
pub trait KindOfStore {
    /// Its tables.
    ghost schema: { Schema };

    /// The first of them is the table that says what it is.
    ghost meta_is_list: { IsList (meta_list_in schema) };
}

impl<K: KindOfStore> StoredRow<K> for Meta {
    ghost list = { meta_list_in K.schema };

    fn table() -> StoredTable {
        table!(meta in 0, key version, version INTEGER NOT NULL, kind TEXT NOT NULL,)
    }

    fn write<S: Alter>(&self, _alloc: Global, tx: &mut Transaction<'_, S>, text: &str) -> Counted {
        run_counted(tx, text, params![self.version, self.kind.word()])
    }

    fn read(_alloc: Global, row: &Row) -> Result<Meta, Error> {
        fields!(Meta in row, version: word_at(0), kind: kind_at(1))
    }

    ghost one_key = { λ x. refl };

    ghost is_list = { K.meta_is_list };
}
