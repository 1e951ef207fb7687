//! What a store says of itself, read in one transaction.
ghost use Rattle.std.specs.Prelude.{⊤};
ghost use Rattle.sms_store_sql.specs.tabled.MetaTable.{meta_list_in};
ghost use Rattle.sms_store.specs.keeping.Refusing.{FindsJudgement};

use sms_rows::keep::KeepError;
use sms_store_sql::listing::{KindOfStore, Lookup, Meta, StoreKind, judge, load_columns};
use sqlite::{Alter, Error, Transaction};
use std::alloc::Global;
use std::marker::PhantomData;

/// Whether one with the tables of `K` says that it is a store of that kind and version.
#[derive(Drop)]
pub(crate) struct Said<K> {
    pub(crate) kind: StoreKind,
    pub(crate) version: u32,
    pub(crate) of: PhantomData<K>,
}

impl<K: KindOfStore> Lookup for Said<K> {
    type Found = Result<(), KeepError>;

    ghost schema = { λ said. K.schema };

    ghost has = { λ said db. ⊤ };

    ghost finds = { λ said db found. FindsJudgement (meta_list_in K.schema) said.kind said.version db found };

    fn read<S: Alter>(
        &self,
        _alloc: Global,
        tx: &mut Transaction<'_, S>,
    ) -> Result<Result<(), KeepError>, Error> {
        let rows = load_columns::<K, Meta, S>(tx)?;
        Ok(judge(&rows, self.kind, self.version))
    }
}
