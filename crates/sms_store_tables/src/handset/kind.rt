//! The kind of store.
ghost use Rattle.sms_store_tables.specs.handset.HandsetSchema.{handset_schema};
ghost use Rattle.sms_store_tables.specs.handset.MetaList.{meta_is_list};

use sms_store_sql::listing::KindOfStore;

/// The store of a handset. No value of it is made.
pub struct HandsetStore;

impl KindOfStore for HandsetStore {
    ghost schema = { handset_schema };

    ghost meta_is_list = { meta_is_list };
}
