//! The kinds of store.
ghost use Rattle.sms_store_tables.specs.centre.CentreSchema.{centre_schema, first_schema, second_schema};
ghost use Rattle.sms_store_tables.specs.centre.MetaList.{first_is_list, meta_is_list, second_is_list};

use sms_store_sql::listing::KindOfStore;

/// The store of a centre, version 3. No value of it is made.
pub struct CentreStore;

/// The store of a centre, version 2. No value of it is made.
pub struct SecondCentreStore;

/// The store of a centre, version 1. No value of it is made.
pub struct FirstCentreStore;

impl KindOfStore for CentreStore {
    ghost schema = { centre_schema };

    ghost meta_is_list = { meta_is_list };
}

impl KindOfStore for SecondCentreStore {
    ghost schema = { second_schema };

    ghost meta_is_list = { second_is_list };
}

impl KindOfStore for FirstCentreStore {
    ghost schema = { first_schema };

    ghost meta_is_list = { first_is_list };
}
