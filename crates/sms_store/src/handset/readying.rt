//! Makes a database ready to be a store: an empty one gets its tables, and a store must say that it is a handset's.
use crate::keeping::{Openable, Said, found, judge_said};
use sms_handset::Setup;
use sms_rows::keep::KeepError;
use sms_store_sql::listing::StoreKind;
use sms_store_sql::schema::is_blank;
use sms_store_tables::handset::{HandsetStore, is_handset_schema};
use sqlite::{Alter, Connection};
use std::alloc::Global;
use std::marker::PhantomData;

impl Openable for Setup {
    fn ready<S: Alter>(alloc: Global, conn: &mut Connection<S>) -> Result<(), KeepError> {
        if is_blank(conn.schema()) {
            return found::<Setup, S>(alloc, conn);
        }
        if !is_handset_schema(conn.schema()) {
            return Err(KeepError::NotThisStore);
        }
        let said = Said::<HandsetStore> {
            kind: StoreKind::Handset,
            version: 1,
            of: PhantomData,
        };
        judge_said::<Setup, Said<HandsetStore>, S>(alloc, conn, &said)
    }
}
