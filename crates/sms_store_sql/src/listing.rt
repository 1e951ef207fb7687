//! Lists of rows as tables of a database.
//!
//! A type of rows gives its table in a kind of store, with its texts, and its columns (`StoredRow`). `put`, `remove`,
//! `write` and `load` store it, and are proved here once for every list. Inside one transaction the table has the list
//! with its changes. Every other table stays, nothing is committed, and a stop leaves nothing new. `find` gives the row
//! of one key (`FoundRow`), `seek` those of another number (`SoughtRow`). `load` gives all rows in the order of their
//! keys. It reads each as it comes, outside a transaction. `load_all` reads some lists one behind another
//! (`StoredLists`). A whole transaction's changes are a `Work`, what it reads is a `Lookup`. `transact` and `look` commit
//! all of it or nothing, and a stop inside leaves the database from before or after. What is read in a transaction or
//! outside one is a `Survey`.

mod cause;
mod closing;
mod fields;
mod finding;
mod inside;
mod judging;
mod keyed;
mod list;
mod lists;
mod loading;
mod meta;
mod reading;
mod said;
mod seeking;
mod transaction;

pub use cause::{load_cause_of, write_cause_of};
pub use closing::{Health, look_or_close, transact_or_close};
pub use finding::{FoundRow, find};
pub use inside::{add, change, make, put, query, remove, run, run_counted, write};
pub use judging::judge;
pub use keyed::{integer, integer_of, integers_of};
pub use list::{Counted, StoredRow};
pub use lists::{Last, StoredLists, Then};
pub use loading::{load, load_columns};
pub use meta::{Meta, StoreKind, kind_at};
pub use reading::{
    address_at, flag_at, handset_at, handset_text, is_null_at, moment_at, number_at, octet_at,
    octets_at, optional_moment_at, optional_octet_at, optional_short_at, short_at, text_at,
    text_of, word_at,
};
pub use said::KindOfStore;
pub use seeking::{SoughtRow, seek};
pub use transaction::{InTransaction, Lookup, Survey, Work, look, transact};
