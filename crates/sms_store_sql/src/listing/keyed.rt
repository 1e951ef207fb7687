//! Statements on the row of a key.
ghost use Rattle.std.specs.Prelude.{◌≡◌, ◌≤◌, ◌/◌, ◌%◌, ◌^◌, [], ◌∷◌, IfErr, IfOk};
ghost use Rattle.sqlite.specs.Held.{state};
ghost use Rattle.sqlite.specs.declared.error.Error.TheVariants.{SqliteFailure};
ghost use Rattle.sqlite.specs.declared.error.ErrorCode.TheVariants.{TooBig};
ghost use Rattle.sms_store_sql.specs.listing.Columns.{number as as_number};
ghost use Rattle.sms_store_sql.specs.listing.Inside.{MakesStep, Keeps, Ran, Spares};
ghost use Rattle.sms_store_sql.specs.listing.Listing.{key_values};

use crate::listing::inside::run;
use sms_rows::table::Key;
use sqlite::types::Value;
use sqlite::{Alter, Error, ErrorCode, Transaction, params};

/// The number as a value, if it is one of SQLite's integers.
pub fn integer(number: u128) -> Result<Value, Error>
    ensures value { IfOk result (λ value. value ≡ as_number number) }
    ensures only { IfErr result (λ e. (e ≡ SqliteFailure TooBig) × (2 ^ 63 ≤ number)) }
{
    match i64::try_from(number) {
        Ok(integer) => Ok(Value::Int(integer)),
        Err(_) => Err(Error::SqliteFailure(ErrorCode::TooBig)),
    }
}

/// The key as a value.
pub fn integer_of(key: Key) -> Result<Value, Error>
    ensures value { IfOk result (λ value. value ≡ as_number key) }
    ensures only { IfErr result (λ e. (e ≡ SqliteFailure TooBig) × (2 ^ 63 ≤ key)) }
{
    integer(key.number())
}

/// The two numbers of a pair's key as values.
pub fn integers_of(key: Key) -> Result<(Value, Value), Error>
    ensures value { IfOk result (λ pair. (pair.0 ≡ as_number (key / 256)) × (pair.1 ≡ as_number (key % 256))) }
    ensures only { IfErr result (λ e. (e ≡ SqliteFailure TooBig) × (2 ^ 63 ≤ key / 256)) }
{
    let first = integer(key.number() / 256)?;
    let second = integer(key.number() % 256)?;
    Ok((first, second))
}

fn run_at_one<S: Alter>(tx: &mut Transaction<'_, S>, sql: &str, key: Key) -> Result<(), Error>
    ensures same_reference { tx.new.conn.ghost_name ≡ tx.old.conn.ghost_name }
    ensures done { MakesStep S.Store tx.old.conn.now tx.new.conn.now (Ran sql.now (as_number key ∷ [])) result }
    ensures uncommitted { Keeps S.Store tx.old.conn.now tx.new.conn.now }
    ensures survives { Spares S.Store tx.old.conn.now tx.new.conn.now }
{
    let value = integer_of(key)?;
    run(tx, sql, params![&value])
}

fn run_at_two<S: Alter>(tx: &mut Transaction<'_, S>, sql: &str, key: Key) -> Result<(), Error>
    ensures same_reference { tx.new.conn.ghost_name ≡ tx.old.conn.ghost_name }
    ensures done { MakesStep S.Store tx.old.conn.now tx.new.conn.now (Ran sql.now (as_number (key / 256) ∷ as_number (key % 256) ∷ [])) result }
    ensures uncommitted { Keeps S.Store tx.old.conn.now tx.new.conn.now }
    ensures survives { Spares S.Store tx.old.conn.now tx.new.conn.now }
{
    let pair = integers_of(key)?;
    run(tx, sql, params![&pair.0, &pair.1])
}

/// Runs one statement inside the transaction, with a key of so many columns as its values.
pub(crate) fn run_at<S: Alter>(
    tx: &mut Transaction<'_, S>,
    sql: &str,
    width: usize,
    key: Key,
) -> Result<(), Error>
    ensures same_reference { tx.new.conn.ghost_name ≡ tx.old.conn.ghost_name }
    ensures done { MakesStep S.Store tx.old.conn.now tx.new.conn.now (Ran sql.now (key_values width key)) result }
    ensures uncommitted { Keeps S.Store tx.old.conn.now tx.new.conn.now }
    ensures survives { Spares S.Store tx.old.conn.now tx.new.conn.now }
{
    if width == 1 {
        run_at_one(tx, sql, key)
    } else {
        run_at_two(tx, sql, key)
    }
}
