//! Numbers as values of a database.
ghost use Rattle.std.specs.Prelude.{◌≡◌, ◌≤◌, ◌^◌, pos, IfErr, IfOk, IfSome, IsOk};
ghost use Rattle.sms_base.specs.MessageId.{IsMessageId};
ghost use Rattle.sms_base.specs.TimeStamp.{IsMoment};
ghost use Rattle.sqlite.specs.Values.{or_null};
ghost use Rattle.sqlite.specs.declared.types.Value.TheVariants.{Int};
ghost use Rattle.sqlite.specs.declared.error.Error.TheVariants.{SqliteFailure};
ghost use Rattle.sqlite.specs.declared.error.ErrorCode.TheVariants.{TooBig};
ghost use Rattle.sms_store_sql.specs.listing.Columns.{number as as_number, or_none};

use sms_base::{MessageId, Moment};
use sms_store_sql::listing::integer;
use sqlite::Error;
use sqlite::types::Value;

/// The message's number as a value. None is refused.
pub fn id_value(id: MessageId) -> Result<Value, Error>
    ensures value { IfOk result (λ value. value ≡ as_number id) }
    ensures always { IsOk result }
    ensures range { IsMessageId id }
{
    let value = integer(u128::from(id.number()))?;
    Ok(value)
}

/// The moment as a value, in seconds. None is refused.
pub fn moment_value(moment: Moment) -> Result<Value, Error>
    ensures value { IfOk result (λ value. value ≡ as_number moment) }
    ensures always { IsOk result }
    ensures range { IsMoment moment }
{
    let value = integer(u128::from(moment.seconds()))?;
    Ok(value)
}

/// The place as a value.
pub fn place_value(place: u64) -> Result<Value, Error>
    ensures value { IfOk result (λ value. value ≡ as_number place) }
    ensures only { IfErr result (λ e. (e ≡ SqliteFailure TooBig) × (2 ^ 63 ≤ place)) }
{
    integer(u128::from(place))
}

/// The moment in seconds, which fit an integer of SQLite's.
pub fn seconds_of(moment: Option<Moment>) -> Option<i64>
    ensures value { or_null Int result ≡ or_none as_number moment }
    ensures stored { IfSome moment IsMoment }
{
    match moment {
        Some(moment) => Some(seconds(moment)),
        None => None,
    }
}

fn seconds(moment: Moment) -> i64
    ensures value { result ≡ pos moment }
    ensures range { IsMoment moment }
{
    moment.seconds() as i64
}
