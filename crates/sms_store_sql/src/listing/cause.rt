//! What the errors of statements are to a keep.
ghost use Rattle.std.specs.Prelude.{◌≡◌, ◌≢◌};
ghost use Rattle.sms_rows.specs.declared.keep.error.KeepError.TheVariants.{NotThisStore, OldVersion};
ghost use Rattle.sms_store_sql.specs.listing.Causes.{load_cause, write_cause};

use sms_rows::keep::KeepError;
use sqlite::{Error, ErrorCode};

/// What the error of a statement that writes is to a keep.
pub fn write_cause_of(error: Error) -> KeepError
    ensures cause { result ≡ write_cause error }
    ensures named { (result ≢ OldVersion) × (result ≢ NotThisStore) }
{
    match error {
        Error::SqliteFailure(ErrorCode::OutOfMemory | ErrorCode::TooBig) => KeepError::NoMemory,
        Error::SqliteFailure(ErrorCode::OperationInterrupted) => KeepError::Interrupted,
        Error::SqliteFailure(ErrorCode::Closed) => KeepError::Closed,
        Error::SqliteFailure(ErrorCode::DiskFull) => KeepError::Full,
        _ => KeepError::Disk,
    }
}

/// What the error of a reading call is to a keep. Columns that no row has, or a missing row, mean that this is no such
/// store.
pub fn load_cause_of(error: Error) -> KeepError
    ensures { result ≡ load_cause error }
{
    match error {
        Error::QueryReturnedNoRows
        | Error::InvalidColumnIndex(_)
        | Error::InvalidColumnType(_, _)
        | Error::IntegralValueOutOfRange(_)
        | Error::Utf8Error(_) => KeepError::NotThisStore,
        _ => write_cause_of(error),
    }
}
