//! How the rows of a test are judged.
use std::test::Fail;

/// Ends the test where a row does not hold.
pub(crate) fn holds(row: bool, name: &str) -> Result<(), Fail> {
    if row { Ok(()) } else { Err(Fail::new(name)) }
}

/// Ends the test where the turn at that place, from 0, of a course does not hold.
pub(crate) fn turn_holds(turn: bool, course: &str, at: usize) -> Result<(), Fail> {
    if turn {
        Ok(())
    } else {
        Err(Fail::new(format_args!("{course}: turn {at}")))
    }
}

/// What was made, where it was.
pub(crate) fn made<T>(value: Option<T>, name: &str) -> Result<T, Fail> {
    match value {
        Some(value) => Ok(value),
        None => Err(Fail::new(name)),
    }
}
