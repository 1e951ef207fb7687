//! How the rows of a test are judged. A helper of a test tells whether its row holds, and the test names the row.
use sms_base::Octets;
use std::alloc::AllocError;
use std::test::Fail;

/// Ends the test where a row does not hold.
pub(crate) fn holds(row: bool, name: &str) -> Result<(), Fail> {
    if row { Ok(()) } else { Err(Fail::new(name)) }
}

/// The failure of a course at one of its steps, from 0.
pub(crate) fn failed_at(course: &str, step: usize) -> Fail {
    Fail::new(format_args!("{course}: step {step}"))
}

/// Whether octets are those.
pub(crate) fn are(octets: &[u8], others: &[u8]) -> bool {
    octets == others
}

/// Whether these octets were written.
pub(crate) fn is_written(octets: Result<Octets, AllocError>, wanted: &[u8]) -> bool {
    match octets {
        Ok(octets) => are(octets.as_slice(), wanted),
        Err(_) => false,
    }
}
