//! How the rows of a test are judged. A helper of a test tells whether its row holds, and the test names the row.
use sms_base::Octets;
use std::alloc::{AllocError, Global};
use std::fmt::Debug;
use std::test::Fail;

/// Ends the test where a row does not hold.
pub(crate) fn holds(row: bool, name: &str) -> Result<(), Fail> {
    if row { Ok(()) } else { Err(Fail::new(name)) }
}

/// The failure of a course at one of its steps, from 0.
pub(crate) fn failed_at(course: &str, step: usize) -> Fail {
    Fail::new(format_args!("{course}: step {step}"))
}

/// Whether octets are those.
pub(crate) fn are(octets: &[u8], others: &[u8]) -> bool {
    octets == others
}

/// Whether the octets are these parts, one behind another.
pub(crate) fn are_parts(octets: &[u8], parts: &[&[u8]]) -> bool {
    let mut rest = octets;
    for part in parts {
        match rest.strip_prefix(*part) {
            Some(left) => rest = left,
            None => return false,
        }
    }
    rest.is_empty()
}

/// Whether these parts were written, one behind another.
pub(crate) fn is_written(octets: Result<Octets, AllocError>, parts: &[&[u8]]) -> bool {
    match octets {
        Ok(octets) => are_parts(octets.as_slice(), parts),
        Err(_) => false,
    }
}

/// The parts, one behind another.
pub(crate) fn joined(alloc: Global, parts: &[&[u8]]) -> Result<Octets, AllocError> {
    let mut octets = Octets::new(alloc);
    for part in parts {
        octets.append(part)?;
    }
    Ok(octets)
}

// Whether a text shows the password secret, as text or as its octets.
fn shows_secret(text: &str) -> bool {
    text.contains("secret") || text.contains("115, 101, 99, 114, 101, 116")
}

/// Whether what a value prints has a text in it, and not the password.
pub(crate) fn hides(alloc: Global, value: &impl Debug, shown: &str) -> bool {
    match format!(in alloc; "{value:?}") {
        Ok(text) => text.as_str().contains(shown) && !shows_secret(text.as_str()),
        Err(_) => false,
    }
}
