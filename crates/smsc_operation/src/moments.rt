//! Moments of this machine's clock, and their text.
use sms_base::Moment;
use std::alloc::{AllocError, Global};
use std::time::{SystemTime, UNIX_EPOCH};

/// The moment of now, where the clock has one of the years 2000 to 2099.
pub fn now(rt: &HostRuntime) -> Option<Moment> {
    let now = SystemTime::now(rt).ok()?;
    let since = now.duration_since(UNIX_EPOCH).ok()?;
    Moment::from_seconds(since.as_secs()).ok()
}

// Two decimal digits of a semi-octet pair, the low one first (3GPP TS 23.040 9.1.2.3).
fn put_pair(text: &mut String, octet: u8) -> Result<(), AllocError> {
    text.push(char::from(48 + (octet % 16) % 10))?;
    text.push(char::from(48 + (octet / 16) % 10))
}

// What stands behind the year, month, day, hour, minute and second.
const BEHIND: &[char] = &['-', '-', 'T', ':', ':', 'Z'];

// A pair, and what stands behind it.
fn put_part(text: &mut String, octet: u8, behind: char) -> Result<(), AllocError> {
    put_pair(text, octet)?;
    text.push(behind)
}

fn put_moment(text: &mut String, moment: Moment) -> Result<(), AllocError> {
    let parts = moment.to_scts();
    text.push_str("20")?;
    for (octet, behind) in parts.iter().zip(BEHIND) {
        put_part(text, *octet, *behind)?;
    }
    Ok(())
}

/// The moment at UTC, as `2026-11-26T04:46:01Z`.
pub fn text_of(alloc: Global, moment: Moment) -> Result<String, AllocError> {
    let mut text = String::new(alloc);
    put_moment(&mut text, moment)?;
    Ok(text)
}
