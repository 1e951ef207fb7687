//! The moments, messages and numbers that rows name.
use sms_base::{Address, Digits, MessageId, Moment};

/// 2024-02-29 23:59:58.
pub(crate) const START: u64 = 1_709_251_198;

/// So many seconds behind the start.
pub(crate) fn at(seconds: u32) -> Option<Moment> {
    let start = Moment::from_seconds(START).ok()?;
    Some(start.plus(u64::from(seconds)))
}

/// The message of that number.
pub(crate) fn message(number: u32) -> Option<MessageId> {
    MessageId::new(u64::from(number))
}

/// A number of these digits.
pub(crate) fn digits(text: &str) -> Option<Digits> {
    Some(Address::new(1, 1, text).ok()?.digits)
}
