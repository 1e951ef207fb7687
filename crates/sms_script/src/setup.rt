//! What a script begins with.
use sms_base::{Listed, OctetView};

/// An application: the name and the password that it binds with, and the digits of its number. Neither it nor what holds it has a debug
/// text, which would show the password.
#[derive(Drop)]
pub struct AccountSetup<'a> {
    pub name: OctetView<'a>,
    pub password: OctetView<'a>,
    pub number: OctetView<'a>,
}

/// A handset: the digits of its number, and how many parts it can store.
#[derive(Drop)]
pub struct HandsetSetup<'a> {
    pub number: OctetView<'a>,
    pub slots: u64,
}

/// The head of a script, as it was written: its limits are judged where it is played.
#[derive(Drop)]
pub struct Setup<'a> {
    /// The moment at which all sides begin, in seconds after 1970 began.
    pub start: u64,
    /// The digits of the centre's number.
    pub centre: OctetView<'a>,
    pub accounts: Listed<AccountSetup<'a>>,
    pub handsets: Listed<HandsetSetup<'a>>,
}
