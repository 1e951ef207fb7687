//! Accounts in words.
ghost use Rattle.std.specs.Prelude.{◌≡◌, ℕ, List, IfNone, IfSome};
ghost use Rattle.std.specs.Str.Iter.{LacksByte};
ghost use Rattle.sms_base.specs.declared.address.Address.{Address as AddressOf};
ghost use Rattle.smsc_cli.specs.words.Accounts.{IsCutAt, IsName, IsPassword, SpellsAccount, SpellsEnd};

use crate::words::number::{address_of, sessions_of};
use sms_base::Address;

/// An account as it is written: its name, its password and its own number.
#[derive(Clone, Copy)]
pub struct AccountWords<'a> {
    /// The system_id: 1 to 15 ASCII characters.
    pub name: &'a str,
    /// Up to 8 ASCII characters.
    pub password: &'a str,
    /// The source of its messages that name none.
    pub address: Address,
    /// How many sessions it may have at once, 1 to 32.
    pub sessions: u8,
}

// So many, where it says nothing.
pub(crate) const USUAL_SESSIONS: u8 = 4;

/// The text before its first colon, and the text behind it.
pub(crate) fn at_colon<'a>(text: &'a str) -> Option<(&'a str, &'a str)>
    ensures cut { IfSome result (λ cut. IsCutAt 58 text.entry.now cut.0.now cut.1.now) }
    ensures none { IfNone result (LacksByte 58 text.entry.now) }
{
    text.split_once(':')
}

// The text, where it is a name.
pub(crate) fn name_in<'a>(text: &'a str) -> Option<&'a str>
    ensures found { IfSome result (λ name. (name.now ≡ text.entry.now) × IsName text.entry.now) }
    ensures none { IfNone result (¬ IsName text.entry.now) }
{
    if text.is_empty() || text.len() > 15 || !text.is_ascii() {
        return None;
    }
    Some(text)
}

// The text, where it is a password.
pub(crate) fn password_in<'a>(text: &'a str) -> Option<&'a str>
    ensures found { IfSome result (λ password. (password.now ≡ text.entry.now) × IsPassword text.entry.now) }
    ensures none { IfNone result (¬ IsPassword text.entry.now) }
{
    if text.len() > 8 || !text.is_ascii() {
        return None;
    }
    Some(text)
}

// The number, and behind another colon how many sessions there may be at once.
fn end_of(text: &str) -> Option<(Address, u8)>
    ensures found { IfSome result (λ end. SpellsEnd text.now end.0 end.1) }
    ensures only { IfNone result ((address : AddressOf) (sessions : ℕ) → ¬ SpellsEnd text.now address sessions) }
{
    match at_colon(text) {
        Some((number, limit)) => {
            let address = address_of(number)?;
            let sessions = sessions_of(limit)?;
            Some((address, sessions))
        }
        None => {
            let address = address_of(text)?;
            Some((address, USUAL_SESSIONS))
        }
    }
}

/// The account that the text spells: `NAME:PASSWORD:NUMBER` or `NAME:PASSWORD:NUMBER:SESSIONS`, cut at its first two colons.
pub fn account_of<'a>(text: &'a str) -> Option<AccountWords<'a>>
    ensures found { IfSome result (λ account.
        SpellsAccount text.entry.now account.name.now account.password.now account.address account.sessions) }
    ensures only { IfNone result ((name password : List ℕ) (address : AddressOf) (sessions : ℕ)
        → ¬ SpellsAccount text.entry.now name password address sessions) }
{
    let (before, rest) = at_colon(text)?;
    let (between, end) = at_colon(rest)?;
    let name = name_in(before)?;
    let password = password_in(between)?;
    let (address, sessions) = end_of(end)?;
    Some(AccountWords {
        name,
        password,
        address,
        sessions,
    })
}
