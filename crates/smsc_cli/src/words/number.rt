//! Numbers in words.
ghost use Rattle.std.specs.Prelude.{◌≡◌, ℕ, IfNone, IfSome, Some, option_map};
ghost use Rattle.std.specs.List.{list_all};
ghost use Rattle.sms_base.specs.HandsetNumber.{is_decimal};
ghost use Rattle.smsc_cli.specs.words.SimWords.{SpellsNumber};
ghost use Rattle.smsc_cli.specs.words.LookWords.{IsCountText, MayBe, Wants};
ghost use Rattle.smsc_cli.specs.words.Numbers.{IsCount, IsPort, IsSessions, IsSlots, SpellsBetween, SpellsCount, SpellsFrom};
ghost use Rattle.sms_base.specs.declared.address.Address.{Address as AddressOf};

use crate::words::address::own_address;
use sms_base::Address;

/// Whether the text is of digits 0 to 9.
pub(crate) fn is_decimal_text(text: &str) -> bool
    ensures { result ≡ list_all is_decimal text.now }
{
    text.as_bytes().iter().all(|digit| digit.is_ascii_digit())
}

/// The number of a handset or of the centre, 1 to 20 digits.
pub(crate) fn address_of(text: &str) -> Option<Address>
    ensures found { IfSome result (λ address. SpellsNumber text.now address) }
    ensures only { (address : AddressOf) → SpellsNumber text.now address → result ≡ Some address }
{
    own_address(text)
}

/// A count of 32 bits in decimal digits alone.
pub(crate) fn count_of(text: &str) -> Option<u32>
    ensures found { IfSome result (λ count. SpellsCount text.now count) }
    ensures only { (count : ℕ) → IsCount text.now count → result ≡ Some count }
{
    if !is_decimal_text(text) {
        return None;
    }
    text.parse().ok()
}

/// A number of eight bits that is not above the most, in decimal digits alone.
pub(crate) fn small_of(text: &str, most: u8) -> Option<u8>
    ensures found { IfSome result (λ number. SpellsBetween 0 most text.now number) }
    ensures none { IfNone result ((number : ℕ) → ¬ SpellsBetween 0 most text.now number) }
{
    if !is_decimal_text(text) {
        return None;
    }
    let number: u8 = text.parse().ok()?;
    if number > most {
        return None;
    }
    Some(number)
}

/// The count that a word names, where it is there.
pub(crate) fn optional_count(word: Option<&str>) -> Option<Option<u32>>
    ensures found { IfSome result (λ count. Wants SpellsCount (option_map (λ s. s.now) word.entry) count) }
    ensures none { IfNone result (¬ MayBe IsCountText (option_map (λ s. s.now) word.entry)) }
{
    match word {
        Some(text) => Some(Some(count_of(text)?)),
        None => Some(None),
    }
}

/// A port, 1 to 65535, in decimal digits alone.
pub(crate) fn port_of(text: &str) -> Option<u16>
    ensures found { IfSome result (λ port. SpellsFrom 1 text.now port) }
    ensures only { (port : ℕ) → IsPort text.now port → result ≡ Some port }
{
    if !is_decimal_text(text) {
        return None;
    }
    let port: u16 = text.parse().ok()?;
    if port == 0 {
        return None;
    }
    Some(port)
}

/// How many slots a store has, 1 to 255, in decimal digits alone.
pub(crate) fn slots_of(text: &str) -> Option<u8>
    ensures found { IfSome result (λ slots. SpellsFrom 1 text.now slots) }
    ensures only { (slots : ℕ) → IsSlots text.now slots → result ≡ Some slots }
{
    if !is_decimal_text(text) {
        return None;
    }
    let slots: u8 = text.parse().ok()?;
    if slots == 0 {
        return None;
    }
    Some(slots)
}

// A server has so many seats.
const MOST_SESSIONS: u8 = 32;

/// How many sessions an account may have at once, 1 to 32, in decimal digits alone.
pub(crate) fn sessions_of(text: &str) -> Option<u8>
    ensures found { IfSome result (λ sessions. IsSessions text.now sessions) }
    ensures only { (sessions : ℕ) → IsSessions text.now sessions → result ≡ Some sessions }
{
    let sessions = slots_of(text)?;
    if sessions > MOST_SESSIONS {
        return None;
    }
    Some(sessions)
}
