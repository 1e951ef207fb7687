//! Addresses.
ghost use Rattle.std.specs.Prelude.{◌≡◌, ℕ, IfOk, IfSome, Ok, Some};
ghost use Rattle.std.specs.List.{list_all};
ghost use Rattle.std.specs.Str.{chars};
ghost use Rattle.sms_base.specs.HandsetNumber.{is_decimal};

use crate::address_error::AddressError;
use crate::address_text::text_of;
use crate::digits::Digits;
use crate::msisdn::Msisdn;
use crate::type_of_number::TypeOfNumber;

/// An address: 1 to 20 digits `0-9*#abc` or, where it is alphanumeric, a name of 1 to 11 septets.
#[derive(Clone, Copy, PartialEq, Eq)]
pub struct Address {
    /// The type of number.
    pub ton: TypeOfNumber,
    /// The numbering plan, 0 to 15.
    pub npi: u8,
    /// The characters of the digits or of the name.
    pub digits: Digits,
}

impl Address {
    ghost use Rattle.sms_base.specs.Address.{IsAddress, IsAddressOf, address_of};
    ghost use Rattle.sms_base.specs.HandsetNumber.{handset_of, names_handset, own_address};
    ghost use Rattle.sms_base.specs.declared.address.Address.{Address as AddressOf};

    /// The address with that type of number, that numbering plan and that text.
    ///
    /// Its first fault is a type above 6 or a plan above 15. Then it is an empty text, then the first faulty character
    /// from the left. The 21st digit of a number, or the character of a name that exceeds the 11th septet, is too long,
    /// whatever it is.
    pub fn new(ton: u8, npi: u8, text: &str) -> Result<Address, AddressError>
        ensures found { IfOk result (λ address. IsAddressOf ton npi (chars text.now) address) }
        ensures only { (address : AddressOf) → IsAddressOf ton npi (chars text.now) address → result ≡ Ok address }
        ensures exact { result ≡ address_of ton npi (chars text.now) }
    {
        Address::of(ton, npi, text)
    }

    #[tactic(auto, unfolding(crate::specs::Address::address_of))]
    fn of(ton: u8, npi: u8, text: &str) -> Result<Address, AddressError>
        ensures { result ≡ address_of ton npi (chars text.now) }
    {
        let ton = TypeOfNumber::of(ton).ok_or(AddressError::BadKind)?;
        if npi > 15 {
            return Err(AddressError::BadKind);
        }
        let digits = text_of(ton.is_name(), text)?;
        if digits.is_empty() {
            return Err(AddressError::Empty);
        }
        Ok(Address { ton, npi, digits })
    }

    /// The address of a handset: an international number of the telephone numbering plan.
    pub fn of_handset(digits: Digits) -> Address
        ensures { result ≡ own_address digits }
    {
        Address {
            ton: TypeOfNumber::International,
            npi: 1,
            digits,
        }
    }

    /// The number of the handset that the address names, if it names one.
    pub fn handset(&self) -> Option<Msisdn>
        ensures is { IfSome result (λ number. handset_of self.now ≡ Some number) }
        ensures only { IsAddress self.now → result ≡ handset_of self.now }
    {
        if self.names_handset() {
            Msisdn::of_digits(&self.digits)
        } else {
            None
        }
    }

    /// Whether the address names a handset: an unknown, international or national number of digits 0 to 9.
    pub fn names_handset(&self) -> bool
        ensures { result ≡ names_handset self.now }
    {
        self.ton.number() < 3 && are_decimal(self.digits.as_slice())
    }
}

// Whether each character is one of 0 to 9.
fn are_decimal(characters: &[char]) -> bool
    ensures { result ≡ list_all is_decimal characters.now }
{
    characters
        .iter()
        .all(|character| character.is_ascii_digit())
}
