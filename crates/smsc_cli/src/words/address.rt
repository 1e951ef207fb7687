//! Addresses in words.
ghost use Rattle.std.specs.Prelude.{◌≡◌, Some, IfSome};
ghost use Rattle.std.specs.List.{list_all};
ghost use Rattle.std.specs.Str.{chars};
ghost use Rattle.sms_base.specs.declared.address.Address.{Address as AddressOf};
ghost use Rattle.sms_base.specs.HandsetNumber.{is_decimal};
ghost use Rattle.sms_base.specs.OwnAddress.{IsOwnAddress};

use sms_base::Address;

fn is_decimal(digit: char) -> bool
    ensures { result ≡ is_decimal digit }
{
    digit.is_ascii_digit()
}

fn are_decimal(digits: &[char]) -> bool
    ensures { result ≡ list_all is_decimal digits.now }
{
    digits.iter().all(|digit| is_decimal(*digit))
}

/// The international number of those digits, if they are 1 to 20 digits 0 to 9.
pub fn own_address(digits: &str) -> Option<Address>
    ensures found { IfSome result (λ address. IsOwnAddress address × (address.digits ≡ chars digits.now)) }
    ensures only { (address : AddressOf) → IsOwnAddress address → address.digits ≡ chars digits.now → result ≡ Some address }
{
    match Address::new(1, 1, digits) {
        Ok(address) if are_decimal(address.digits.as_slice()) => Some(address),
        _ => None,
    }
}
