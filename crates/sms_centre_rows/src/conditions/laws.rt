//! The law of the test of an address: it holds exactly where the definition's condition does.
ghost use Rattle.std.specs.Prelude.{◌≡◌, ◌↔◌, true};
ghost use Rattle.sms_base.specs.Address.{IsAddress};
ghost use Rattle.sms_base.specs.declared.address.Address.{Address};
ghost use Rattle.sms_centre_rows.specs.conditions.AddressTest.{is_address};

/// An address passes exactly where a unit can carry it.
pub fn addresses_are_tested()
    ensures { (address : Address) → (is_address address ≡ true) ↔ IsAddress address }
{}
