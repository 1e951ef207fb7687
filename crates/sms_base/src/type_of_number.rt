//! The type of number of an address (3GPP TS 23.040 9.1.2.5).
ghost use Rattle.std.specs.Prelude.{◌≡◌, Some, None};
ghost use Rattle.sms_base.specs.AddressKind.{type_of, type_number, is_name};

/// What kind of number an address is.
#[derive(Clone, Copy, PartialEq, Eq)]
pub enum TypeOfNumber {
    Unknown,
    International,
    National,
    NetworkSpecific,
    Subscriber,
    /// A name in the default alphabet.
    Alphanumeric,
    Abbreviated,
}

impl TypeOfNumber {
    /// The type with that number, 0 to 6; 7 is reserved.
    pub fn of(number: u8) -> Option<TypeOfNumber>
        ensures { result ≡ type_of number }
    {
        match number {
            0 => Some(TypeOfNumber::Unknown),
            1 => Some(TypeOfNumber::International),
            2 => Some(TypeOfNumber::National),
            3 => Some(TypeOfNumber::NetworkSpecific),
            4 => Some(TypeOfNumber::Subscriber),
            5 => Some(TypeOfNumber::Alphanumeric),
            6 => Some(TypeOfNumber::Abbreviated),
            _ => None,
        }
    }

    /// The number of the type, 0 to 6.
    pub fn number(self) -> u8
        ensures { result ≡ type_number self }
    {
        match self {
            TypeOfNumber::Unknown => 0,
            TypeOfNumber::International => 1,
            TypeOfNumber::National => 2,
            TypeOfNumber::NetworkSpecific => 3,
            TypeOfNumber::Subscriber => 4,
            TypeOfNumber::Alphanumeric => 5,
            TypeOfNumber::Abbreviated => 6,
        }
    }

    /// Whether an address of this type is a name.
    pub fn is_name(self) -> bool
        ensures { result ≡ is_name self }
    {
        matches!(self, TypeOfNumber::Alphanumeric)
    }
}
