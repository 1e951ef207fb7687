//! The identity of a message, and how a message ends.
ghost use Rattle.std.specs.Prelude.{◌≡◌, ℕ, ◌+◌, ◌≤◌, ◌%◌, length, Some, IfSome};
ghost use Rattle.std.specs.Option.{SomeIff};
ghost use Rattle.std.specs.Str.Parse.{AllDigits, digits_value};
ghost use Rattle.sms_base.specs.MessageId.{IsIdText, IsMessageId};

use std::marker::Model;

/// The number of a message at the centre, 1 to 9999999999, which no other message has.
#[derive(Clone, Copy, PartialEq, Eq, PartialOrd, Ord)]
pub struct MessageId {
    number: u64,
}

impl Model for MessageId {
    ghost use Rattle.std.specs.Prelude.{ℕ};
    ghost use Rattle.sms_base.specs.MessageId.{IsMessageId};

    ghost Value = { ℕ };

    ghost view = { λ id. id.number };

    ghost invariant = { λ id. IsMessageId id.number };

    ghost inverse = { λ n. record { number = n } };
}

impl MessageId {
    /// The identity of that number, unless it is 0 or past 9999999999.
    pub fn new(number: u64) -> Option<MessageId>
        ensures { SomeIff result (IsMessageId number) number }
    {
        if number == 0 || number > 9_999_999_999 {
            return None;
        }
        Some(MessageId { number })
    }

    /// The id as a number, 1 to 9999999999.
    pub fn number(self) -> u64
        ensures value { result ≡ self }
        ensures range { IsMessageId self }
    {
        self.number
    }

    /// The text: ten decimal digits, with zeros in front (SMPP v3.4 5.2.23, message_id).
    pub fn digits(self) -> [u8; 10]
        ensures { IsIdText result self }
    {
        let n = self.number;
        [
            digit(n / 1_000_000_000),
            digit(n / 100_000_000),
            digit(n / 10_000_000),
            digit(n / 1_000_000),
            digit(n / 100_000),
            digit(n / 10_000),
            digit(n / 1_000),
            digit(n / 100),
            digit(n / 10),
            digit(n),
        ]
    }

    /// The identity whose text the octets are: ten decimal digits, not all of them 0.
    pub fn read(octets: &[u8]) -> Option<MessageId>
        ensures found { IfSome result (λ id. IsIdText octets.now id) }
        ensures only { (n : ℕ) → IsMessageId n → IsIdText octets.now n → result ≡ Some n }
    {
        if octets.len() != 10 {
            return None;
        }
        MessageId::new(number_in(octets)?)
    }
}

// The last decimal digit of a number.
fn digit(n: u64) -> u8
    ensures { result ≡ 48 + n % 10 }
{
    b'0' + (n % 10) as u8
}

// The number that up to ten decimal digits write.
fn number_in(octets: &[u8]) -> Option<u64>
    requires { length octets.now ≤ 10 }
    ensures { SomeIff result (AllDigits 10 octets.now) (digits_value 10 octets.now) }
{
    let mut number = 0;
    for i in 0..octets.len() {
        let digit = (octets[i] as char).to_digit(10)?;
        number = number * 10 + digit as u64;
    }
    Some(number)
}
