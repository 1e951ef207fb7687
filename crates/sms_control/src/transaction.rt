ghost use Rattle.std.specs.Prelude.{◌≡◌, ◌<◌, ◌%◌, ◌+◌, ℕ};
ghost use Rattle.std.specs.Option.{SomeIff};
ghost use Rattle.sms_control.specs.ControlGrammar.{head_octet, head_of, turned};

use std::marker::Model;

/// From which side of a transaction a message is (3GPP TS 24.007 11.2.3.1.3).
#[derive(Clone, Copy, PartialEq, Eq)]
pub enum TransactionFlag {
    /// The flag 0: from the side that began the transaction.
    FromOriginator,
    /// The flag 1: to the side that began the transaction.
    ToOriginator,
}

impl TransactionFlag {
    /// The flag of messages the other way.
    pub fn turned(self) -> TransactionFlag
        ensures { result ≡ turned self }
    {
        match self {
            TransactionFlag::FromOriginator => TransactionFlag::ToOriginator,
            TransactionFlag::ToOriginator => TransactionFlag::FromOriginator,
        }
    }
}

/// The number of a transaction, 0 to 6 (3GPP TS 24.007 11.2.3.1.3; 7 is reserved).
#[derive(Clone, Copy, PartialEq, Eq)]
pub struct TransactionIdentifier {
    number: u8,
}

impl Model for TransactionIdentifier {
    ghost use Rattle.std.specs.Prelude.{ℕ, ◌<◌};

    ghost Value = { ℕ };

    ghost view = { λ t. t.number };

    ghost invariant = { λ t. t.number < 7 };

    ghost inverse = { λ n. record { number = n } };
}

impl TransactionIdentifier {
    /// The first identifier, 0.
    pub fn first() -> TransactionIdentifier
        ensures { result ≡ 0 }
    {
        TransactionIdentifier { number: 0 }
    }

    /// The identifier of that number, if there is one.
    pub fn new(number: u8) -> Option<TransactionIdentifier>
        ensures { SomeIff result (number < 7) number }
    {
        if number < 7 {
            Some(TransactionIdentifier { number })
        } else {
            None
        }
    }

    /// The number, 0 to 6.
    pub fn number(self) -> u8
        ensures value { result ≡ self }
        ensures range { self < 7 }
    {
        self.number
    }

    /// The identifier after this one, around from 6 to 0.
    pub fn next(self) -> TransactionIdentifier
        ensures { result ≡ (self + 1) % 7 }
    {
        let TransactionIdentifier { number } = self;
        TransactionIdentifier {
            number: (number + 1) % 7,
        }
    }
}

/// The transaction of a message, as its first octet says.
#[derive(Clone, Copy, PartialEq, Eq)]
pub struct Transaction {
    pub flag: TransactionFlag,
    pub identifier: TransactionIdentifier,
}

impl Transaction {
    /// The transaction that the first octet of a message names, if the message is of this layer.
    pub fn of(octet: u8) -> Option<Transaction>
        ensures { result ≡ head_of octet }
    {
        if octet % 16 != 9 {
            return None;
        }
        let flag = if octet < 128 {
            TransactionFlag::FromOriginator
        } else {
            TransactionFlag::ToOriginator
        };
        match TransactionIdentifier::new(octet / 16 % 8) {
            Some(identifier) => Some(Transaction { flag, identifier }),
            None => None,
        }
    }

    /// The first octet of a message in this transaction.
    pub fn octet(self) -> u8
        ensures { result ≡ head_octet self }
    {
        let identifier = 16 * self.identifier.number() + 9;
        match self.flag {
            TransactionFlag::FromOriginator => identifier,
            TransactionFlag::ToOriginator => identifier + 128,
        }
    }

    /// The transaction with its flag turned.
    pub fn turned(self) -> Transaction
        ensures { result ≡ record { flag = turned self.flag; identifier = self.identifier } }
    {
        Transaction {
            flag: self.flag.turned(),
            identifier: self.identifier,
        }
    }
}
