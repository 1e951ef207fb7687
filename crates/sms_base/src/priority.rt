//! How urgent a message is.
ghost use Rattle.std.specs.Prelude.{◌≡◌, ◌≤◌, min};
ghost use Rattle.std.specs.Option.{SomeIff};

use std::marker::Model;

/// The priority of a message, 0 to 3, of which 3 is the most urgent (SMPP v3.4 5.2.14).
#[derive(Clone, Copy, PartialEq, Eq, PartialOrd, Ord)]
pub struct Priority {
    level: u8,
}

impl Model for Priority {
    ghost use Rattle.std.specs.Prelude.{ℕ, ◌≤◌};

    ghost Value = { ℕ };

    ghost view = { λ p. p.level };

    ghost invariant = { λ p. p.level ≤ 3 };

    ghost inverse = { λ n. record { level = n } };
}

impl Priority {
    /// The priority of what asks for none: 0.
    pub fn lowest() -> Priority
        ensures { result ≡ 0 }
    {
        Priority { level: 0 }
    }

    /// The priority of that level, unless it is above 3.
    pub fn new(level: u8) -> Option<Priority>
        ensures { SomeIff result (level ≤ 3) level }
    {
        if level > 3 {
            return None;
        }
        Some(Priority { level })
    }

    /// The priority that a priority_flag asks for; one above 3 is as 3.
    pub fn of_flag(flag: u8) -> Priority
        ensures { result ≡ min flag 3 }
    {
        Priority { level: flag.min(3) }
    }

    /// The level, 0 to 3; the greatest is offered first.
    pub fn level(self) -> u8
        ensures value { result ≡ self }
        ensures range { self ≤ 3 }
    {
        self.level
    }
}
