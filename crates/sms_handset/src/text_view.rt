//! A text that is borrowed.
ghost use Rattle.std.specs.Prelude.{◌≡◌};
ghost use Rattle.std.specs.Str.{chars};

use std::marker::Model;

/// A text that is borrowed, seen by contracts as the list of its characters' codes.
#[derive(Drop)]
pub struct TextView<'a> {
    text: &'a str,
}

impl<'a> Model for TextView<'a> {
    ghost use Rattle.std.specs.Prelude.{ℕ, List};
    ghost use Rattle.std.specs.Str.{chars};

    ghost Value = { List ℕ };

    ghost view = { λ t. chars t.text.now };
}

impl<'a> TextView<'a> {
    /// A view of the text.
    pub fn of(text: &'a str) -> TextView<'a>
        ensures { result ≡ chars text.entry.now }
    {
        TextView { text }
    }

    /// The text.
    pub fn as_str(&self) -> &'a str
        ensures { chars result.now ≡ self.now }
    {
        self.text
    }
}
