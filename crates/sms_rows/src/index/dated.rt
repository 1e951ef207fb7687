//! Rows that have a moment.
ghost use Rattle.std.specs.Prelude.{◌≡◌, ℕ};

use crate::table::Row;
use sms_base::Moment;

/// A row with a moment.
pub trait Dated: Row {
    /// The moment, as contracts see it.
    ghost moment: { Self → ℕ };

    /// The moment that the row is of.
    fn moment(&self) -> Moment
        ensures { result ≡ moment self.now };
}
