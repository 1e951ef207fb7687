//! Which of two moments is the earlier one.
ghost use Rattle.std.specs.Prelude.{◌≡◌, max, min};

use crate::moment::Moment;

/// The earlier of two moments.
pub fn earlier(one: Moment, other: Moment) -> Moment
    ensures { result ≡ min one other }
{
    if one.seconds() < other.seconds() {
        one
    } else {
        other
    }
}

/// The later of two moments.
pub fn later(one: Moment, other: Moment) -> Moment
    ensures { result ≡ max one other }
{
    if one.seconds() < other.seconds() {
        return other;
    }
    one
}
