//! A large value that its one owner lends.
//!
//! The owner makes a value, lends it to a closure and drops it in one place (`lend`). So no crate above proves how it
//! is dropped. `put` puts one such value in the place of another.

ghost use Rattle.std.specs.Prelude.{◌≡◌};
ghost use Rattle.std.specs.Fn.{FnOnceReturnsAtMut};

/// Lends the value to the work, gives what the work gives, and drops the value. The work can be done with that value.
pub fn lend<T: Drop, R, W: FnOnce(&mut T) -> R>(value: T, work: W) -> R
    requires { (lent : _) → lent.now ≡ value → W.pre work lent }
    ensures { (left : _) × FnOnceReturnsAtMut W.FnOnce work value result left }
{
    let mut value = value;
    work(&mut value)
}

/// Puts the value in the place of another, which is dropped as one thing, whatever it is made of.
pub fn put<T: Drop>(place: &mut T, value: T)
    ensures { place.new ≡ value }
{
    *place = value;
}
