//! Digits as the key of a set.
ghost use Rattle.std.specs.Cmp.Rules.{comparing, hashing};
ghost use Rattle.std.specs.Hash as fed;
ghost use Rattle.std.specs.Str.{bytes_eq};
ghost use Rattle.std.proofs.Common.{rules};

use sms_base::Digits;
use std::hash::{Hash, Hasher};

/// A number or a name as a key, distinguished from others by its characters.
#[derive(Clone, Copy, Drop)]
pub struct Number {
    /// The number's characters.
    pub digits: Digits,
}

impl PartialEq for Number {
    ghost eq = { λ a b. bytes_eq a.digits b.digits };

    ghost laws = { Prim.search (comparing, rules) };

    fn eq(&self, other: &Number) -> bool {
        self.digits.as_slice() == other.digits.as_slice()
    }
}

impl Eq for Number {
    ghost laws = { Prim.search (comparing, rules) };
}

impl Hash for Number {
    ghost hash_input = { λ a. fed.slice fed.char a.digits };

    ghost respects_eq = { Prim.search (hashing, rules) };

    fn hash<H: Hasher>(&self, state: &mut H) {
        self.digits.as_slice().hash(state);
    }
}
