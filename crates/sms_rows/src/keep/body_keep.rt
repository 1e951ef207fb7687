//! Stores that give bodies.
ghost use Rattle.std.specs.Prelude.{◌≡◌, ℕ, List, Option};
ghost use Rattle.sms_rows.specs.keep.StoreOutcome.{IsReadCounted, StoreOutcome, WasHonest};

use crate::keep::RowStore;
use crate::keep::error::KeepError;
use crate::table::Key;
use sms_base::Octets;

/// A store that gives the octets that one row carries, so that a core needs not hold them.
pub trait BodyKeep: RowStore {
    /// The octets of the row of each key, where there is one.
    ghost body_of: { Self.Rows → ℕ → Option (List ℕ) };

    /// The octets of the row of that key, if there is one. Reading changes none. Whatever the cause of a refusal, want of
    /// memory too, it counts, and its key is that of the read that was refused.
    fn body(&mut self, key: Key) -> Result<Option<Octets>, KeepError>
        ensures outcome { (rows : Self.Rows)
            → StoreOutcome (λ body. body ≡ body_of rows key) rows rows (Self.state self.old) (Self.state self.new) result }
        ensures before { WasHonest (Self.state self.old) (Self.state self.new) }
        ensures counted { IsReadCounted key (Self.state self.old) (Self.state self.new) result };
}
