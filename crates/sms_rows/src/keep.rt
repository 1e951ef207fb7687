//! What a core wants of a store, whatever the store is.
//!
//! A `RowStore` has rows, as contracts see them. A `Keep` has all rows of one side. It takes the changes of one event at a
//! time, all of them or none. A `BodyKeep` gives the octets of one row, so that a core needs not hold them. A refused
//! call leaves the rows unchanged, or closes the store. A stop inside a call leaves the rows from before it or from
//! after it. By `Refusals` contracts see how many calls a store refused, and which read.
ghost use Rattle.std.specs.Prelude.{◌≡◌, ◌≢◌, ◌⊎◌, ⊤, Err, IfErr};
ghost use Rattle.sms_rows.specs.keep.KeepState.{KeepState};
ghost use Rattle.sms_rows.specs.keep.StoreOutcome.{IfHeld, IsCounted, StoreOutcome, WasHonest};
ghost use Rattle.sms_rows.specs.declared.keep.error.KeepError.TheVariants.{NotThisStore, OldVersion};

mod body_keep;
mod error;
pub mod laws;
mod refusals;

pub use body_keep::BodyKeep;
pub use error::KeepError;
pub use refusals::Refusals;

/// Rows in some store. Its laws hold as long as it is honest: the store returns what was written.
pub trait RowStore {
    /// All that is kept, with the setup, which is handed in and not stored.
    type Rows: Drop;

    /// What contracts see of it: whether it is honest so far, the rows that it has, and whether it is closed. They see the
    /// calls that it refused, too.
    ghost state: { Self → KeepState Self.Rows };
}

/// The rows of one side, in some store that takes the changes of events.
///
/// `may_leave` says what a stop inside a call leaves: a machine that stops there leaves what a failed call may leave.
pub trait Keep: RowStore {
    /// What an event changes of it.
    type Changes;

    /// The rows after the changes.
    ghost after: { Self.Changes → Self.Rows → Self.Rows };

    /// The rows that may be there if the machine stops at this moment.
    ghost may_leave: { Self → Self.Rows → Type 0 };

    /// Makes the changes, all of them or none.
    fn commit(&mut self, changes: &Self::Changes) -> Result<(), KeepError>
        ensures outcome { (rows : Self.Rows) → StoreOutcome (λ done. ⊤) rows (after changes.now rows) (Self.state self.old) (Self.state self.new) result }
        ensures stop { (rows : Self.Rows) → IfHeld rows (Self.state self.old) (Self.state self.new) ((left : Self.Rows) → may_leave self.new left
            → (left ≡ rows) ⊎ (left ≡ after changes.now rows)) }
        ensures named { IfErr result (λ error. (error ≢ OldVersion) × (error ≢ NotThisStore)) }
        ensures before { WasHonest (Self.state self.old) (Self.state self.new) }
        ensures counted { IsCounted (Self.state self.old) (Self.state self.new) result };

    /// The rows after all commits, each list in the order of its keys.
    fn load(&mut self) -> Result<Self::Rows, KeepError>
        ensures outcome { (rows : Self.Rows) → StoreOutcome (λ found. found ≡ rows) rows rows (Self.state self.old) (Self.state self.new) result }
        ensures stop { (rows : Self.Rows)
            → IfHeld rows (Self.state self.old) (Self.state self.new) ((left : Self.Rows) → may_leave self.new left → left ≡ rows) }
        ensures back { (rows : Self.Rows) → IfHeld rows (Self.state self.old) (Self.state self.new) (result ≢ Err NotThisStore) }
        ensures named { IfErr result (λ error. error ≢ OldVersion) }
        ensures before { WasHonest (Self.state self.old) (Self.state self.new) }
        ensures counted { IsCounted (Self.state self.old) (Self.state self.new) result };
}
