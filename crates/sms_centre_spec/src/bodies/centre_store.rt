//! The store of a centre.
ghost use Rattle.std.specs.Prelude.{◌≡◌, ◌≢◌, Err, IfErr, OnOk};
ghost use Rattle.sms_rows.specs.declared.keep.error.KeepError.TheVariants.{NotThisStore, OldVersion};
ghost use Rattle.sms_centre_spec.specs.declared.rows.Rows.{Rows as RowsOf};
ghost use Rattle.sms_rows.specs.keep.StoreOutcome.{IfHeld, IsCounted, StoreOutcome, WasHonest};
ghost use Rattle.sms_centre_spec.specs.bodies.Storing.{GivesBodies, IfClosed, MakesTheChanges};

use crate::{Changes, Rows};
use sms_rows::keep::{BodyKeep, Keep, KeepError};

/// A keep of a centre's rows, which can be asked for them once more after a refused commit.
pub trait CentreStore: Keep<Rows = Rows, Changes = Changes> + BodyKeep {
    /// The rows after all commits. A keep that was closed refuses.
    fn gather(&mut self) -> Result<Rows, KeepError>
        ensures outcome { (rows : RowsOf) → StoreOutcome (λ found. found ≡ rows) rows rows (Self.state self.old) (Self.state self.new) result }
        ensures closed { IfClosed (Self.state self.old) (Self.state self.new) (OnOk result ⊥) }
        ensures back { (rows : RowsOf) → IfHeld rows (Self.state self.old) (Self.state self.new) (result ≢ Err NotThisStore) }
        ensures named { IfErr result (λ error. error ≢ OldVersion) }
        ensures before { WasHonest (Self.state self.old) (Self.state self.new) }
        ensures counted { IsCounted (Self.state self.old) (Self.state self.new) result };

    /// A commit makes of the rows what a centre's changes make of them.
    ghost makes: { MakesTheChanges Self.after };

    /// Of sound rows it gives each TPDU that a centre asks for.
    ghost stores: { GivesBodies Self.body_of };
}
