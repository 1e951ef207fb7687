//! The references that stay barred once their messages are forgotten.
ghost use Rattle.std.specs.Prelude.{◌≡◌, ◌+◌, ◌∷◌, [], ℕ, List, IfOk, IsOk, OnOk};
ghost use Rattle.sms_centre_messages.specs.references.Moves.{HasBarRoom};
ghost use Rattle.sms_centre_messages.specs.references.ReferenceIndex.{Barred, Represents};
ghost use Rattle.sms_centre_rows.specs.messages.Bars.{is_barred, next_bar};
ghost use Rattle.sms_centre_rows.specs.declared.messages.bar.BarRow.{BarRow as BarRowOf};
ghost use Rattle.sms_centre_rows.specs.declared.messages.message.MessageRow.{MessageRow as MessageRowOf};
ghost use Rattle.sms_centre_rows.specs.declared.messages.part.PartRow.{PartRow as PartRowOf};
ghost use Rattle.sms_rows.specs.declared.table.change.Change.TheVariants.{Put};

use crate::references::message_ends::MessageEnds;
use crate::references::reference_index::ReferenceIndex;
use sms_centre_rows::messages::{BarRow, Claim};
use std::alloc::AllocError;

impl ReferenceIndex {
    /// Whether a bar of a header stands for the claim.
    pub fn is_stood_for(&self, claim: &Claim) -> bool
        ensures { (bs : List BarRowOf) (ms : List MessageRowOf) (ps : List PartRowOf) → Represents self.now bs ms ps → result ≡ is_barred claim.now bs }
    {
        if !claim.is_own {
            return false;
        }
        self.own_bars.of(&MessageEnds::of(&claim.source, &claim.handset, claim.reference)) > 0
    }

    /// The place of the next bar. None past 64 bits.
    pub fn next_place(&self) -> Option<u64>
        ensures { (bs : List BarRowOf) (ms : List MessageRowOf) (ps : List PartRowOf) → Represents self.now bs ms ps → (place : ℕ)
            → result ≡ Some place → place ≡ next_bar bs }
    {
        self.last_bar.checked_add(1)
    }

    /// The bar stands behind all others.
    pub fn bar(&mut self, bar: &BarRow) -> Result<(), AllocError>
        ensures barred { OnOk result (Barred (Put bar.now ∷ []) self.old self.new) }
        ensures room { (n : ℕ) → HasBarRoom (n + 1) self.old → OnOk result (HasBarRoom n self.new) }
        ensures ready { HasBarRoom 1 self.old → IsOk result }
    {
        let key = MessageEnds::of(&bar.source, &bar.handset, bar.reference);
        if bar.is_own {
            self.own_bars.set(key, 1)?;
            self.last_bar = bar.place;
            return Ok(());
        }
        self.held_bars.set(key, 1)?;
        self.last_bar = bar.place;
        Ok(())
    }
}
