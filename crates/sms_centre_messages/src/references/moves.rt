//! Claims that are new or end.
ghost use Rattle.std.specs.Prelude.{◌≡◌, ◌+◌, ◌<◌, ◌≤◌, ℕ, List, IsOk, OnOk};
ghost use Rattle.sms_centre_messages.specs.references.ReferenceIndex.{AreFew, IsNewest, Entered, GivesLast, Represents, HoldsMore, PendsMore, SameBars};
ghost use Rattle.sms_centre_messages.specs.references.Moves.{HasRoomFor};
ghost use Rattle.sms_centre_rows.specs.messages.Messages.{message_key};
ghost use Rattle.sms_centre_rows.specs.declared.messages.bar.BarRow.{BarRow as BarRowOf};
ghost use Rattle.sms_centre_rows.specs.declared.messages.message.MessageRow.{MessageRow as MessageRowOf};
ghost use Rattle.sms_centre_rows.specs.declared.messages.part.PartRow.{PartRow as PartRowOf};
ghost use Rattle.sms_rows.specs.table.Table.{put};

use crate::references::counts::Counts;
use crate::references::message_ends::MessageEnds;
use crate::references::reference_index::ReferenceIndex;
use sms_base::Originator;
use sms_centre_rows::messages::{MessageRow, is_delivered};
use std::alloc::AllocError;

impl ReferenceIndex {
    /// Adds a message behind all others, with no parts yet.
    pub fn enter(&mut self, row: &MessageRow) -> Result<(), AllocError>
        ensures holds { (bs : List BarRowOf) (ms : List MessageRowOf) (ps : List PartRowOf)
            → Represents self.old bs ms ps → IsNewest row.now ms ps → AreFew ms ps
            → OnOk result (Represents self.new bs (put message_key row.now ms) ps) }
        ensures room { (n p : ℕ) → HasRoomFor (n + 1) p self.old → OnOk result (HasRoomFor n p self.new) }
        ensures ready { HasRoomFor 1 0 self.old → IsOk result }
        ensures bars { OnOk result (SameBars self.old self.new) }
    {
        self.count_in(row)?;
        Ok(())
    }

    // What the message lays claim to.
    fn count_in(&mut self, row: &MessageRow) -> Result<(), AllocError>
        ensures entered { OnOk result (Entered row.now self.old self.new) }
        ensures room { (n p : ℕ) → HasRoomFor (n + 1) p self.old → OnOk result (HasRoomFor n p self.new) }
        ensures ready { HasRoomFor 1 0 self.old → IsOk result }
    {
        count_held(&mut self.held, row)?;
        note_last(&mut self.last, row)?;
        count_pending(&mut self.pending, row)?;
        Ok(())
    }
}

// The reference that it holds.
fn count_held(held: &mut Counts, row: &MessageRow) -> Result<(), AllocError>
    ensures more { OnOk result (HoldsMore row.now held.old held.new) }
    ensures room { OnOk result (held.old.room ≤ held.new.room + 1) }
    ensures ready { 0 < held.old.room → IsOk result }
{
    let Some(reference) = row.split_reference else {
        return Ok(());
    };
    if is_delivered(row.state) {
        return Ok(());
    }
    held.add(MessageEnds::of(&row.source, &row.handset, reference))?;
    Ok(())
}

// The reference that was given last.
fn note_last(last: &mut Counts, row: &MessageRow) -> Result<(), AllocError>
    ensures gives { OnOk result (GivesLast row.now last.old last.new) }
    ensures room { OnOk result (last.old.room ≤ last.new.room + 1) }
    ensures ready { 0 < last.old.room → IsOk result }
{
    let Some(reference) = row.split_reference else {
        return Ok(());
    };
    let code = code_of(reference);
    last.set(MessageEnds::of(&row.source, &row.handset, 0), code)?;
    Ok(())
}

// How a reference that was given is stored: as one more.
fn code_of(reference: u16) -> u64
    ensures { result ≡ reference + 1 }
{
    u64::from(reference) + 1
}

// The TP-MR of a handset's message that is pending.
fn count_pending(pending: &mut Counts, row: &MessageRow) -> Result<(), AllocError>
    ensures more { OnOk result (PendsMore row.now pending.old pending.new) }
    ensures room { OnOk result (pending.old.room ≤ pending.new.room + 1) }
    ensures ready { 0 < pending.old.room → IsOk result }
{
    if row.state.is_some() {
        return Ok(());
    }
    match &row.originator {
        Originator::Application { .. } => Ok(()),
        Originator::Handset { message_reference } => pending.add(MessageEnds::of_digits(
            &row.source.digits,
            &row.handset,
            u16::from(*message_reference),
        )),
    }
}
