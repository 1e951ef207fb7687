//! Claims that end with their messages, and claims of new parts.
ghost use Rattle.std.specs.Prelude.{◌≡◌, ◌+◌, ◌<◌, ◌≤◌, ℕ, List, Some, true, IsOk, OnOk};
ghost use Rattle.sms_centre_messages.specs.references.ReferenceIndex.{AreFew, BringsOwn, Brought, Ended, Represents, HoldsLess, PendsLess, SameBars};
ghost use Rattle.sms_centre_messages.specs.references.ReferenceIndex.{still};
ghost use Rattle.sms_centre_messages.specs.references.Moves.{HasRoomFor};
ghost use Rattle.sms_centre_rows.specs.messages.Messages.{ended, is_pending, message_at, message_key, part_key};
ghost use Rattle.sms_centre_rows.specs.messages.SplitReferences.{unless_split, wide_in, wide_reference};
ghost use Rattle.sms_centre_rows.specs.declared.messages.bar.BarRow.{BarRow as BarRowOf};
ghost use Rattle.sms_centre_rows.specs.declared.messages.message.MessageRow.{MessageRow as MessageRowOf};
ghost use Rattle.sms_centre_rows.specs.declared.messages.part.PartRow.{PartRow as PartRowOf};
ghost use Rattle.sms_rows.specs.table.Table.{Rises, put, row_at};

use crate::references::counts::Counts;
use crate::references::message_ends::MessageEnds;
use crate::references::reference_index::ReferenceIndex;
use sms_base::{FinalState, Originator};
use sms_centre_rows::messages::{MessageRow, is_delivered};
use sms_concat::{ConcatKey, ConcatReference};
use std::alloc::AllocError;

impl ReferenceIndex {
    /// A message that is pending ends so. The row is the one before its end, or the one after it.
    pub fn end(&mut self, row: &MessageRow, state: FinalState)
        ensures holds { (bs : List BarRowOf) (ms : List MessageRowOf) (ps : List PartRowOf) (m : MessageRowOf) (moment : ℕ)
            → Represents self.old bs ms ps → Rises message_key ms
            → message_at m.id ms ≡ Some m → is_pending m ≡ true
            → still row.now ≡ still m → Represents self.new bs (put message_key (ended state moment m) ms) ps }
        ensures room { (n p : ℕ) → HasRoomFor (n + 1) p self.old → HasRoomFor n p self.new }
        ensures bars { SameBars self.old self.new }
    {
        self.count_out(row, state);
    }

    // What the message lets go.
    fn count_out(&mut self, row: &MessageRow, state: FinalState)
        ensures ended { Ended (still row.now) state self.old self.new }
        ensures room { (n p : ℕ) → HasRoomFor (n + 1) p self.old → HasRoomFor n p self.new }
    {
        drop_held(&mut self.held, row, state);
        drop_pending(&mut self.pending, row);
    }

    /// Adds a part of that message, with that key.
    pub fn bring(&mut self, message: &MessageRow, key: &Option<ConcatKey>) -> Result<(), AllocError>
        ensures holds { (bs : List BarRowOf) (ms : List MessageRowOf) (ps : List PartRowOf) (p : PartRowOf) → Represents self.old bs ms ps → Rises part_key ps
            → message_at p.id ms ≡ Some message.now → p.key ≡ key.now
            → row_at part_key (part_key p) ps ≡ None → AreFew ms ps → OnOk result (Represents self.new bs ms (put part_key p ps)) }
        ensures room { (n p : ℕ) → HasRoomFor n (p + 1) self.old → OnOk result (HasRoomFor n p self.new) }
        ensures ready { HasRoomFor 0 1 self.old → IsOk result }
        ensures bars { OnOk result (SameBars self.old self.new) }
    {
        self.count_part(message, key)?;
        Ok(())
    }

    // What the part brings.
    fn count_part(
        &mut self,
        message: &MessageRow,
        key: &Option<ConcatKey>,
    ) -> Result<(), AllocError>
        ensures brought { OnOk result (Brought message.now key.now self.old self.new) }
        ensures room { (n p : ℕ) → HasRoomFor n (p + 1) self.old → OnOk result (HasRoomFor n p self.new) }
        ensures ready { HasRoomFor 0 1 self.old → IsOk result }
    {
        count_own(&mut self.own, message, key)?;
        Ok(())
    }
}

// The reference that it held, where it is wholly delivered.
fn drop_held(held: &mut Counts, row: &MessageRow, state: FinalState)
    ensures less { HoldsLess (still row.now) state held.old held.new }
    ensures room { held.old.room ≤ held.new.room + 1 }
{
    let Some(reference) = row.split_reference else {
        return;
    };
    if !is_delivered(Some(state)) {
        return;
    }
    held.take(MessageEnds::of(&row.source, &row.handset, reference));
}

// The TP-MR of a handset's message.
fn drop_pending(pending: &mut Counts, row: &MessageRow)
    ensures less { PendsLess (still row.now) pending.old pending.new }
    ensures room { pending.old.room ≤ pending.new.room + 1 }
{
    if let Originator::Handset { message_reference } = &row.originator {
        pending.take(MessageEnds::of_digits(
            &row.source.digits,
            &row.handset,
            u16::from(*message_reference),
        ));
    }
}

// The 16-bit reference that was submitted with the message.
pub(crate) fn own_reference(message: &MessageRow, key: &Option<ConcatKey>) -> Option<u16>
    ensures { result ≡ unless_split message.now.split_reference (wide_in key.now) }
{
    if message.split_reference.is_some() {
        return None;
    }
    match key {
        Some(key) => wide(&key.reference),
        None => None,
    }
}

fn wide(reference: &ConcatReference) -> Option<u16>
    ensures { result ≡ wide_reference reference.now }
{
    match reference {
        ConcatReference::EightBit(_) => None,
        ConcatReference::SixteenBit(reference) => Some(*reference),
    }
}

fn count_own(
    own: &mut Counts,
    message: &MessageRow,
    key: &Option<ConcatKey>,
) -> Result<(), AllocError>
    ensures more { OnOk result (BringsOwn message.now key.now own.old own.new) }
    ensures room { OnOk result (own.old.room ≤ own.new.room + 1) }
    ensures ready { 0 < own.old.room → IsOk result }
{
    let Some(reference) = own_reference(message, key) else {
        return Ok(());
    };
    own.add(MessageEnds::of(&message.source, &message.handset, reference))?;
    Ok(())
}
