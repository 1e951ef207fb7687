//! What an event leaves, put in without taking memory.
ghost use Rattle.std.specs.Prelude.{◌≡◌, ◌+◌, ◌∷◌, [], ℕ, List, Some, None, length};
ghost use Rattle.sms_centre_messages.specs.references.ReferenceIndex.{AreFew, Barred, IsNewest, Represents, SameBars};
ghost use Rattle.sms_centre_messages.specs.references.Moves.{AreMoves, ArePartMoves, ArePartRemovals, AreRemovals, FitsTheReferences, HasBarRoom, HasRoomFor, IsMove};
ghost use Rattle.sms_centre_messages.specs.references.Moves.{IsMoveTo, IsPartMove, IsPartRemoval, IsRemoval};
ghost use Rattle.sms_centre_rows.specs.messages.Messages.{message_at, message_key, part_key, part_reaching};
ghost use Rattle.sms_rows.specs.declared.table.change.Change.TheVariants.{Put};
ghost use Rattle.sms_centre_rows.specs.declared.messages.bar.BarRow.{BarRow as BarRowOf};
ghost use Rattle.sms_centre_rows.specs.declared.messages.message.MessageRow.{MessageRow as MessageRowOf};
ghost use Rattle.sms_centre_rows.specs.declared.messages.part.PartRow.{PartRow as PartRowOf};
ghost use Rattle.sms_rows.specs.table.Table.{Rises, all_applied, applied, put, row_at};
ghost use Rattle.sms_centre_rows.specs.waiting.Revisions.{all_revised, revised};
ghost use Rattle.sms_centre_rows.specs.declared.waiting.revision.Revision.TheVariants.{Put as PutPart};

use crate::references::reference_index::ReferenceIndex;
use crate::references::reserve::ReferenceIndexReserve;
use sms_centre_rows::messages::{BarRow, MessageRow, PartRow, newest_change};
use sms_centre_rows::waiting::Revision;
use sms_rows::table::{Change, Key};

impl ReferenceIndex {
    /// Puts the changes of messages, of parts and of bars in, without taking memory. A pending message is new, behind all
    /// others; one that has an end was pending before. A part is new with its message. Changes that only take out leave all
    /// claims as they are: what was claimed stays barred.
    pub fn adopt(
        &mut self,
        reserve: ReferenceIndexReserve,
        messages: &[Change<MessageRow>],
        parts: &[Revision<PartRow>],
        bars: &[Change<BarRow>],
    )
        requires { FitsTheReferences reserve (length messages.now) (length parts.now) (length bars.now) self.old }
        ensures moved { (bs : List BarRowOf) (ms : List MessageRowOf) (ps : List PartRowOf) → Represents self.old bs ms ps → Rises message_key ms
            → Rises part_key ps → bars.now ≡ [] → AreMoves messages.now ms ps
            → ArePartMoves messages.now parts.now (all_applied message_key messages.now ms) ps
            → Represents self.new bs (all_applied message_key messages.now ms) (all_revised part_key part_reaching parts.now ps) }
        ensures kept { AreRemovals messages.now → ArePartRemovals parts.now → Barred bars.now self.old self.new }
    {
        self.take_in(reserve);
        self.apply_all(messages, parts.len());
        self.apply_parts(parts, messages);
        self.apply_bars(bars);
    }

    // The bars that are put.
    fn apply_bars(&mut self, bars: &[Change<BarRow>])
        requires { HasBarRoom (length bars.now) self.old }
        ensures { Barred bars.now self.old self.new }
    {
        for change in bars {
            self.apply_bar(change);
        }
    }

    fn apply_bar(&mut self, change: &Change<BarRow>)
        requires { HasBarRoom 1 self.old }
        ensures barred { Barred (change.now ∷ []) self.old self.new }
        ensures room { (n : ℕ) → HasBarRoom (n + 1) self.old → HasBarRoom n self.new }
    {
        match change {
            Change::Put(bar) => self.put_bar(bar),
            Change::Remove(_) => (),
        }
    }

    fn put_bar(&mut self, bar: &BarRow)
        requires { HasBarRoom 1 self.old }
        ensures barred { Barred (Put bar.now ∷ []) self.old self.new }
        ensures room { (n : ℕ) → HasBarRoom (n + 1) self.old → HasBarRoom n self.new }
    {
        match self.bar(bar) {
            Ok(()) => (),
            Err(_) => (),
        }
    }

    // The changes of messages, where so many of parts are to follow.
    fn apply_all(&mut self, messages: &[Change<MessageRow>], parts: usize)
        requires { HasRoomFor (length messages.now) parts self.old }
        ensures holds { (bs : List BarRowOf) (ms : List MessageRowOf) (ps : List PartRowOf)
            → Represents self.old bs ms ps → Rises message_key ms → AreMoves messages.now ms ps
            → Represents self.new bs (all_applied message_key messages.now ms) ps }
        ensures room { HasRoomFor 0 parts self.new }
        ensures kept { AreRemovals messages.now → self.new ≡ self.old }
        ensures bars { SameBars self.old self.new }
    {
        for change in messages {
            self.apply(change);
        }
    }

    fn apply(&mut self, change: &Change<MessageRow>)
        requires { HasRoomFor 1 0 self.old }
        ensures holds { (bs : List BarRowOf) (ms : List MessageRowOf) (ps : List PartRowOf)
            → Represents self.old bs ms ps → Rises message_key ms → IsMove change.now ms ps
            → Represents self.new bs (applied message_key change.now ms) ps }
        ensures room { (n p : ℕ) → HasRoomFor (n + 1) p self.old → HasRoomFor n p self.new }
        ensures kept { IsRemoval change.now → self.new ≡ self.old }
        ensures bars { SameBars self.old self.new }
    {
        if let Change::Put(row) = change {
            self.put(row);
        }
    }

    fn put(&mut self, row: &MessageRow)
        requires { HasRoomFor 1 0 self.old }
        ensures holds { (bs : List BarRowOf) (ms : List MessageRowOf) (ps : List PartRowOf)
            → Represents self.old bs ms ps → Rises message_key ms → IsMoveTo row.now.state row.now ms ps
            → Represents self.new bs (put message_key row.now ms) ps }
        ensures room { (n p : ℕ) → HasRoomFor (n + 1) p self.old → HasRoomFor n p self.new }
        ensures bars { SameBars self.old self.new }
    {
        match row.state {
            None => self.enter_ready(row),
            Some(state) => self.end(row, state),
        }
    }

    fn enter_ready(&mut self, row: &MessageRow)
        requires { HasRoomFor 1 0 self.old }
        ensures holds { (bs : List BarRowOf) (ms : List MessageRowOf) (ps : List PartRowOf)
            → Represents self.old bs ms ps → IsNewest row.now ms ps → AreFew ms ps
            → Represents self.new bs (put message_key row.now ms) ps }
        ensures room { (n p : ℕ) → HasRoomFor (n + 1) p self.old → HasRoomFor n p self.new }
        ensures bars { SameBars self.old self.new }
    {
        match self.enter(row) {
            Ok(()) => (),
            Err(_) => (),
        }
    }

    // The changes of parts, whose messages were put by the others.
    fn apply_parts(&mut self, parts: &[Revision<PartRow>], messages: &[Change<MessageRow>])
        requires { HasRoomFor 0 (length parts.now) self.old }
        ensures moved { (bs : List BarRowOf) (base ms : List MessageRowOf) (ps : List PartRowOf) → ms ≡ all_applied message_key messages.now base
            → Represents self.old bs ms ps
            → Rises part_key ps → ArePartMoves messages.now parts.now ms ps
            → Represents self.new bs ms (all_revised part_key part_reaching parts.now ps) }
        ensures kept { ArePartRemovals parts.now → self.new ≡ self.old }
        ensures bars { SameBars self.old self.new }
    {
        for revision in parts {
            self.apply_part(revision, messages);
        }
    }

    fn apply_part(&mut self, revision: &Revision<PartRow>, messages: &[Change<MessageRow>])
        requires { HasRoomFor 0 1 self.old }
        ensures holds { (bs : List BarRowOf) (base ms : List MessageRowOf) (ps : List PartRowOf) → ms ≡ all_applied message_key messages.now base
            → Represents self.old bs ms ps
            → Rises part_key ps
            → IsPartMove messages.now revision.now ms ps → Represents self.new bs ms (revised part_key part_reaching revision.now ps) }
        ensures room { (n : ℕ) → HasRoomFor 0 (n + 1) self.old → HasRoomFor 0 n self.new }
        ensures kept { IsPartRemoval revision.now → self.new ≡ self.old }
        ensures bars { SameBars self.old self.new }
    {
        match revision {
            Revision::Put(part) => self.put_part(part, messages),
            Revision::Amend { .. } => (),
            Revision::Remove(_) => (),
        }
    }

    fn put_part(&mut self, part: &PartRow, messages: &[Change<MessageRow>])
        requires { HasRoomFor 0 1 self.old }
        ensures holds { (bs : List BarRowOf) (base ms : List MessageRowOf) (ps : List PartRowOf) → ms ≡ all_applied message_key messages.now base
            → Represents self.old bs ms ps
            → Rises part_key ps
            → IsPartMove messages.now (PutPart part.now) ms ps → Represents self.new bs ms (put part_key part.now ps) }
        ensures room { (n : ℕ) → HasRoomFor 0 (n + 1) self.old → HasRoomFor 0 n self.new }
        ensures bars { SameBars self.old self.new }
    {
        if let Some(Change::Put(message)) = newest_change(messages, Key::of(part.id.number())) {
            self.bring_ready(message, part);
        }
    }

    fn bring_ready(&mut self, message: &MessageRow, part: &PartRow)
        requires { HasRoomFor 0 1 self.old }
        ensures holds { (bs : List BarRowOf) (ms : List MessageRowOf) (ps : List PartRowOf) → Represents self.old bs ms ps → Rises part_key ps
            → message_at part.now.id ms ≡ Some message.now
            → row_at part_key (part_key part.now) ps ≡ None → AreFew ms ps → Represents self.new bs ms (put part_key part.now ps) }
        ensures room { (n : ℕ) → HasRoomFor 0 (n + 1) self.old → HasRoomFor 0 n self.new }
        ensures bars { SameBars self.old self.new }
    {
        match self.bring(message, &part.key) {
            Ok(()) => (),
            Err(_) => (),
        }
    }
}
