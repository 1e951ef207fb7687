//! What memory has of messages and parts between two events.
ghost use Rattle.std.specs.Prelude.{◌≡◌, [], ℕ, ◌+◌, ◌*◌, ◌≤◌, true, List, IfOk, length, max};
ghost use Rattle.std.specs.List.Sorted.{IsNonDecreasing};
ghost use Rattle.sms_centre_messages.specs.message_index.MessageIndex.{Applies, CoversPast, FitsTheMessages, HasRoomFor, Represents, IsStaleFirst, Matches};
ghost use Rattle.sms_centre_messages.specs.message_index.MessageIndex.{Notes, PutsIn, TakesInMessages, is_ended, past_entry_id, past_id};
ghost use Rattle.sms_centre_rows.specs.messages.Messages.{message_at, message_key, next_id};
ghost use Rattle.sms_centre_rows.specs.declared.messages.message.MessageRow.{MessageRow as MessageRowOf};
ghost use Rattle.sms_centre_rows.specs.declared.messages.part.PartRow.{PartRow as PartRowOf};
ghost use Rattle.sms_rows.specs.interning.Interning.{Suffices};
ghost use Rattle.sms_rows.specs.table.Table.{all_applied};
ghost use Rattle.sms_rows.specs.table.TableDraft.{FitsIn};

use crate::message_index::message_entry::MessageEntry;
use crate::message_index::names::{Names, NamesReserve};
use crate::message_index::parts_draft::{PartsPlan, adopt_parts};
use sms_base::{Listed, MessageId, Moment};
use sms_centre_rows::messages::{MessageRow, PartEntry};
use sms_rows::expiry::{Deadline, Deadlines, DeadlinesReserve};
use sms_rows::table::{Change, Key, RollingTable, TableReserve, are_removals};
use std::alloc::{AllocError, Global};
use std::marker::Model;

/// The messages, their parts without TPDUs, and the deadlines of those that are pending.
#[derive(Drop)]
pub struct MessageIndex {
    pub(crate) names: Names,
    pub(crate) messages: RollingTable<MessageEntry>,
    pub(crate) parts: RollingTable<PartEntry>,
    pub(crate) deadlines: Deadlines,
}

impl Model for MessageIndex {
    ghost use Rattle.sms_centre_messages.specs.message_index.MessageIndex.{MessageIndexOf};

    ghost Value = { MessageIndexOf };

    ghost view = { λ k. record { names = k.names; messages = k.messages; parts = k.parts; deadlines = k.deadlines } };
}

/// Memory for what an event brings, which is put in with its changes.
#[derive(Drop)]
pub struct MessageIndexReserve {
    parts: PartsPlan,
    names: NamesReserve,
    rows: RowsReserve,
}

// Memory for messages and deadlines.
#[derive(Drop)]
struct RowsReserve {
    messages: TableReserve<MessageEntry>,
    deadlines: DeadlinesReserve,
}

impl Model for MessageIndexReserve {
    ghost use Rattle.sms_centre_messages.specs.message_index.MessageIndex.{MessageIndexReserveOf};

    ghost Value = { MessageIndexReserveOf };

    ghost view = { λ s. record {
      parts = s.parts;
      messages = s.rows.messages;
      numbers = s.names.numbers;
      accounts = s.names.accounts;
      deadlines = s.rows.deadlines;
    } };
}

impl MessageIndex {
    /// No messages.
    pub fn new(alloc: Global) -> MessageIndex
        ensures { Represents result [] [] }
    {
        let names = Names::new(alloc);
        let messages = RollingTable::new(alloc);
        let parts = RollingTable::new(alloc);
        let deadlines = Deadlines::new(alloc);
        MessageIndex {
            names,
            messages,
            parts,
            deadlines,
        }
    }

    /// The number of the next message.
    pub fn next_id(&self) -> u64
        ensures { (ms : List MessageRowOf) (ps : List PartRowOf) → Represents self.now ms ps → result ≡ next_id ms }
    {
        match self.messages.last() {
            Some(entry) => entry.id.number() + 1,
            None => 1,
        }
    }

    /// The message of that number, in memory of its own.
    pub fn find(&self, alloc: Global, id: MessageId) -> Result<Option<MessageRow>, AllocError>
        ensures { (ms : List MessageRowOf) (ps : List PartRowOf) → Represents self.now ms ps → IfOk result (λ row. row ≡ message_at id ms) }
    {
        match self.messages.find(Key::of(id.number())) {
            Some(entry) => self.names.row(alloc, entry),
            None => Ok(None),
        }
    }

    /// The numbers of messages whose time has ended, in order, those of all pending ones among them. A number may be
    /// there twice, and so may that of a message that ended. It costs a logarithm for each.
    pub fn past(&self, alloc: Global, now: Moment) -> Result<Vec<u64>, AllocError>
        ensures all { (ms : List MessageRowOf) (ps : List PartRowOf) → Represents self.now ms ps → IfOk result (λ numbers. CoversPast now ms numbers.items) }
        ensures order { IfOk result (λ numbers. IsNonDecreasing numbers.items) }
    {
        let numbers = self.deadlines.past(alloc, now)?;
        Ok(numbers)
    }

    /// The message of that number, if it is pending and its time has ended.
    pub fn past_id(&self, number: u64, now: Moment) -> Option<MessageId>
        ensures { (ms : List MessageRowOf) (ps : List PartRowOf) → Represents self.now ms ps → result ≡ past_id now (message_at number ms) }
    {
        match self.messages.find(Key::of(number)) {
            Some(entry) => past_entry(entry, now),
            None => None,
        }
    }

    /// Memory for that many changes of messages and those of parts.
    pub(crate) fn make_reserve(
        &self,
        alloc: Global,
        changes: usize,
        parts: PartsPlan,
    ) -> Result<MessageIndexReserve, AllocError>
        ensures fits { IfOk result (λ reserve. FitsIn parts self.now.parts → FitsTheMessages reserve changes self.now) }
        ensures parts { IfOk result (λ reserve. reserve.parts ≡ parts) }
    {
        match self.names.make_reserve(alloc, changes) {
            Ok(names) => self.with_rows(alloc, changes, parts, names),
            Err(error) => {
                drop(parts);
                Err(error)
            }
        }
    }

    // The same with the memory for names.
    fn with_rows(
        &self,
        alloc: Global,
        changes: usize,
        parts: PartsPlan,
        names: NamesReserve,
    ) -> Result<MessageIndexReserve, AllocError>
        requires numbers { Suffices (2 * changes) names.numbers self.now.names.numbers }
        requires accounts { Suffices changes names.accounts self.now.names.accounts }
        ensures fits { IfOk result (λ reserve. FitsIn parts self.now.parts → FitsTheMessages reserve changes self.now) }
        ensures parts { IfOk result (λ reserve. reserve.parts ≡ parts) }
    {
        match self.make_rows_reserve(alloc, changes) {
            Ok(rows) => Ok(MessageIndexReserve { parts, names, rows }),
            Err(error) => {
                drop(parts);
                drop(names);
                Err(error)
            }
        }
    }

    // Memory for that many messages and deadlines more.
    fn make_rows_reserve(&self, alloc: Global, extra: usize) -> Result<RowsReserve, AllocError>
        ensures messages { IfOk result (λ reserve. length self.now.messages.rows + extra ≤ max self.now.messages.capacity reserve.messages) }
        ensures deadlines { IfOk result (λ reserve. length self.now.deadlines.items + extra ≤ max self.now.deadlines.capacity reserve.deadlines) }
    {
        let messages = self.messages.make_reserve(alloc, extra)?;
        match self.deadlines.make_reserve(alloc, extra) {
            Ok(deadlines) => Ok(RowsReserve {
                messages,
                deadlines,
            }),
            Err(error) => {
                drop(messages);
                Err(error)
            }
        }
    }

    // Takes the memory in, and the changes of parts.
    fn take_in(&mut self, reserve: MessageIndexReserve)
        requires { FitsIn reserve.parts self.old.parts }
        ensures { TakesInMessages reserve self.old self.new }
    {
        self.names.use_reserve(reserve.names);
        self.messages.use_reserve(reserve.rows.messages);
        self.deadlines.use_reserve(reserve.rows.deadlines);
        adopt_parts(&mut self.parts, reserve.parts);
    }

    // A message is put behind the others, or takes the place of that of its number.
    fn put(&mut self, row: MessageRow)
        requires { HasRoomFor 1 self.old }
        ensures { PutsIn row self.old self.new }
    {
        self.note(&row);
        let entry = self.names.entry_ready(row);
        self.messages.put_ready(entry);
    }

    // The deadline of a message that is pending.
    fn note(&mut self, row: &MessageRow)
        requires { length self.old.deadlines.items + 1 ≤ self.old.deadlines.capacity }
        ensures { Notes row.now self.old self.new }
    {
        if row.state.is_none() {
            self.deadlines.push_ready(Deadline {
                limit: row.limit,
                id: row.id,
            });
        }
    }

    fn apply(&mut self, change: Change<MessageRow>)
        requires { HasRoomFor 1 self.old }
        ensures { Applies change self.old self.new }
    {
        match change {
            Change::Put(row) => self.put(row),
            Change::Remove(key) => {
                self.messages.remove(key);
            }
        }
    }

    // Whether the first deadline is that of a message that ended.
    fn is_stale(&self, deadline: &Deadline) -> bool
        ensures { (ms : List MessageRowOf) (ps : List PartRowOf) → Represents self.now ms ps → result ≡ true → is_ended (message_at deadline.now.id ms) ≡ true }
    {
        match self.messages.find(Key::of(deadline.id.number())) {
            Some(entry) => entry.state.is_some(),
            None => true,
        }
    }

    // Whether the first deadline is that of a message that ended.
    fn has_stale_first(&self) -> bool
        ensures { (ms : List MessageRowOf) (ps : List PartRowOf) → Represents self.now ms ps → result ≡ true → IsStaleFirst ms self.now }
    {
        match self.deadlines.first() {
            Some(first) => self.is_stale(&first),
            None => false,
        }
    }

    // The first deadline is removed, if it is that of a message that ended.
    fn drop_stale_first(&mut self) -> bool
        ensures { (ms : List MessageRowOf) (ps : List PartRowOf) → Represents self.old ms ps → Represents self.new ms ps }
    {
        if self.has_stale_first() {
            self.deadlines.drop_first();
            return true;
        }
        false
    }

    // Deadlines of messages that ended are removed, as far as they are first.
    fn drop_stale(&mut self)
        ensures { (ms : List MessageRowOf) (ps : List PartRowOf) → Represents self.old ms ps → Represents self.new ms ps }
    {
        for _turn in 0..u64::MAX {
            if !self.drop_stale_first() {
                return;
            }
        }
    }

    // Carries the changes out in their order. Removals alone go one by one where few messages stand before them, and cost
    // at most one pass.
    fn apply_all(&mut self, changes: Vec<Change<MessageRow>>)
        requires { HasRoomFor (length changes.items) self.old }
        ensures { (ms : List MessageRowOf) (ps : List PartRowOf) → Represents self.old ms ps
            → Represents self.new (all_applied message_key changes.items ms) ps }
    {
        if changes.len() < 2 {
            self.apply_each(changes);
            return;
        }
        if are_removals(changes.as_slice()) {
            self.messages.remove_all(changes.as_slice());
            drop(changes);
            return;
        }
        self.apply_each(changes);
    }

    fn apply_each(&mut self, changes: Vec<Change<MessageRow>>)
        requires { HasRoomFor (length changes.items) self.old }
        ensures { (ms : List MessageRowOf) (ps : List PartRowOf) → Represents self.old ms ps
            → Represents self.new (all_applied message_key changes.items ms) ps }
    {
        for change in changes {
            self.apply(change);
        }
    }

    /// Puts the changes in, without taking memory.
    pub fn adopt(&mut self, reserve: MessageIndexReserve, messages: Listed<Change<MessageRow>>)
        requires { FitsTheMessages reserve (length messages) self.old }
        ensures { (ms : List MessageRowOf) (ps others : List PartRowOf) → Represents self.old ms ps → Matches reserve ps others
            → Represents self.new (all_applied message_key messages ms) others }
    {
        self.take_in(reserve);
        self.apply_all(messages.into_vec());
        self.drop_stale();
    }
}

// The number of the message, if it is pending and the moment of the end of its time is reached.
fn past_entry(entry: &MessageEntry, now: Moment) -> Option<MessageId>
    ensures { result ≡ past_entry_id now entry.now }
{
    if entry.state.is_none() && entry.limit <= now {
        Some(entry.id)
    } else {
        None
    }
}
