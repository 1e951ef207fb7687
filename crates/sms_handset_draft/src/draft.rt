//! A handset in the middle of an event: the moves of which its stages are made.
ghost use Rattle.std.specs.Prelude.{◌≡◌, ◌++◌, ◌<◌, ◌≤◌, ◌+◌, [], length, OnOk, option_copied, IfOk};
ghost use Rattle.sms_base.specs.Address.{IsAddress};
ghost use Rattle.sms_link.specs.declared.ending.Side.TheVariants.{Handset as HandsetSide};
ghost use Rattle.sms_link.specs.LinkTurn.{fired, taken};
ghost use Rattle.sms_rows.specs.table.TableDraft.{rows_in};
ghost use Rattle.sms_rows.specs.table.Table.{row_at};
ghost use Rattle.sms_handset_rows.specs.inbox.Keys.{entry_key, last_key};
ghost use Rattle.sms_handset_draft.specs.Draft.{begin as begin_of, draft_of, link_of, no_changes, put_counters as put_counters_of, put_entry as put_entry_of};
ghost use Rattle.sms_handset_draft.specs.Draft.{put_last as put_last_of, put_mark as put_mark_of, put_out as put_out_of, remove_entry as remove_entry_of};
ghost use Rattle.sms_handset_draft.specs.Draft.{remove_mark as remove_mark_of, remove_out as remove_out_of, reply as reply_of, room_of, rows_of, with_turn};
ghost use Rattle.sms_handset_draft.specs.Consistent.{IsConsistent};
ghost use Rattle.sms_handset_draft.specs.Outcome.{HaveRoom, outcome_in, outcome_of};
ghost use Rattle.sms_handset_rows.specs.inbox.Groups.{members as members_of};
ghost use Rattle.sms_handset_rows.specs.inbox.Slots.{slots_of, slots_taken};
ghost use Rattle.sms_handset_rows.specs.outbox.Keys.{out_key};
ghost use Rattle.sms_handset_rows.specs.inbox.OpenGroups.{open_at as open_at_of, stored_parts};

use crate::counters::Counters;
use crate::finished::Finished;
use crate::no_memory::NoMemory;
use crate::settling::settle;
use crate::stored::Stored;
use sms_base::{Address, Holder, Kind, Listed, Moment};
use sms_handset_rows::inbox::{DiscardedGroup, Entry, Group, LastAccepted, Members, OpenGroup};
use sms_handset_rows::outbox::{Notice, OutEntry};
use sms_link::{Link, Outgoing, Upward};
use sms_rows::table::{Key, Table, TableDraft};
use std::alloc::Global;
use std::marker::Model;

/// A handset in the middle of an event, over the rows as they were when it began.
#[derive(Drop)]
pub struct Draft<'a> {
    pub(crate) alloc: Global,
    pub(crate) base: &'a Stored,
    pub(crate) moment: Moment,
    pub(crate) link: Link,
    pub(crate) notices_wanted: u32,
    pub(crate) notices: Table<Notice>,
    pub(crate) is_recovered: bool,
    pub(crate) entries: TableDraft<'a, Entry>,
    pub(crate) last: TableDraft<'a, LastAccepted>,
    pub(crate) outbox: TableDraft<'a, OutEntry>,
    pub(crate) marks: TableDraft<'a, DiscardedGroup>,
    pub(crate) counters: Option<Counters>,
    /// How many slots the entries take at present.
    pub(crate) taken: u64,
    pub(crate) frames: Listed<Outgoing>,
}

impl<'a> Model for Draft<'a> {
    ghost use Rattle.sms_handset_draft.specs.Draft.{Draft as DraftOf, rows_after, rows_of};
    ghost use Rattle.sms_handset_rows.specs.inbox.Keys.{entry_key};
    ghost use Rattle.sms_handset_rows.specs.inbox.Slots.{slots_taken};
    ghost use Rattle.sms_handset_draft.specs.Consistent.{IsConsistent};
    ghost use Rattle.sms_link.specs.declared.ending.Side.TheVariants.{Handset as HandsetSide};
    ghost use Rattle.sms_rows.specs.table.Table.{all_applied};
    ghost use Rattle.std.specs.Prelude.{◌≡◌};

    ghost Value = { DraftOf };

    ghost view = { λ d. record {
      rows = rows_after
          (record { entries = d.entries.changes; last = d.last.changes; outbox = d.outbox.changes; marks = d.marks.changes; counters = d.counters })
          (rows_of d.base.now);
      moment = d.moment;
      links = d.link.links;
      under_way = d.link.under_way;
      answered = d.link.answered;
      notices_wanted = d.notices_wanted;
      notices = d.notices.rows;
      is_recovered = d.is_recovered;
      changes = record { entries = d.entries.changes; last = d.last.changes; outbox = d.outbox.changes; marks = d.marks.changes; counters = d.counters };
      frames = d.frames;
    } };

    ghost invariant = { λ d.
        IsConsistent d.base.now
        × (d.taken ≡ slots_taken (all_applied entry_key d.entries.changes d.base.now.entries.rows))
        × (d.link.side ≡ HandsetSide)
        × (d.entries.base ≡ d.base.now.entries)
        × (d.outbox.base ≡ d.base.now.outbox) };
}

impl<'a> Draft<'a> {
    /// The handset as an event begins.
    pub fn of(
        alloc: Global,
        base: &'a Stored,
        moment: Moment,
        link: Link,
        notices_wanted: u32,
        notices: Table<Notice>,
        is_recovered: bool,
    ) -> Draft<'a>
        requires consistent { IsConsistent base.now }
        requires side { link.side ≡ HandsetSide }
        ensures { result ≡ draft_of (record {
          rows = rows_of base.entry.now;
          moment = moment;
          links = link.links;
          under_way = link.under_way;
          answered = link.answered;
          notices_wanted = notices_wanted;
          notices = notices.rows;
          is_recovered = is_recovered;
        }) }
    {
        Draft {
            alloc,
            base,
            moment,
            link,
            notices_wanted,
            notices,
            is_recovered,
            entries: TableDraft::of(alloc, &base.entries),
            last: TableDraft::of(alloc, &base.last),
            outbox: TableDraft::of(alloc, &base.outbox),
            marks: TableDraft::of(alloc, &base.marks),
            counters: None,
            taken: base.taken,
            frames: Listed::new(alloc),
        }
    }

    /// Where memory is taken.
    pub fn alloc(&self) -> Global {
        self.alloc
    }

    /// The outcome of the event, with memory for the lists' new rows. `stored` is the lists with which it began, where
    /// contracts can't see any more that they are.
    pub fn finish(self, stored: &Stored) -> Result<Finished, NoMemory>
        ensures outcome { IfOk result (λ finished. outcome_in finished ≡ outcome_of self.entry) }
        ensures fits { IfOk result (λ finished. HaveRoom finished.changes (rows_of stored.now) (room_of stored.now)) }
        ensures slots { IfOk result (λ finished. finished.taken ≡ slots_taken self.entry.rows.entries) }
        ensures side { IfOk result (λ finished. finished.link.side ≡ HandsetSide) }
    {
        let Draft {
            alloc,
            base: _,
            moment,
            link,
            notices_wanted,
            notices,
            is_recovered,
            entries,
            last,
            outbox,
            marks,
            counters,
            taken,
            frames,
        } = self;
        let changes = settle(alloc, entries, last, outbox, marks, counters, stored)?;
        Ok(Finished {
            changes,
            frames,
            moment,
            link,
            notices_wanted,
            notices,
            is_recovered,
            taken,
        })
    }

    /// Adds an entry of the inbox, or replaces that of its number.
    #[tactic(auto, using(sms_rows::proofs::table::Tables::all_applied_push))]
    pub(crate) fn put_entry(&mut self, entry: Entry) -> Result<(), NoMemory>
        ensures { OnOk result (self.new ≡ put_entry_of entry self.old) }
    {
        // The call tells that the entries stand in order.
        let _in_order = self.base.entries.as_slice();
        let freed = slots_at(&self.entries, entry.number);
        let taken = retaken(self.taken, freed, entry.slots)?;
        self.entries.put(entry)?;
        self.taken = taken;
        Ok(())
    }

    #[tactic(auto, using(sms_rows::proofs::table::Tables::all_applied_push))]
    pub fn remove_entry(&mut self, number: u32) -> Result<(), NoMemory>
        ensures { OnOk result (self.new ≡ remove_entry_of number self.old) }
    {
        // The call tells that the entries stand in order.
        let _in_order = self.base.entries.as_slice();
        let freed = slots_at(&self.entries, number);
        let taken = retaken(self.taken, freed, 0)?;
        self.entries.remove(Key::of(u64::from(number)))?;
        self.taken = taken;
        Ok(())
    }

    #[tactic(auto, using(sms_rows::proofs::table::Tables::all_applied_push))]
    pub fn put_last(&mut self, last: LastAccepted) -> Result<(), NoMemory>
        ensures { OnOk result (self.new ≡ put_last_of last self.old) }
    {
        self.last.put(last)?;
        Ok(())
    }

    #[tactic(auto, using(sms_rows::proofs::table::Tables::all_applied_push))]
    pub fn put_out(&mut self, entry: OutEntry) -> Result<(), NoMemory>
        ensures { OnOk result (self.new ≡ put_out_of entry self.old) }
    {
        self.outbox.put(entry)?;
        Ok(())
    }

    #[tactic(auto, using(sms_rows::proofs::table::Tables::all_applied_push))]
    pub fn remove_out(&mut self, number: u32) -> Result<(), NoMemory>
        ensures { OnOk result (self.new ≡ remove_out_of number self.old) }
    {
        self.outbox.remove(Key::of(u64::from(number)))?;
        Ok(())
    }

    #[tactic(auto, using(sms_rows::proofs::table::Tables::all_applied_push))]
    pub fn put_mark(&mut self, mark: DiscardedGroup) -> Result<(), NoMemory>
        ensures { OnOk result (self.new ≡ put_mark_of mark self.old) }
    {
        self.marks.put(mark)?;
        Ok(())
    }

    #[tactic(auto, using(sms_rows::proofs::table::Tables::all_applied_push))]
    pub(crate) fn remove_mark(&mut self, number: u32) -> Result<(), NoMemory>
        ensures { OnOk result (self.new ≡ remove_mark_of number self.old) }
    {
        self.marks.remove(Key::of(u64::from(number)))?;
        Ok(())
    }

    pub fn put_counters(&mut self, counters: Counters)
        ensures { self.new ≡ put_counters_of counters self.old }
    {
        self.counters = Some(counters);
    }

    /// The present counters.
    pub fn counters(&self) -> Counters
        ensures { result ≡ self.now.rows.counters }
    {
        match self.counters {
            Some(counters) => counters,
            None => self.base.counters,
        }
    }

    /// The address of the service centre.
    pub(crate) fn centre(&self) -> Address
        ensures value { result ≡ self.now.rows.setup.centre }
        ensures valid { IsAddress result }
    {
        self.base.setup.centre
    }

    /// An entry of the inbox, before anything of it has changed.
    pub fn entry(&self, number: u32) -> Option<&'a Entry>
        requires { self.now.changes ≡ no_changes }
        ensures { option_copied result ≡ row_at entry_key number self.now.rows.entries }
    {
        self.base.entries.find(Key::of(u64::from(number)))
    }

    /// An entry of the outbox, before anything of it has changed.
    pub fn out_entry(&self, number: u32) -> Option<&'a OutEntry>
        requires { self.now.changes ≡ no_changes }
        ensures { option_copied result ≡ row_at out_key number self.now.rows.outbox }
    {
        self.base.outbox.find(Key::of(u64::from(number)))
    }

    /// The stored parts of the group, before anything has changed.
    pub fn members(&self, group: &Group) -> Members<'a>
        requires { self.now.changes ≡ no_changes }
        ensures { result ≡ members_of group.now self.now.rows.entries }
    {
        Members::of(&self.base.groups, &self.base.entries, group)
    }

    /// The open group whose first stored part is the entry of that number, before anything has changed.
    pub fn open_at(&self, number: u32) -> Option<&'a OpenGroup>
        requires { self.now.changes ≡ no_changes }
        ensures { option_copied result ≡ open_at_of number self.now.rows.entries }
    {
        self.base.groups.at(number)
    }

    /// The stored parts of the group.
    pub fn members_in(&self, there: &'a OpenGroup) -> Members<'a>
        requires untouched { self.now.changes ≡ no_changes }
        requires parts { there.now.parts ≡ stored_parts (members_of there.now.group self.now.rows.entries) }
        ensures { result ≡ members_of there.entry.now.group self.now.rows.entries }
    {
        Members::in_group(&self.base.entries, there)
    }

    /// The discarded groups, before anything of them has changed.
    pub fn marks(&self) -> &'a [DiscardedGroup]
        requires { self.now.changes.marks ≡ [] }
        ensures { result.now ≡ self.now.rows.marks }
    {
        self.base.marks.as_slice()
    }

    /// The outbox, before anything of it has changed.
    pub fn outbox(&self) -> &'a [OutEntry]
        requires { self.now.changes.outbox ≡ [] }
        ensures { result.now ≡ self.now.rows.outbox }
    {
        self.base.outbox.as_slice()
    }

    /// What was accepted last under a reference, before anything was accepted.
    pub fn last(&self, reference: u8) -> Option<&'a LastAccepted>
        requires { self.now.changes.last ≡ [] }
        ensures { option_copied result ≡ row_at last_key reference self.now.rows.last }
    {
        self.base.last.find(Key::of(u64::from(reference)))
    }
}

impl<'a> Draft<'a> {
    /// The answer in the transaction that the centre began, if one waits for it: a unit of 1 to 248 octets.
    #[tactic(auto, using(crate::proofs::HandsetLink::on_its_side))]
    pub fn reply(
        &mut self,
        kind: Kind,
        reference: u8,
        tag: Holder,
        unit: &[u8],
    ) -> Result<(), NoMemory>
        requires some { 0 < length unit.now }
        requires fits { length unit.now ≤ 248 }
        ensures { OnOk result (self.new ≡ reply_of kind reference tag unit.now self.old) }
    {
        let frames = self.link.reply(self.moment, kind, reference, tag, unit)?;
        push_all(&mut self.frames, frames)
    }

    /// A transaction of this side, unless one is under way: a unit of 1 to 248 octets.
    #[tactic(auto, using(crate::proofs::HandsetLink::on_its_side))]
    pub(crate) fn begin(&mut self, reference: u8, tag: Holder, unit: &[u8]) -> Result<(), NoMemory>
        requires some { 0 < length unit.now }
        requires fits { length unit.now ≤ 248 }
        ensures { OnOk result (self.new ≡ begin_of reference tag unit.now self.old) }
    {
        let frames = self.link.begin(self.moment, reference, tag, unit)?;
        push_all(&mut self.frames, frames)
    }

    /// The link takes a frame, and gives what it passes up.
    #[tactic(auto, using(crate::proofs::HandsetLink::on_its_side))]
    pub fn take(&mut self, frame: &[u8]) -> Result<Option<Upward>, NoMemory>
        ensures moves { OnOk result (self.new ≡ with_turn (taken frame.now (link_of self.old)) self.old) }
        ensures up { IfOk result (λ up. up ≡ (taken frame.now (link_of self.old)).out.up) }
    {
        let out = self.link.take(frame)?;
        push_all(&mut self.frames, out.frames)?;
        Ok(out.up)
    }

    /// The timers of the link fire that are due. It gives what the link passes up.
    #[tactic(auto, using(crate::proofs::HandsetLink::on_its_side))]
    pub(crate) fn fire(&mut self) -> Result<Option<Upward>, NoMemory>
        ensures moves { OnOk result (self.new ≡ with_turn (fired self.old.moment (link_of self.old)) self.old) }
        ensures up { IfOk result (λ up. up ≡ (fired self.old.moment (link_of self.old)).out.up) }
    {
        let out = self.link.fire(self.moment)?;
        push_all(&mut self.frames, out.frames)?;
        Ok(out.up)
    }
}

// How many slots the entry of that number takes as the entries stand, if there is one.
fn slots_at(entries: &TableDraft<'_, Entry>, number: u32) -> u8
    ensures { result ≡ slots_of (row_at entry_key number (rows_in entry_key entries.now)) }
{
    match entries.find(Key::of(u64::from(number))) {
        Some(entry) => entry.slots,
        None => 0,
    }
}

// How many slots are taken where some were freed and others taken. A count that is too large for its type, which takes
// more entries than there are numbers, is told as want of memory.
fn retaken(taken: u64, freed: u8, slots: u8) -> Result<u64, NoMemory>
    requires { freed ≤ taken }
    ensures { IfOk result (λ now. now + freed ≡ taken + slots) }
{
    match (taken - u64::from(freed)).checked_add(u64::from(slots)) {
        Some(now) => Ok(now),
        None => Err(NoMemory),
    }
}

// Frames behind others.
fn push_all(out: &mut Listed<Outgoing>, frames: Listed<Outgoing>) -> Result<(), NoMemory>
    ensures { OnOk result (out.new ≡ out.old ++ frames) }
{
    for frame in frames.into_vec() {
        out.push(frame)?;
    }
    Ok(())
}
