//! Storing messages and parts, and what becomes of a group.
ghost use Rattle.std.specs.Prelude.{◌≡◌, ◌++◌, ◌+◌, ◌∷◌, ◌<◌, [], true, IfOk, OnOk, Some, None};
ghost use Rattle.sms_handset_draft.specs.Draft.{put_entry as put_entry_of};
ghost use Rattle.sms_handset_rows.specs.inbox.Groups.{alone, part_entry};
ghost use Rattle.sms_handset_draft.specs.Storing.{completed, count_entry as count_entry_of, ended, free_all, marked as marked_of, store_part as store_part_of};
ghost use Rattle.sms_handset_draft.specs.Storing.{store_single as store_single_of};
ghost use Rattle.sms_handset_draft.specs.GroupChanges.{stored_groups};
ghost use Rattle.sms_handset_rows.specs.inbox.OpenGroups.{grouped};
ghost use Rattle.sms_handset_draft.specs.MemoryAvailable.{flag as flag_of, freed as freed_of, has_room as has_room_of};

use crate::draft::Draft;
use crate::no_memory::NoMemory;
use sms_base::Octets;
use sms_concat::Content;
use sms_handset_rows::inbox::{
    DiscardedGroup, Entry, Group, Members, Message, Regrouping, has_every, is_full, joined_content,
};

impl<'a> Draft<'a> {
    /// Whether a slot is free and an entry number is left.
    pub fn has_room(&self) -> bool
        ensures room { result ≡ has_room_of self.now }
        ensures number { result ≡ true → self.now.rows.counters.entry < 4294967295 }
    {
        self.taken < u64::from(self.base.setup.slots) && self.counters().entry < 4294967295
    }

    /// A message was refused for want of a slot.
    pub fn flag(&mut self)
        ensures { self.new ≡ flag_of self.old }
    {
        let mut counters = self.counters();
        counters.is_memory_full = true;
        self.put_counters(counters);
    }

    // An entry takes the next number.
    fn count_entry(&mut self) -> u32
        requires { self.old.rows.counters.entry < 4294967295 }
        ensures number { result ≡ self.old.rows.counters.entry }
        ensures counted { self.new ≡ count_entry_of self.old }
    {
        let mut counters = self.counters();
        let number = counters.entry;
        counters.entry += 1;
        self.put_counters(counters);
        number
    }

    /// A message that is no part of an open group.
    pub fn store_single(&mut self, tpdu: &[u8]) -> Result<(), NoMemory>
        requires { self.old.rows.counters.entry < 4294967295 }
        ensures { OnOk result (self.new ≡ store_single_of tpdu.now self.old) }
    {
        let tpdu = Octets::copy_of(self.alloc, tpdu)?;
        let number = self.count_entry();
        self.put_entry(Entry {
            number,
            slots: 1,
            message: Message::Single { tpdu },
        })
    }

    /// A part of a group that has those parts so far: what becomes of the group.
    pub fn store_part(
        &mut self,
        group: &Group,
        number: u8,
        tpdu: &[u8],
        members: &Members<'_>,
    ) -> Result<Regrouping, NoMemory>
        requires { self.old.rows.counters.entry < 4294967295 }
        ensures moves { OnOk result (self.new ≡ store_part_of group.now number tpdu.now members.now self.old) }
        ensures groups { IfOk result (λ change. change ≡ stored_groups group.now number tpdu.now members.now self.old) }
    {
        let stored = Octets::copy_of(self.alloc, tpdu)?;
        let kept = Octets::copy_of(self.alloc, tpdu)?;
        let entry = self.count_entry();
        let part = part_of(entry, group, number, kept);
        self.put_entry(part_of(entry, group, number, stored))?;
        self.complete(group, members, &part)
    }

    // The group, if it is full with one more part, ends.
    fn complete(
        &mut self,
        group: &Group,
        members: &Members<'_>,
        part: &Entry,
    ) -> Result<Regrouping, NoMemory>
        ensures moves { OnOk result (self.new ≡ completed group.now (members.now ++ part.now ∷ []) self.old) }
        ensures groups { IfOk result (λ change. change ≡ grouped group.now members.now part.now) }
    {
        if !is_full(group.total, members, part) {
            return Ok(members.one_more(self.alloc, group, part)?);
        }
        match joined_content(self.alloc, group, members, part)? {
            Some(content) => self.join(group, members, part, content)?,
            None => self.part_ways(members, part)?,
        }
        Ok(Regrouping::Closed {
            first: members.first_number(part.number),
        })
    }

    // A full group becomes one entry.
    fn join(
        &mut self,
        group: &Group,
        members: &Members<'_>,
        part: &Entry,
        content: Content,
    ) -> Result<(), NoMemory>
        ensures { OnOk result (self.new ≡ ended group.now (members.now ++ part.now ∷ []) (Some content) self.old) }
    {
        self.drop_members(members)?;
        self.remove_entry(part.number)?;
        self.put_entry(Entry {
            number: members.first_number(part.number),
            slots: group.total,
            message: Message::Joined {
                source: group.source,
                content,
            },
        })
    }

    // The parts of a group become single entries.
    fn part_ways(&mut self, members: &Members<'_>, part: &Entry) -> Result<(), NoMemory>
        ensures { OnOk result (self.new ≡ free_all (members.now ++ part.now ∷ []) self.old) }
    {
        self.free_members(members)?;
        self.free(part)
    }

    /// A part becomes a single entry.
    pub(crate) fn free(&mut self, entry: &Entry) -> Result<(), NoMemory>
        ensures { OnOk result (self.new ≡ put_entry_of (alone entry.now) self.old) }
    {
        let tpdu = Octets::copy_of(self.alloc, entry.message.tpdu())?;
        self.put_entry(Entry {
            number: entry.number,
            slots: entry.slots,
            message: Message::Single { tpdu },
        })
    }

    /// Notes a part of a discarded group.
    pub fn mark(&mut self, number: u8, mark: &DiscardedGroup) -> Result<(), NoMemory>
        ensures { OnOk result (self.new ≡ marked_of number mark.now self.old) }
    {
        let mut seen = Octets::copy_of(self.alloc, mark.seen.as_slice())?;
        seen.push(number)?;
        if has_every(mark.group.total, seen.as_slice()) {
            return self.remove_mark(mark.number);
        }
        self.put_mark(DiscardedGroup {
            number: mark.number,
            group: mark.group,
            seen,
        })
    }

    /// A slot became free.
    pub fn free_slot(&mut self)
        ensures { self.new ≡ freed_of self.old }
    {
        let mut counters = self.counters();
        if counters.is_memory_full {
            counters.is_memory_full = false;
            self.put_counters(counters);
            self.notices_wanted = self.notices_wanted.saturating_add(1);
        }
    }
}

// A part of a group.
fn part_of(entry: u32, group: &Group, number: u8, tpdu: Octets) -> Entry
    ensures { result ≡ part_entry entry group.now number tpdu }
{
    Entry {
        number: entry,
        slots: 1,
        message: Message::Part {
            group: *group,
            number,
            tpdu,
        },
    }
}
