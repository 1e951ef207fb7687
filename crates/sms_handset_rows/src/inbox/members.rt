//! The stored parts of a group.
ghost use Rattle.std.specs.Prelude.{◌≡◌, ◌++◌, ◌∷◌, [], length, Some, IfOk, option_copied};
ghost use Rattle.sms_concat.specs.joiner.StepwiseJoining.{Taken};
ghost use Rattle.sms_handset_rows.specs.declared.inbox.entry.Entry.{Entry as EntryOf};
ghost use Rattle.sms_handset_rows.specs.inbox.Groups.{first_number as first_number_of, is_among as is_among_of, members as members_of, part_numbers};
ghost use Rattle.sms_handset_rows.specs.inbox.Groups.{part_with as part_with_of};
ghost use Rattle.sms_handset_rows.specs.inbox.OpenGroups.{entries_of, one_more as one_more_of, stored_parts};
ghost use Rattle.sms_handset_rows.specs.inbox.OpenIndex.{Indexes, parts_of as parts_of_group};
ghost use Rattle.sms_handset_rows.specs.inbox.TakenParts.{taken_of};
ghost use Rattle.sms_handset_rows.specs.inbox.StoredParts.{entry_with as entry_with_of, numbers_of as numbers_of_parts};

use crate::inbox::entry::{Entry, Group};
use crate::inbox::groups::is_same_group;
use crate::inbox::open_group::{OpenGroup, Regrouping, StoredPart};
use crate::inbox::open_groups::{OpenGroups, first_entry, one_more};
use sms_base::Octets;
use sms_concat::joiner::Joiner;
use sms_rows::table::{Key, Table};
use std::alloc::{AllocError, Global};
use std::marker::Model;

/// The stored parts of a group, seen by contracts as their entries.
#[derive(Drop)]
pub struct Members<'a> {
    entries: &'a Table<Entry>,
    parts: &'a [StoredPart],
    // The group in the index, if what it has taken is these parts.
    found: Option<&'a OpenGroup>,
}

impl<'a> Model for Members<'a> {
    ghost use Rattle.std.specs.Prelude.{List, option_copied};
    ghost use Rattle.sms_handset_rows.specs.declared.inbox.entry.Entry.{Entry as EntryOf};
    ghost use Rattle.sms_handset_rows.specs.inbox.OpenGroups.{AreFound, HasTaken, entries_of};

    ghost Value = { List EntryOf };

    ghost view = { λ m. entries_of m.parts.now m.entries.now.rows };

    ghost invariant = { λ m. AreFound m.parts.now m.entries.now.rows × HasTaken (option_copied m.found) (entries_of m.parts.now m.entries.now.rows) };
}

impl<'a> Members<'a> {
    /// The members of the group, by the index of the entries.
    pub fn of(groups: &'a OpenGroups, entries: &'a Table<Entry>, group: &Group) -> Members<'a>
        requires { Indexes groups.now entries.now.rows }
        ensures { result ≡ members_of group.now entries.entry.now.rows }
    {
        // The call tells that the entries stand in order.
        let _in_order = entries.as_slice();
        let found = groups.find(group);
        Members {
            entries,
            parts: parts_of(found),
            found,
        }
    }

    /// The members of an open group that has them, not to be joined.
    pub fn in_group(entries: &'a Table<Entry>, there: &'a OpenGroup) -> Members<'a>
        requires { there.now.parts ≡ stored_parts (members_of there.now.group entries.now.rows) }
        ensures { result ≡ members_of there.entry.now.group entries.entry.now.rows }
    {
        // The call tells that the entries stand in order.
        let _in_order = entries.as_slice();
        Members {
            entries,
            parts: there.parts.as_slice(),
            found: None,
        }
    }

    /// How many they are.
    pub fn len(&self) -> usize
        ensures { result ≡ length self.now }
    {
        self.parts.len()
    }

    /// The parts, as the index has them.
    pub fn parts(&self) -> &'a [StoredPart]
        ensures { result.now ≡ stored_parts self.now }
    {
        self.parts
    }

    /// The inbox of which they are entries.
    pub fn inbox(&self) -> &'a Table<Entry>
        ensures { entries_of (stored_parts self.now) result.now.rows ≡ self.now }
    {
        self.entries
    }

    /// What becomes of the group, which is not full, with one more part.
    pub fn one_more(
        &self,
        alloc: Global,
        group: &Group,
        part: &Entry,
    ) -> Result<Regrouping, AllocError>
        ensures { IfOk result (λ change. change ≡ one_more_of group.now self.now part.now) }
    {
        one_more(alloc, group, self.parts(), part)
    }

    /// What the parts carry, where they were taken as those of the group.
    pub(crate) fn joiner(&self, group: &Group) -> Option<&'a Joiner>
        ensures { (t : Taken) → option_copied result ≡ Some t → taken_of group.now self.now ≡ Some t }
    {
        let found = self.found?;
        if is_same_group(&found.group, group) {
            found.joiner()
        } else {
            None
        }
    }

    /// Whether the part of that number is there.
    pub fn has(&self, number: u8) -> bool
        ensures { result ≡ is_among_of number (part_numbers self.now) }
    {
        has_number(self.parts, number)
    }

    /// The entry that holds the part of that number.
    pub fn part_with(&self, number: u8) -> Option<&'a Entry>
        ensures { option_copied result ≡ part_with_of number self.now }
    {
        match entry_with(self.parts, number) {
            Some(entry) => self.entries.find(Key::of(u64::from(entry))),
            None => None,
        }
    }

    /// The number of the first entry, or that number where there is none.
    pub fn first_number(&self, number: u32) -> u32
        ensures { (e : EntryOf) → e.number ≡ number → result ≡ first_number_of (self.now ++ e ∷ []) }
    {
        first_entry(self.parts, number)
    }

    /// The numbers of the parts.
    pub fn numbers(&self, alloc: Global) -> Result<Octets, AllocError>
        ensures { IfOk result (λ numbers. numbers ≡ part_numbers self.now) }
    {
        numbers_of(alloc, self.parts)
    }
}

fn parts_of<'a>(there: Option<&'a OpenGroup>) -> &'a [StoredPart]
    ensures { result.now ≡ parts_of_group (option_copied there.entry) }
{
    match there {
        Some(there) => there.parts.as_slice(),
        None => &[],
    }
}

fn has_number(parts: &[StoredPart], number: u8) -> bool
    ensures { result ≡ is_among_of number (numbers_of_parts parts.now) }
{
    for part in parts {
        if part.number == number {
            return true;
        }
    }
    false
}

// The entry of the part of that number.
fn entry_with(parts: &[StoredPart], number: u8) -> Option<u32>
    ensures { result ≡ entry_with_of number parts.now }
{
    for part in parts {
        if part.number == number {
            return Some(part.entry);
        }
    }
    None
}

fn numbers_of(alloc: Global, parts: &[StoredPart]) -> Result<Octets, AllocError>
    ensures { IfOk result (λ numbers. numbers ≡ numbers_of_parts parts.now) }
{
    let mut numbers = Octets::new(alloc);
    for part in parts {
        numbers.push(part.number)?;
    }
    Ok(numbers)
}
