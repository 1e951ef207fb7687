//! The index of open groups.
ghost use Rattle.std.specs.Prelude.{◌≡◌, ◌+◌, ◌≤◌, ◌++◌, ◌∷◌, ℕ, List, [], length, max, nat_eq, if◌then◌else◌, IfOk, OnOk, IsOk, option_copied};
ghost use Rattle.std.specs.List.{IsDistinct};
ghost use Rattle.std.specs.Map.{keys_of};
ghost use Rattle.sms_rows.specs.table.Table.{Rises};
ghost use Rattle.sms_handset_rows.specs.declared.inbox.entry.Entry.{Entry as EntryOf};
ghost use Rattle.sms_handset_rows.specs.declared.inbox.open_group.Regrouping.TheVariants.{Grown, Opened};
ghost use Rattle.sms_handset_rows.specs.inbox.Keys.{entry_key};
ghost use Rattle.sms_handset_rows.specs.inbox.OpenGroups.{one_more as one_more_of, open_group, regrouped, stored_part, stored_parts};
ghost use Rattle.sms_handset_rows.specs.inbox.TakenParts.{carried_by as carried_by_of};
ghost use Rattle.sms_handset_rows.specs.inbox.OpenIndex.{Indexes, find_open, first_entry_of, opening, parts_of, under};

use crate::inbox::entry::{Entry, Group, Message};
use crate::inbox::groups::is_same_group;
use crate::inbox::open_group::{OpenGroup, Regrouping, StoredPart};
use crate::inbox::taking::{carried_by, with_taken};
use indexmap::IndexMap;
use sms_base::Listed;
use sms_concat::joiner::Joiner;
use sms_concat::{ConcatKey, Part};
use std::alloc::{AllocError, Global};
use std::marker::Model;

/// Open groups, each under the number of its first stored part; contracts see how many groups its memory holds, too.
#[derive(Drop)]
pub struct OpenGroups {
    by_first_part: IndexMap<u32, OpenGroup>,
}

impl Model for OpenGroups {
    ghost use Rattle.std.specs.Prelude.{◌+◌};
    ghost use Rattle.indexmap.specs.IndexMap.{index_map_len, spare};
    ghost use Rattle.sms_handset_rows.specs.inbox.OpenIndex.{OpenIndex};

    ghost Value = { OpenIndex };

    ghost view = { λ g. record { groups = g.by_first_part.entries; capacity = index_map_len g.by_first_part + spare g.by_first_part } };
}

/// Memory for open groups that no index uses yet, seen by contracts as how many it holds.
#[derive(Drop)]
pub struct OpenGroupsReserve {
    map: IndexMap<u32, OpenGroup>,
}

impl Model for OpenGroupsReserve {
    ghost use Rattle.std.specs.Prelude.{◌≡◌, ℕ, []};
    ghost use Rattle.indexmap.specs.IndexMap.{spare};

    ghost Value = { ℕ };

    ghost view = { λ s. spare s.map };

    ghost invariant = { λ s. s.map.entries ≡ [] };
}

impl OpenGroups {
    /// The open groups of the entries.
    pub fn of(alloc: Global, entries: &[Entry]) -> Result<OpenGroups, AllocError>
        requires { Rises entry_key entries.now }
        ensures { IfOk result (λ groups. Indexes groups entries.now) }
    {
        let mut groups = OpenGroups {
            by_first_part: IndexMap::new(alloc),
        };
        for entry in entries {
            groups.take(alloc, entry)?;
        }
        Ok(groups)
    }

    // One more entry stands behind all others.
    fn take(&mut self, alloc: Global, entry: &Entry) -> Result<(), AllocError>
        ensures { OnOk result ((before : List EntryOf) → Rises entry_key (before ++ entry.now ∷ []) → Indexes self.old before
            → Indexes self.new (before ++ entry.now ∷ [])) }
    {
        if let Message::Part { group, .. } = &entry.message {
            let change = one_more(alloc, group, self.parts(group), entry)?;
            self.carry_out(change)?;
        }
        Ok(())
    }

    // Carries out the change; takes no memory where there is room for what opens.
    fn carry_out(&mut self, change: Regrouping) -> Result<(), AllocError>
        ensures done { OnOk result ((n : ℕ) → under self.new n ≡ regrouped change n (under self.old n)) }
        ensures in_place { length self.old.groups + opening change ≤ self.old.capacity → IsOk result }
    {
        match change {
            Regrouping::Unchanged => (),
            Regrouping::Opened { first, group } => {
                self.by_first_part.insert(first, group)?;
            }
            Regrouping::Grown { first, parts, part } => self.grow(first, parts, part),
            Regrouping::Closed { first } => {
                self.by_first_part.swap_remove(&first);
            }
        }
        Ok(())
    }

    // The group under that number, if there is one, has one part more.
    fn grow(&mut self, first: u32, parts: Listed<StoredPart>, part: Option<Part>)
        ensures under { (n : ℕ) → under self.new n ≡ regrouped (Grown first parts part) n (under self.old n) }
    {
        if let Some(group) = self.by_first_part.get_mut(&first) {
            group.take_one_more(parts, part);
        }
    }

    // The open group that is this group.
    pub(crate) fn find(&self, group: &Group) -> Option<&OpenGroup>
        ensures found { option_copied result ≡ find_open group.now self.now.groups }
        ensures unique { IsDistinct nat_eq (keys_of self.now.groups) }
    {
        for (_, open) in self.by_first_part.iter() {
            if is_same_group(&open.group, group) {
                return Some(open);
            }
        }
        None
    }

    /// The stored parts of the group.
    pub fn parts(&self, group: &Group) -> &[StoredPart]
        ensures parts { result.now ≡ parts_of (find_open group.now self.now.groups) }
        ensures unique { IsDistinct nat_eq (keys_of self.now.groups) }
    {
        match self.find(group) {
            Some(open) => open.parts.as_slice(),
            None => &[],
        }
    }

    /// The open group whose first stored part is the entry of that number.
    pub fn at(&self, number: u32) -> Option<&OpenGroup>
        ensures { option_copied result ≡ under self.now number }
    {
        self.by_first_part.get(&number)
    }

    /// Memory for the change where the index has too little, else none.
    pub fn make_reserve(
        &self,
        alloc: Global,
        change: &Regrouping,
    ) -> Result<OpenGroupsReserve, AllocError>
        ensures { IfOk result (λ reserve. length self.now.groups + opening change.now ≤ max self.now.capacity reserve) }
    {
        let len = self.by_first_part.len();
        let wanted = if opens(change) && self.by_first_part.capacity() == len {
            2 * len + 1
        } else {
            0
        };
        let map = IndexMap::with_capacity(alloc, wanted)?;
        Ok(OpenGroupsReserve { map })
    }

    /// Moves the groups into the memory where it is larger than the index's own, without taking memory.
    pub fn use_reserve(&mut self, reserve: OpenGroupsReserve)
        ensures groups { (n : ℕ) → under self.new n ≡ under self.old n }
        ensures taken { length self.new.groups ≡ length self.old.groups }
        ensures room { max self.old.capacity reserve ≤ self.new.capacity }
    {
        let mut map = reserve.map;
        // The call tells that no number stands twice.
        let _len = self.by_first_part.len();
        if self.by_first_part.capacity() < map.capacity() {
            match map.append(&mut self.by_first_part) {
                Ok(()) => self.by_first_part = map,
                Err(_) => (),
            }
        }
    }

    /// Carries out the change without taking memory.
    pub fn apply(&mut self, change: Regrouping)
        requires { length self.old.groups + opening change ≤ self.old.capacity }
        ensures { (n : ℕ) → under self.new n ≡ regrouped change n (under self.old n) }
    {
        match self.carry_out(change) {
            Ok(()) => (),
            Err(_) => (),
        }
    }
}

// Whether a group opens.
fn opens(change: &Regrouping) -> bool
    ensures { opening change.now ≡ (if result then 1 else 0) }
{
    matches!(change, Regrouping::Opened { .. })
}

// A group that opens with its first part.
fn opened(alloc: Global, group: &Group, entry: &Entry) -> Result<Regrouping, AllocError>
    ensures { IfOk result (λ change. change ≡ Opened entry.now.number (open_group group.now (entry.now ∷ []))) }
{
    let key = ConcatKey {
        reference: group.reference,
        total: group.total,
        number: 0,
    };
    let joiner = Joiner::new(alloc, key)?;
    let part = carried_by(alloc, entry)?;
    let parts = stored_with(alloc, &[], entry)?;
    Ok(Regrouping::Opened {
        first: entry.number,
        group: OpenGroup {
            group: *group,
            parts,
            joined: with_taken(Some(joiner), part),
        },
    })
}

// The stored parts with one more.
fn stored_with(
    alloc: Global,
    parts: &[StoredPart],
    entry: &Entry,
) -> Result<Listed<StoredPart>, AllocError>
    ensures { IfOk result (λ all. all ≡ parts.now ++ stored_part entry.now ∷ []) }
{
    let mut all = Vec::from_slice(alloc, parts)?;
    all.push(StoredPart {
        entry: entry.number,
        number: entry.message.part_number(),
    })?;
    Ok(Listed::from_vec(all))
}

// A group that has one part more.
fn grown(
    alloc: Global,
    first: u32,
    parts: &[StoredPart],
    entry: &Entry,
) -> Result<Regrouping, AllocError>
    ensures { IfOk result (λ change. change ≡ Grown first (parts.now ++ stored_part entry.now ∷ []) (carried_by_of entry.now)) }
{
    let part = carried_by(alloc, entry)?;
    let parts = stored_with(alloc, parts, entry)?;
    Ok(Regrouping::Grown { first, parts, part })
}

/// What becomes of a group that is not full, with one more part.
pub(crate) fn one_more(
    alloc: Global,
    group: &Group,
    parts: &[StoredPart],
    entry: &Entry,
) -> Result<Regrouping, AllocError>
    ensures { (es : List EntryOf) → parts.now ≡ stored_parts es → IfOk result (λ change. change ≡ one_more_of group.now es entry.now) }
{
    match parts {
        [] => opened(alloc, group, entry),
        [_, ..] => grown(alloc, first_entry(parts, entry.number), parts, entry),
    }
}

/// The entry of the first part, or that number.
pub(crate) fn first_entry(parts: &[StoredPart], number: u32) -> u32
    ensures { result ≡ first_entry_of parts.now number }
{
    match parts.first() {
        Some(part) => part.entry,
        None => number,
    }
}
