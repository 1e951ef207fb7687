//! The changes of several events, one after another.
ghost use Rattle.std.specs.Prelude.{◌≡◌, ◌++◌, ◌↔◌, true, length, OnOk};
ghost use Rattle.sms_centre_group.specs.HeldRoom.{HasRoomFor, HasVecRoom, changes_in};
ghost use Rattle.sms_centre_group.specs.Joined.{joined};
ghost use Rattle.sms_centre_spec.specs.Draft.{no_changes};

use sms_base::Listed;
use sms_centre_rows::messages::{BarRow, MessageRow, PartRow, PriorityRow};
use sms_centre_rows::reports::ReportRow;
use sms_centre_rows::waiting::{HandsetRow, ReferenceRow, Revision};
use sms_centre_spec::Changes;
use sms_rows::table::Change;
use std::alloc::{AllocError, Global};
use std::mem;

/// The changes of several events, of each list of rows the oldest first. Contracts see them as those of one event.
#[derive(Drop)]
pub struct HeldChanges {
    pub(crate) messages: Vec<Change<MessageRow>>,
    pub(crate) parts: Vec<Revision<PartRow>>,
    pub(crate) references: Vec<Change<ReferenceRow>>,
    pub(crate) handsets: Vec<Change<HandsetRow>>,
    pub(crate) reports: Vec<Revision<ReportRow>>,
    pub(crate) priorities: Vec<Change<PriorityRow>>,
    pub(crate) bars: Vec<Change<BarRow>>,
}

// Puts the items at the end, where there is room.
fn append<T: Drop>(held: &mut Vec<T>, items: Listed<T>)
    requires { HasVecRoom (length items) held.old }
    ensures { held.new.items ≡ held.old.items ++ items }
{
    let mut items = items.into_vec();
    match held.append(&mut items) {
        Ok(()) => (),
        Err(_) => (),
    }
}

impl HeldChanges {
    /// Nothing has changed.
    pub fn none(alloc: Global) -> HeldChanges
        ensures { changes_in result ≡ no_changes }
    {
        HeldChanges {
            messages: Vec::new(alloc),
            parts: Vec::new(alloc),
            references: Vec::new(alloc),
            handsets: Vec::new(alloc),
            reports: Vec::new(alloc),
            priorities: Vec::new(alloc),
            bars: Vec::new(alloc),
        }
    }

    /// Makes room for the changes of one event more. Where memory is wanting, what is held stays.
    pub fn make_room(&mut self, changes: &Changes) -> Result<(), AllocError>
        ensures same { changes_in self.new ≡ changes_in self.old }
        ensures room { OnOk result (HasRoomFor changes.now self.new) }
    {
        self.messages.reserve(changes.messages.len())?;
        self.parts.reserve(changes.parts.len())?;
        self.references.reserve(changes.references.len())?;
        self.handsets.reserve(changes.handsets.len())?;
        self.reports.reserve(changes.reports.len())?;
        self.priorities.reserve(changes.priorities.len())?;
        self.bars.reserve(changes.bars.len())
    }

    /// Takes the changes of one event more, without taking memory.
    pub fn hold(&mut self, changes: Changes)
        requires { HasRoomFor changes self.old }
        ensures { changes_in self.new ≡ joined (changes_in self.old) changes }
    {
        append(&mut self.messages, changes.messages);
        append(&mut self.parts, changes.parts);
        append(&mut self.references, changes.references);
        append(&mut self.handsets, changes.handsets);
        append(&mut self.reports, changes.reports);
        append(&mut self.priorities, changes.priorities);
        append(&mut self.bars, changes.bars);
    }

    /// Whether nothing has changed.
    pub fn is_empty(&self) -> bool
        ensures { (result ≡ true) ↔ (changes_in self.now ≡ no_changes) }
    {
        self.messages.as_slice().is_empty()
            && self.parts.as_slice().is_empty()
            && self.references.as_slice().is_empty()
            && self.handsets.as_slice().is_empty()
            && self.reports.as_slice().is_empty()
            && self.priorities.as_slice().is_empty()
            && self.bars.as_slice().is_empty()
    }

    /// Gives all changes, as those of one event. Nothing has changed then.
    pub fn take(&mut self, alloc: Global) -> Changes
        ensures changes { result ≡ changes_in self.old }
        ensures none { changes_in self.new ≡ no_changes }
    {
        Changes {
            messages: Listed::from_vec(mem::replace(&mut self.messages, Vec::new(alloc))),
            parts: Listed::from_vec(mem::replace(&mut self.parts, Vec::new(alloc))),
            references: Listed::from_vec(mem::replace(&mut self.references, Vec::new(alloc))),
            handsets: Listed::from_vec(mem::replace(&mut self.handsets, Vec::new(alloc))),
            reports: Listed::from_vec(mem::replace(&mut self.reports, Vec::new(alloc))),
            priorities: Listed::from_vec(mem::replace(&mut self.priorities, Vec::new(alloc))),
            bars: Listed::from_vec(mem::replace(&mut self.bars, Vec::new(alloc))),
        }
    }
}
