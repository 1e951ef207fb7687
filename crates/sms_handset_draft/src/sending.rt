//! Sending: one message is under way at a time; how it ends, and what a restart leaves.
ghost use Rattle.std.specs.Prelude.{◌≡◌, ◌<◌, true, Some, IfOk, OnOk};
ghost use Rattle.sms_rows.specs.table.Table.{row_at};
ghost use Rattle.sms_handset_rows.specs.outbox.Keys.{out_key};
ghost use Rattle.sms_handset_rows.specs.outbox.References.{held_references as held_references_of, next_free as next_free_of};
ghost use Rattle.sms_handset_draft.specs.Outbox.{entry_concluded as entry_concluded_of, follow as follow_of, holder_concluded as holder_concluded_of};
ghost use Rattle.sms_handset_draft.specs.Outbox.{is_notice_next as is_notice_next_of, lapse as lapse_of, lapse_rows as lapse_rows_of, offer as offer_of};
ghost use Rattle.sms_handset_draft.specs.Outbox.{offer_after as offer_after_of, offer_entry as offer_entry_of, offer_message as offer_message_of};
ghost use Rattle.sms_handset_draft.specs.Outbox.{offer_wanted as offer_wanted_of, transfer_ended as transfer_ended_of};
ghost use Rattle.sms_handset_rows.specs.outbox.Offers.{first_due as first_due_of, first_fired as first_fired_of};

use crate::draft::Draft;
use crate::no_memory::NoMemory;
use sms_base::{Carried, Holder};
use sms_handset_rows::outbox::{
    EntryState, OutEntry, OutView, copies_of, data_unit, first_due, first_fired, held_references,
    lost, next_free, outbox_after, sent_once_more, settled, verdict_of,
};
use sms_link::Ending;
use sms_rows::table::{Key, Table};

/// How many RP-SMMA may have been sent and not have ended.
const MOST_NOTICES: usize = 200;

impl<'a> Draft<'a> {
    // The entry of that number, our own.
    fn found_entry(&self, number: u32) -> Result<Option<OutEntry>, NoMemory>
        ensures { IfOk result (λ entry. entry ≡ row_at out_key number self.now.rows.outbox) }
    {
        match self.outbox.find(Key::of(u64::from(number))) {
            Some(entry) => Ok(Some(entry.copy(self.alloc)?)),
            None => Ok(None),
        }
    }

    // The transfer of an entry has ended.
    fn entry_concluded(&mut self, ending: &Ending, number: u32) -> Result<(), NoMemory>
        ensures { OnOk result (self.new ≡ entry_concluded_of ending.now (row_at out_key number self.old.rows.outbox) self.old) }
    {
        match self.found_entry(number)? {
            Some(entry) => self.put_out(settled(self.moment, verdict_of(ending), entry)),
            None => Ok(()),
        }
    }

    // The transfer for a holder has ended.
    fn holder_concluded(&mut self, ending: &Ending, holder: Holder) -> Result<(), NoMemory>
        ensures { OnOk result (self.new ≡ holder_concluded_of ending.now holder self.old) }
    {
        match holder {
            Holder::Entry(number) => self.entry_concluded(ending, number),
            Holder::Memory(number) => self.notice_concluded(ending, number),
            Holder::Part(..) | Holder::Report(_) => Ok(()),
        }
    }

    /// The transfer that this side began has ended.
    pub fn transfer_ended(&mut self, transfer: &Carried, ending: &Ending) -> Result<(), NoMemory>
        ensures { OnOk result (self.new ≡ transfer_ended_of transfer.now ending.now self.old) }
    {
        self.holder_concluded(ending, transfer.tag)
    }

    /// The present outbox, with what this event has changed of it.
    pub fn outbox_now(&self) -> Result<Table<OutView<'_>>, NoMemory>
        ensures { IfOk result (λ outbox. outbox.rows ≡ self.now.rows.outbox) }
    {
        let base = self.base;
        Ok(outbox_after(self.alloc, &base.outbox, self.outbox.changes())?)
    }

    // The outbox as it stands, our own.
    fn outbox_copied(&self) -> Result<Vec<OutEntry>, NoMemory>
        ensures { IfOk result (λ entries. entries.items ≡ self.now.rows.outbox) }
    {
        let outbox = self.outbox_now()?;
        Ok(copies_of(self.alloc, outbox.as_slice())?)
    }

    // After a restart, what was under way is lost. The outbox is copied once.
    fn lapse(&mut self) -> Result<(), NoMemory>
        ensures { OnOk result (self.new ≡ lapse_of self.old) }
    {
        if self.is_recovered {
            self.is_recovered = false;
            let entries = self.outbox_copied()?;
            self.lapse_rows(entries)?;
        }
        Ok(())
    }

    fn lapse_rows(&mut self, entries: Vec<OutEntry>) -> Result<(), NoMemory>
        ensures { OnOk result (self.new ≡ lapse_rows_of entries.items self.old) }
    {
        for entry in entries {
            if entry.state == EntryState::Sending {
                self.put_out(lost(entry))?;
            }
        }
        Ok(())
    }

    fn due_entry(&self) -> Result<Option<OutEntry>, NoMemory>
        ensures { IfOk result (λ entry. entry ≡ first_due_of self.now.moment self.now.rows.outbox) }
    {
        let outbox = self.outbox_now()?;
        match first_due(self.moment, outbox.as_slice()) {
            Some(entry) => Ok(Some(entry.copy(self.alloc)?)),
            None => Ok(None),
        }
    }

    // Sends an entry.
    fn offer_entry(&mut self, entry: OutEntry) -> Result<(), NoMemory>
        ensures { OnOk result (self.new ≡ offer_entry_of (Some entry) self.old) }
    {
        let unit = data_unit(self.alloc, &self.centre(), &entry)?;
        let number = entry.number;
        let reference = entry.reference;
        self.put_out(sent_once_more(entry))?;
        self.begin(reference, Holder::Entry(number), unit.as_slice())
    }

    // Sends the oldest entry that is due.
    fn offer_message(&mut self) -> Result<(), NoMemory>
        ensures { OnOk result (self.new ≡ offer_message_of self.old) }
    {
        match self.due_entry()? {
            Some(entry) => self.offer_entry(entry),
            None => Ok(()),
        }
    }

    /// The next reference that nothing unfinished holds.
    pub fn free_reference(&self) -> Result<u8, NoMemory>
        ensures { IfOk result (λ reference. reference ≡ next_free_of self.now.rows.counters.reference
            (held_references_of self.now.notices self.now.rows.outbox)) }
    {
        let outbox = self.outbox_now()?;
        let held = held_references(self.alloc, self.notices.as_slice(), outbox.as_slice())?;
        Ok(next_free(self.counters().reference, held.as_slice()))
    }

    // Whether an RP-SMMA is wanted, a number is left for it, and few wait to be sent again.
    fn is_notice_next(&self) -> bool
        ensures next { result ≡ is_notice_next_of self.now }
        ensures number { result ≡ true → self.now.rows.counters.notice < 4294967295 }
    {
        0 < self.notices_wanted
            && self.counters().notice < 4294967295
            && self.notices.as_slice().len() < MOST_NOTICES
    }

    // An RP-SMMA that is wanted goes before messages.
    fn offer_wanted(&mut self) -> Result<(), NoMemory>
        ensures { OnOk result (self.new ≡ offer_wanted_of self.old) }
    {
        if self.is_notice_next() {
            let reference = self.free_reference()?;
            self.first_notice(self.counters().notice, reference)?;
        } else {
            self.offer_message()?;
        }
        Ok(())
    }

    // An RP-SMMA whose TRAM has fired goes first; one that waits for TRAM holds nothing up.
    fn offer_next(&mut self) -> Result<(), NoMemory>
        ensures { OnOk result (self.new ≡ offer_after_of (first_fired_of self.old.moment self.old.notices) self.old) }
    {
        match first_fired(self.moment, self.notices.as_slice()) {
            Some(notice) => self.send_notice(notice),
            None => self.offer_wanted(),
        }
    }

    // One transaction at a time.
    fn offer(&mut self) -> Result<(), NoMemory>
        ensures { OnOk result (self.new ≡ offer_of self.old) }
    {
        if self.link.is_busy() {
            return Ok(());
        }
        self.offer_next()
    }

    /// What follows every event that isn't refused: what a restart left lapses, and the next is offered.
    pub fn follow(&mut self) -> Result<(), NoMemory>
        ensures { OnOk result (self.new ≡ follow_of self.old) }
    {
        self.lapse()?;
        self.offer()
    }
}
