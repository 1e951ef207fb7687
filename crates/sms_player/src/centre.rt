//! The centre of a script in play, over the centre's code.
//!
//! `PlayedCentre` is a centre on rows in memory, both lent to it. At any time it represents some centre of the
//! definition. `meet` leads from that to the one after the event, commits its changes and gives the references that it
//! gave. `restart` leads to the one that starts again on its rows. `with_first_centre` and `with_first_keep` lend what
//! such a centre is made of. Want of memory is reported only where a growth was refused. This module passes on what a
//! play names of the crates below, heads and handsets among it.
ghost use Rattle.std.specs.Prelude.{◌≡◌, ◌≤◌, ◌++◌, length, IfOk, OnOk, option_copied, option_map};
ghost use Rattle.sms_centre.specs.plans.EventOutcome.{AreOutputs};
ghost use Rattle.sms_centre_reports.specs.report_log.Reporting.{message_lines, receipt_lines};
ghost use Rattle.sms_store_memory.specs.centre.RowsInKeep.{rows_in};
ghost use Rattle.sms_centre_spec.specs.CentreEvent.{happened, recovered};
ghost use Rattle.sms_centre_spec.specs.Draft.{Core, core_of};
ghost use Rattle.sms_player.specs.heads.Heads.{AreHandsets};
ghost use Rattle.sms_centre_rows.specs.messages.Messages.{message_at, part_at};
ghost use Rattle.sms_play.specs.CentreSide.{given_by};
ghost use Rattle.sms_play.specs.PlayedEvent.{sessions_from};
ghost use Rattle.sms_player.specs.centre.PlayedCentre.{Represents, IsSomeCentre};

mod allocations;
mod events;
mod sessions;
mod starting;

pub use crate::heads::laws::handsets_can_have_links;
pub use crate::heads::{
    HandsetOutcome, PlayedHandset, centre_setup, joined_lines, judge, numbers_of, outbox_lines,
    with_parties,
};
use sms_base::{Listed, MessageId, Msisdn};
pub use sms_centre::{Centre, CentreAnswer, CentreEvent, Outputs, Setup as CentreSetup};
use sms_centre_rows::messages::MessageRow;
use sms_intake::CentreAccount;
use sms_rows::table::Key;
use sms_script::report::{GivenRow, ReceiptRow, ReportedMessage};
pub use sms_store_memory::centre::MemoryKeep;
pub use starting::{with_first_centre, with_first_keep};
use std::alloc::{AllocError, Global};
use std::marker::Model;

/// A centre whose rows are kept in memory, with links to some handsets. It owns none of them.
#[derive(Drop)]
pub struct PlayedCentre<'a> {
    alloc: Global,
    centre: &'a mut Centre,
    keep: &'a mut MemoryKeep,
    handsets: &'a [Msisdn],
}

impl<'a> Model for PlayedCentre<'a> {
    ghost use Rattle.sms_store_memory.specs.centre.RowsInKeep.{rows_in};
    ghost use Rattle.sms_player.specs.heads.Heads.{AreHandsets};
    ghost use Rattle.sms_player.specs.centre.PlayedCentre.{PlayedOf, IsSomeCentre};

    ghost Value = { PlayedOf };

    ghost view = { λ p. record { centre = p.centre.now; rows = rows_in p.keep.now; handsets = p.handsets.now } };

    ghost invariant = { λ p. IsSomeCentre p.centre.now (rows_in p.keep.now) × AreHandsets p.handsets.now };
}

impl<'a> PlayedCentre<'a> {
    /// A centre with these rows, and links to these handsets.
    pub fn new(
        alloc: Global,
        centre: &'a mut Centre,
        keep: &'a mut MemoryKeep,
        handsets: &'a [Msisdn],
    ) -> PlayedCentre<'a>
        requires consistent { IsSomeCentre centre.old (rows_in keep.old) }
        requires handsets { AreHandsets handsets.now }
        ensures { result ≡ record { centre = centre.old; rows = rows_in keep.old; handsets = handsets.now } }
    {
        PlayedCentre {
            alloc,
            centre,
            keep,
            handsets,
        }
    }

    /// The accounts of its setup.
    pub fn accounts(&self) -> &[CentreAccount]
        ensures accounts { result.now ≡ self.now.rows.setup.accounts }
        ensures few { length result.now ≤ 32 }
    {
        self.keep.setup().accounts.as_slice()
    }

    /// How many reports its rows have.
    pub fn count_reports(&self) -> usize
        ensures { result ≡ length self.now.rows.reports }
    {
        self.keep.reports().as_slice().len()
    }

    /// The TPDU of a part of its rows.
    pub fn part_tpdu(&self, id: MessageId, number: u8) -> Option<&[u8]>
        ensures { option_copied result ≡ option_map (λ p. p.tpdu) (part_at id number self.now.rows.parts) }
    {
        match self.keep.parts().find(Key::pair(id.number(), number)) {
            Some(part) => Some(part.tpdu.as_slice()),
            None => None,
        }
    }

    /// A message of its rows.
    pub fn message(&self, id: MessageId) -> Option<&MessageRow>
        ensures { option_copied result ≡ message_at id self.now.rows.messages }
    {
        self.keep.messages().find(Key::of(id.number()))
    }

    /// Every message with its state, by number.
    ///
    /// # Errors
    /// A growth was refused.
    pub fn table(&self) -> Result<Listed<ReportedMessage>, AllocError>
        ensures { (c : Core) → Represents c self.now.centre self.now.rows → IfOk result (λ table. table ≡ message_lines c.rows.messages) }
    {
        self.centre.table()
    }

    /// Every receipt and status report that was made, in the order made.
    ///
    /// # Errors
    /// A growth was refused.
    pub fn receipts(&self) -> Result<Listed<ReceiptRow>, AllocError>
        ensures { (c : Core) → Represents c self.now.centre self.now.rows → IfOk result (λ receipts. receipts ≡ receipt_lines c.rows.messages c.rows.reports) }
    {
        self.centre.receipts()
    }

    /// Meets an event. What it changes is committed, the references that it gives are added to those before, and what
    /// leaves is given.
    ///
    /// # Errors
    /// A growth was refused.
    pub fn meet(
        &mut self,
        event: &CentreEvent<'_>,
        given: &mut Listed<GivenRow>,
    ) -> Result<Outputs, AllocError>
        ensures outputs { (c : Core) → Represents c self.old.centre self.old.rows → IfOk result (AreOutputs (happened event.now c)) }
        ensures played { (c : Core) → Represents c self.old.centre self.old.rows
            → OnOk result (Represents (core_of (happened event.now c)) self.new.centre self.new.rows) }
        ensures given { (c : Core) → Represents c self.old.centre self.old.rows → OnOk result (given.new ≡ given.old ++ given_by (happened event.now c)) }
        ensures handsets { self.new.handsets ≡ self.old.handsets }
    {
        events::meet(self.centre, self.keep, event, given)
    }

    /// Starts again on its rows, which it looks over once for the greatest moment that they have seen, and doesn't
    /// copy. Links to its handsets are up at its first tick.
    ///
    /// # Errors
    /// A growth was refused.
    pub fn restart(&mut self) -> Result<(), AllocError>
        ensures played { (c : Core) → Represents c self.old.centre self.old.rows
            → OnOk result (Represents (recovered c.rows self.old.handsets (sessions_from 0 c.rows.setup.accounts)) self.new.centre self.new.rows) }
        ensures handsets { self.new.handsets ≡ self.old.handsets }
    {
        starting::restart(self.alloc, self.centre, self.keep, self.handsets)
    }
}
