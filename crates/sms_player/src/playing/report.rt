//! What a script led to.
ghost use Rattle.std.specs.Prelude.{◌≡◌, IfOk};
ghost use Rattle.sms_play.specs.PlayState.{PlayState};
ghost use Rattle.sms_play.specs.Playing.{accepted_lines as accepted_lines_of, all_outbox_lines, joined_lines as joined_lines_of, message_lines, receipt_lines};
ghost use Rattle.sms_play.specs.Playing.{report_of};
ghost use Rattle.sms_player.specs.playing.Plays.{Represents};

use crate::centre::{joined_lines, outbox_lines};
use crate::playing::Playing;
use sms_base::Listed;
use sms_play::reporting::accepted_lines;
use sms_script::report::{AcceptedRow, JoinedRow, OutboxRow, ReceiptRow, Report, ReportedMessage};
use std::alloc::AllocError;

// What is read off the two sides.
#[derive(Drop)]
struct Read {
    table: Listed<ReportedMessage>,
    accepted: Listed<AcceptedRow>,
    joined: Listed<JoinedRow>,
    receipts: Listed<ReceiptRow>,
    outboxes: Listed<OutboxRow>,
}

impl<'a> Playing<'a> {
    fn read(&self) -> Result<Read, AllocError>
        ensures table { (c : PlayState) → Represents c self.now → IfOk result (λ read. read.table ≡ message_lines c.centre.rows.messages) }
        ensures receipts { (c : PlayState) → Represents c self.now
            → IfOk result (λ read. read.receipts ≡ receipt_lines c.centre.rows.messages c.centre.rows.reports) }
        ensures accepted { (c : PlayState) → Represents c self.now → IfOk result (λ read. read.accepted ≡ accepted_lines_of c.parties) }
        ensures joined { IfOk result (λ read. read.joined ≡ joined_lines_of self.now.parties) }
        ensures outboxes { IfOk result (λ read. read.outboxes ≡ all_outbox_lines self.now.parties) }
    {
        let parties = &*self.parties;
        let table = self.centre.table()?;
        let accepted = accepted_lines(self.alloc, self)?;
        let joined = joined_lines(self.alloc, parties)?;
        let receipts = self.centre.receipts()?;
        let outboxes = outbox_lines(self.alloc, parties)?;
        Ok(Read {
            table,
            accepted,
            joined,
            receipts,
            outboxes,
        })
    }

    /// The report of what the script led to.
    ///
    /// # Errors
    /// A growth was refused.
    pub fn report(self) -> Result<Report, AllocError>
        ensures { (c : PlayState) → Represents c self.entry → IfOk result (λ report. report ≡ report_of c) }
    {
        let read = self.read()?;
        Ok(Report {
            answers: self.answers,
            table: read.table,
            accepted: read.accepted,
            joined: read.joined,
            receipts: read.receipts,
            outboxes: read.outboxes,
            given: self.given,
            bag: self.bag,
        })
    }
}
